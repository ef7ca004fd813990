//! Two runs beside each other, step by step: what a pass over nests stands on.
//!
//! **Inside a pass** stores are related place by place: for a statement in its loops, at their iterations, with so many
//! statements before it. A statement leads to what the pass makes of it (`Leads`, specs/Leading); by
//! `mapped_nest_leads` (proofs/Mapped) a nest in which each statement has become a list of statements is then led to,
//! so a pass says nothing about loops but how its relation goes from turn to turn. What a rule of rewriting makes of a
//! statement is led to (`rule_leads`), and so is canonical text (proofs/Canonised). These laws speak of any relation,
//! which a contract can't: they are lemmas that the proofs of passes cite.
//!
//! **nest_steps::keeping** (laws): between passes stands one law. A block may stand for another one (`MayStandFor`)
//! where from moments that agree on the source both go on to moments that agree on it, in places that may declare made
//! names in different ways. This is transitive (`one_after_another`), and what stands for something keeps agreement by
//! itself (`what_stands_keeps_agreement`).
#![tactic(auto)]

pub mod keeping;
