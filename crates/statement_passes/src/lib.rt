//! Passes that make a list of statements of each statement of a nest, made names, and symbols that come in.
//!
//! Proved (`map_statements`): what a pass makes of a nest is exactly what it makes of each statement, by the loops
//! round it and the number of statements before it, with the loops as they were (`mapped_nest`); so a pass proves what
//! it does to one statement. `with_made`: further made scalars or arrays stand behind those that there are.
//! `scalar_kind`, `made_scalar_kind`: whether a name that is declared or made is a scalar, and its kind.
//! `rewrite_nodes`, `text_rule`: what a rule of nodes makes of one statement, and the rule of its canonical text.
//! `with_symbol`: a scalar that isn't written any more stands among the symbols at its place in byte order, and the
//! places of symbols in trips are those of the new list. As laws: the names stay in byte order (`symbol_order`); by
//! the new list each form has the same text (`shifted_text`) and the same number (`shifted_number`), and stays a form
//! within the limits (`shifted_form`); what stands in a nest whose statements were mapped (`mapped_standings`), and in
//! one with a symbol more, which is run as it was (`symbol_standings`).
//!
//! **Statements are counted at run time.** More of them than 32 bits can count don't fit into memory, and so is
//! answered; no pass has to show that there are few.
#![tactic(auto)]

mod laws;
mod made_names;
mod passes;
mod symbols;
mod texts;

pub use laws::{
    mapped_standings, shifted_form, shifted_number, shifted_text, symbol_order, symbol_standings,
};
pub use made_names::{copy_made, made_scalar_kind, scalar_kind, with_made};
pub use passes::{StatementPass, map_statements, within};
pub use symbols::{place_of, shifted_trip, with_name, with_symbol, with_symbols};
pub use texts::{rewrite_nodes, text_rule};
