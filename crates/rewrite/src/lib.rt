//! Rewriting of trees by a rule, from the leaves up.
//!
//! A rule says what becomes of one node, and its laws speak of one node. That the run of what was made follows the run
//! of the tree is proved once, for every rule. A rule rewrites an expression node by node (`NodeRule`), or all at once.
//!
//! Also the names that stand in a tree, those that it reads and those that it writes.
//!
//! Proved (`rewrite`): what is made of a block is exactly what the rule makes of it from the leaves up, for every rule
//! that keeps the laws of one node (`made`); a rule sees a node as it was first written, and as it is when its parts
//! were rewritten. Where the rule suits each node and the run of the block meets no fault, the run of what was made
//! goes the same way, with the same output and rest of the input, and with stores that the rule calls alike
//! (`follows`). Array forms are rewritten too, but nothing is promised of runs that evaluate them. What is made of the
//! block of a program of the profile is the block of one again (`profile`), where each node that is made takes the
//! place of its node: it has its kind and its rank by the new declarations, which have all that the old ones have, and
//! is no deeper than it or than a number that the rule names; then no expression of the block has become deeper by more
//! than that number. So it is for a scalar variable that an expression stands for (`replaced_profile`). `substitute`
//! puts an expression in place of a scalar, and keeps the value where both have one value or one fault.
//! `names_in_expr`, `names_in_ref` and `names_in_block` list the names that stand there, as often as they stand;
//! `names_read` and `names_written` list each name once, in the order of first occurrence; `mentions` says whether one
//! of some names is read in an expression. A rule rewrites whole expressions (`Rule`), or one node at a time
//! (`NodeRule`, `rewrite_expression`, `rewrite_parts`).
//!
//! **`rewrite` takes a block by reference.** Nothing of the tree is consumed, and a caller keeps it.
//!
//! **A rule sees a node as it was first written.** Canonical text is for nodes in which a loop's variable stood; in `I
//! - I + 3` none is left once `I - I` has become `0`. So what a rule makes is a function of two expressions, the node
//! as first written and the node over its rewritten parts. The laws speak of the second alone, for any first one.
//!
//! **A depth rises by at most a number that the rule names, whatever the depth of the tree.** The law of a node says
//! "no deeper than the node, or than the number", in each place where an operand may need parentheses. A law "at most
//! so much deeper than the node" would add up along a branch. So one replacement costs at most the number, for a tree
//! of any depth.
//!
//! **What a left side becomes is no DO variable.** A rule may give a left side another name; then the name is one that
//! the rule doesn't suit as a variable of a loop, so no loop round it can have it.
//!
//! **Rules of nodes and rules of whole expressions are two traits.** `rewrite` asks a rule for what it makes of an
//! expression; a rule that looks at one node at a time gets that from `rewrite_expression`. So canonical text can be
//! made in one pass over an expression, and the laws stay those of one node.
//!
//! **A block's names and its uses of names are listed by two walks.** In an expression one walk lists both (`Uses`). In
//! a statement the two lists have different orders: in a WHERE, and in an implied DO list, `names_in_block` names what
//! is assigned, or the variable, before the rest, and uses stand as the text has them.
#![tactic(auto)]

mod expressions;
mod items;
mod laws;
mod names;
mod rule;
mod statement_names;
mod statement_uses;
mod statements;
mod substitution;
mod uses;

pub use expressions::{rewrite_expression, rewrite_parts};
pub use laws::replaced_profile;
pub use names::{mentions, names_in_block, names_in_expr, names_in_ref, names_read, names_written};
pub use rule::{NodeRule, Rule};
pub use statements::rewrite;
pub use substitution::{is_variable, substitute};
