//! Statements with their lines.
use crate::statement_trees::StatementTree;

/// A statement with its line; none where it isn't executable.
#[derive(Drop)]
pub struct Treed {
    pub line: u32,
    pub tree: Option<StatementTree>,
}
