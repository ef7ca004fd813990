//! Jumps to labels (ANSI X3.9-1978, section 11.1).
ghost use Rattle.std.specs.Prelude.{◌≡◌};
ghost use Rattle.machine.specs.Jumps.{arrived, passed};
ghost use Rattle.tree.specs.View.{statement_of};

use tree::Stmt;

fn arrived(number: u32, label: u32) -> Option<u32>
    ensures { result ≡ arrived number label }
{
    if label == number {
        return None;
    }
    Some(label)
}

/// What is left of a jump to the label behind the statement.
#[tactic(auto, using(tree::proofs::Equations::statement_equations))]
pub fn passed(stmt: &Stmt, label: u32) -> Option<u32>
    ensures { result ≡ passed (statement_of stmt.now) label }
{
    match stmt {
        Stmt::Label { number } => arrived(*number, label),
        Stmt::Assign { .. } => Some(label),
        Stmt::Masked { .. } => Some(label),
        Stmt::If { .. } => Some(label),
        Stmt::Do { .. } => Some(label),
        Stmt::Go { .. } => Some(label),
        Stmt::Stop { .. } => Some(label),
        Stmt::Read { .. } => Some(label),
        Stmt::Print { .. } => Some(label),
        Stmt::Allocate { .. } => Some(label),
        Stmt::Deallocate { .. } => Some(label),
    }
}
