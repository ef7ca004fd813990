//! The statements of a text.
ghost use Rattle.std.specs.Prelude.{◌≡◌, ◌⊎◌, ◌^◌, ◌<◌, List, [], length, IfOk, IsOkAnd};
ghost use Rattle.std.specs.Str.Lines.{lines};
ghost use Rattle.tree.specs.declared.refusals.Refusal.{Refusal};
ghost use Rattle.reading.specs.refusal_order.Answered.{IsAnswered};
ghost use Rattle.f90_grammar.specs.FreeForm.{FreeStatement, AreStatements};
ghost use Rattle.f90_grammar.specs.LineCauses.{HasLineCause};
ghost use Rattle.f90_lines.specs.Readings as readings;
ghost use Rattle.f90_lines.specs.Views.{statements_seen};

use crate::lines::Lines;
use crate::readings::{Reading, Statement, on_line};
use crate::refusals::refusal;
use std::alloc::Global;
use tree::{Memory, Refused, Seq};

fn read_statements(alloc: Global, text: &[u8]) -> Result<Seq<Statement>, Memory>
    requires { length text.now < 2 ^ 32 }
    ensures { IfOk result (λ read. statements_seen read
        ≡ readings.statements_of 0 (readings.Ahead []) (lines text.now)) }
{
    let mut statements = Seq::new(alloc);
    let mut reading = Reading::Ahead(Seq::new(alloc));
    let mut lines = Lines::new(text);
    'reading: while let Some(line) = lines.next() {
        reading = on_line(alloc, reading, &line, &mut statements)?;
    }
    Ok(statements)
}

/// The statements of a text in free form.
pub fn statements(alloc: Global, text: &[u8]) -> Result<Seq<Statement>, Refused>
    requires { length text.now < 2 ^ 32 }
    ensures ok { IfOk result (λ read. AreStatements 1 (lines text.now) (statements_seen read)) }
    ensures unrefused { IfOk result (λ read. (r : Refusal) → HasLineCause text.now r → ⊥) }
    ensures refused { (r : Refusal) → result ≡ Err (Refused.Refusal r) → IsAnswered (HasLineCause text.now) r }

    // A text that has statements and no cause, or is refused, has no other answer, unless memory runs out.
    ensures only_read { (ss : List FreeStatement) → AreStatements 1 (lines text.now) ss
        → ((r : Refusal) → HasLineCause text.now r → ⊥)
        → IsOkAnd result (λ read. statements_seen read ≡ ss) ⊎ (result ≡ Err Refused.Memory) }
    ensures only_refused { (r : Refusal) → IsAnswered (HasLineCause text.now) r
        → (result ≡ Err (Refused.Refusal r)) ⊎ (result ≡ Err Refused.Memory) }
{
    if let Some(refusal) = refusal(text) {
        return Err(Refused::Refusal(refusal));
    }
    Ok(read_statements(alloc, text)?)
}
