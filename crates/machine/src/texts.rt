//! Values as text (ANSI X3.9-1978, section 13.6).
ghost use Rattle.std.specs.Prelude.{◌≡◌, ◌≤◌, ◌∷◌, OnOk, OnErr};
ghost use Rattle.streams.specs.Causes.{Rose};
ghost use Rattle.meaning.specs.Texts.{value_text, output_text};
ghost use Rattle.machine.specs.Texts.{WritesText};

use itoa::Buffer;
use streams::{Sink, WriteFault, write_all};
use tree::Value;

fn write_number<K: Sink>(number: i128, out: &mut K) -> Result<(), WriteFault>
    ensures text { WritesText (K.taken out.old) (value_text (Value.Int number)) (K.taken out.new) result }
    ensures fault { OnErr result (Rose (K.faults out.old) (K.faults out.new)) }
    ensures no_fault { OnOk result (K.faults out.new ≡ K.faults out.old) }
    ensures later { K.faults out.old ≤ K.faults out.new }
{
    let mut buffer = Buffer::new();
    let text = buffer.format(number);
    write_all(out, text.as_bytes())
}

/// A number's shortest decimal text, or T or F.
pub fn write_value<K: Sink>(value: Value, out: &mut K) -> Result<(), WriteFault>
    ensures text { WritesText (K.taken out.old) (value_text value) (K.taken out.new) result }
    ensures fault { OnErr result (Rose (K.faults out.old) (K.faults out.new)) }
    ensures no_fault { OnOk result (K.faults out.new ≡ K.faults out.old) }
    ensures later { K.faults out.old ≤ K.faults out.new }
{
    match value {
        Value::Int(number) => write_number(number, out),
        Value::Truth(true) => write_all(out, b"T"),
        Value::Truth(false) => write_all(out, b"F"),
    }
}

/// A value in a line of output, behind one blank.
#[tactic(auto, using(crate::proofs::TextLaws::text_laws))]
pub fn write_output<K: Sink>(value: Value, out: &mut K) -> Result<(), WriteFault>
    ensures text { WritesText (K.taken out.old) (32 ∷ value_text value) (K.taken out.new) result }
    ensures fault { OnErr result (Rose (K.faults out.old) (K.faults out.new)) }
    ensures no_fault { OnOk result (K.faults out.new ≡ K.faults out.old) }
    ensures later { K.faults out.old ≤ K.faults out.new }
{
    write_all(out, b" ")?;
    write_value(value, out)
}

/// Values in a line of output, one after the other.
pub fn write_outputs<K: Sink>(values: &[Value], out: &mut K) -> Result<(), WriteFault>
    ensures text { WritesText (K.taken out.old) (output_text values.now) (K.taken out.new) result }
    ensures fault { OnErr result (Rose (K.faults out.old) (K.faults out.new)) }
    ensures no_fault { OnOk result (K.faults out.new ≡ K.faults out.old) }
    ensures later { K.faults out.old ≤ K.faults out.new }
{
    for value in values {
        write_output(*value, out)?;
    }
    Ok(())
}
