//! The names of faults, refusals and their words.
ghost use Rattle.std.specs.Prelude.{◌≡◌, ◌<◌, ◌≤◌, length};
ghost use Rattle.tool.specs.report.Names.{fault_number, fault_name, name_of_refusal, refusal_word, left_out, name_at};

use tree::{Fault, Refusal};

pub(crate) fn fault_number(fault: Fault) -> u8
    ensures number { result ≡ fault_number fault }
    ensures digit { result < 10 }
{
    match fault {
        Fault::Overflow => 1,
        Fault::ZeroDivide => 2,
        Fault::Bounds => 3,
        Fault::ZeroStep => 4,
        Fault::TripCount => 5,
        Fault::InputEnd => 6,
        Fault::InputForm => 7,
        Fault::Shape => 8,
        Fault::Allocated => 9,
    }
}

pub(crate) fn fault_name(fault: Fault) -> &'static str
    ensures name { result.now ≡ fault_name fault }
    ensures short { length result.now ≤ 10 }
{
    match fault {
        Fault::Overflow => "Overflow",
        Fault::ZeroDivide => "ZeroDivide",
        Fault::Bounds => "Bounds",
        Fault::ZeroStep => "ZeroStep",
        Fault::TripCount => "TripCount",
        Fault::InputEnd => "InputEnd",
        Fault::InputForm => "InputForm",
        Fault::Shape => "Shape",
        Fault::Allocated => "Allocated",
    }
}

/// The name of a refusal.
pub(crate) fn refusal_name(refusal: Refusal) -> &'static str
    ensures name { result.now ≡ name_of_refusal refusal.number }
    ensures short { length result.now ≤ 12 }
{
    refusal.name()
}

// The word or form that the profile leaves out.
fn left_out(word: u8) -> &'static str
    ensures name { result.now ≡ name_at word left_out }
    ensures short { length result.now ≤ 15 }
{
    match word {
        1 => "REAL",
        2 => "DOUBLEPRECISION",
        3 => "COMPLEX",
        4 => "CHARACTER",
        5 => "EQUIVALENCE",
        6 => "COMMON",
        7 => "DATA",
        8 => "SAVE",
        9 => "IMPLICIT",
        10 => "ENTRY",
        11 => "BLOCKDATA",
        12 => "FORMAT",
        13 => "FUNCTION",
        14 => "INTEGERFUNCTION",
        15 => "LOGICALFUNCTION",
        16 => "SUBROUTINE",
        17 => "CALL",
        18 => "RETURN",
        19 => "ASSIGN",
        20 => "PAUSE",
        21 => "EXTERNAL",
        22 => "INTRINSIC",
        23 => "OPEN",
        24 => "CLOSE",
        25 => "INQUIRE",
        26 => "REWIND",
        27 => "BACKSPACE",
        28 => "ENDFILE",
        29 => "INCLUDE",
        30 => "DOWHILE",
        32 => "ARITHMETICIF",
        33 => "COMPUTEDGOTO",
        34 => "ASSIGNEDGOTO",
        _ => "",
    }
}

/// The word of a refusal; empty where it has none.
pub(crate) fn refusal_word(refusal: Refusal) -> &'static str
    ensures name { result.now ≡ refusal_word refusal.number refusal.word }
    ensures short { length result.now ≤ 15 }
{
    match refusal.number {
        7 => left_out(refusal.word),
        _ => refusal.limit(),
    }
}
