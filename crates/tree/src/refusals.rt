//! Why a source isn't read.
ghost use Rattle.std.specs.Prelude.{◌≡◌, ◌≤◌, length, find};
ghost use Rattle.tree.specs.Causes.{number_of_cause, word_of_cause, name_of_cause, limit_of_cause, all_causes};
ghost use Rattle.tree.specs.Causes.{refusal_at, refusal_name, refusal_limit, IsRefusalNumber, IsForCause};
ghost use Rattle.tree.specs.Causes.{has_number, has_code};

use crate::Memory;
use std::alloc::{AllocError, AllocFailed};

/// The cause's number, its line (from 1; 0 where no line is at fault), and the number of its word (0 for none).
#[derive(Clone, Copy, Debug, PartialEq, Eq)]
pub struct Refusal {
    pub number: u8,
    pub line: u32,
    pub word: u8,
}

/// Why a source is refused. The causes that have a namesake in FORTRAN 77 end on 90 in Fortran 90.
#[derive(Clone, Copy, Debug, PartialEq, Eq)]
pub enum Cause {
    /// A limit of bytes is passed.
    TooLong,
    /// A byte that is neither printable nor a tab.
    BadByte,
    Tab,
    /// A card that is neither an initial nor a continuation line.
    LineForm,
    /// A twentieth continuation line.
    ManyLines,
    Syntax,
    /// A statement that the profile leaves out, with the number of the word or form that begins it.
    OutOfProfile(u8),
    WideLiteral,
    /// An expression that is too deep.
    Deep,
    /// A label that isn't from 1 to 99999, stands twice, or is named and stands nowhere.
    Label,
    /// Blocks or loops that cross, or statements out of order.
    Nesting,
    /// END is missing, or isn't the last statement.
    NoEnd,
    /// A name that is declared wrongly, or doesn't suit its declaration.
    Declared,
    /// A variable that would be REAL.
    RealName,
    /// A kind that doesn't suit.
    TypeClash,
    /// A GO TO that leads backwards, or into a block or loop.
    Jump,
    /// A DO variable that is wrong, or is set in its loop.
    DoVariable,
    ManyNames,
    ManyBlocks,
    /// An upper bound below its lower bound.
    ReversedBounds,
    ManyElements,
    /// A symbolic constant or a bound that faults, or leaves the range of INTEGER.
    BadConstant,
    /// A name without type beside IMPLICIT NONE.
    Untyped,
    BadByte90,
    LongLine,
    /// The text ends while a statement is continued.
    Continuation,
    Syntax90,
    WideLiteral90,
    Deep90,
    /// Blocks, labels, jumps or DO variables that are wrong.
    Structure,
    Declared90,
    TypeClash90,
    Limit90,
}

// The causes of refusal, one row a cause: its number, its word, its name and the name of its limit.
macro_rules! cause_table {
    ($column:ident $($input:tt)*) => {
        cause_table! { @$column ($($input)*)
            TooLong 1 0 "TooLong" "";
            BadByte 2 0 "BadByte" "";
            Tab 3 0 "Tab" "";
            LineForm 4 0 "LineForm" "";
            ManyLines 5 0 "ManyLines" "";
            Syntax 6 0 "Syntax" "";
            OutOfProfile(word) 7 word "OutOfProfile" "";
            WideLiteral 8 0 "WideLiteral" "";
            Deep 9 0 "Deep" "";
            Label 10 0 "Label" "";
            Nesting 11 0 "Nesting" "";
            NoEnd 12 0 "NoEnd" "";
            Declared 13 0 "Declared" "";
            RealName 14 0 "RealName" "";
            TypeClash 15 0 "TypeClash" "";
            Jump 16 0 "Jump" "";
            DoVariable 17 0 "DoVariable" "";
            ManyNames 18 41 "Limit" "NAMES";
            ManyBlocks 18 42 "Limit" "BLOCKS";
            ReversedBounds 18 43 "Limit" "BOUNDS";
            ManyElements 18 44 "Limit" "ARRAYS";
            BadConstant 18 45 "Limit" "CONSTANT";
            Untyped 19 0 "Untyped" "";
            BadByte90 31 0 "BadByte" "";
            LongLine 32 0 "LongLine" "";
            Continuation 33 0 "Continuation" "";
            Syntax90 34 0 "Syntax" "";
            WideLiteral90 35 0 "WideLiteral" "";
            Deep90 36 0 "Deep" "";
            Structure 37 0 "Structure" "";
            Declared90 38 0 "Declared" "";
            TypeClash90 39 0 "TypeClash" "";
            Limit90 40 0 "Limit" "";
        }
    };
    (@number ($cause:tt) $($variant:ident $(($w:ident))? $number:literal $word:tt $name:literal $limit:literal;)*) => {
        match $cause {
            $(Cause::$variant $((cause_table!(@any $w)))? => $number,)*
        }
    };
    (@word ($cause:tt) $($variant:ident $(($w:ident))? $number:literal $word:tt $name:literal $limit:literal;)*) => {
        match $cause {
            $(Cause::$variant $(($w))? => $word,)*
        }
    };
    (@name ($cause:tt) $($variant:ident $(($w:ident))? $number:literal $word:tt $name:literal $limit:literal;)*) => {
        match $cause {
            $(Cause::$variant $((cause_table!(@any $w)))? => $name,)*
        }
    };
    (@limit ($cause:tt) $($variant:ident $(($w:ident))? $number:literal $word:tt $name:literal $limit:literal;)*) => {
        match $cause {
            $(Cause::$variant $((cause_table!(@any $w)))? => $limit,)*
        }
    };
    (@all () $($variant:ident $(($w:ident))? $number:literal $word:tt $name:literal $limit:literal;)*) => {
        [$(Cause::$variant $((cause_table!(@none $w)))?),*]
    };
    (@any $w:ident) => {
        _
    };
    (@none $w:ident) => {
        0
    };
}

// Of the words that the profile leaves out none.
const CAUSES: [Cause; 33] = cause_table!(all);

impl Cause {
    /// The number of the refusal.
    pub fn number(self) -> u8
        ensures number { result ≡ number_of_cause self }
        ensures within { IsRefusalNumber result }
    {
        cause_table!(number self)
    }

    /// The number of what is left out of the profile, or of the limit that is passed; 0 for none.
    pub fn word(self) -> u8
        ensures { result ≡ word_of_cause self }
    {
        cause_table!(word self)
    }

    /// The name of the refusal.
    pub fn name(self) -> &'static str
        ensures name { result.now ≡ name_of_cause self }
        ensures short { length result.now ≤ 12 }
    {
        cause_table!(name self)
    }

    /// The name of the limit that is passed; empty where it is none.
    pub fn limit(self) -> &'static str
        ensures name { result.now ≡ limit_of_cause self }
        ensures short { length result.now ≤ 8 }
    {
        cause_table!(limit self)
    }

    /// The refusal of a source for the cause, at this line, or at 0 where no line is at fault.
    #[tactic(auto, using(crate::proofs::CauseLaws::causes))]
    pub fn at(self, line: u32) -> Refusal
        ensures refusal { result ≡ refusal_at self line }
        ensures number { IsRefusalNumber result.number }
        ensures alone { (other : Cause) → IsForCause result other → other ≡ self }
    {
        Refusal {
            number: self.number(),
            line,
            word: self.word(),
        }
    }
}

fn with_number(number: u8) -> Option<Cause>
    ensures { result ≡ find (has_number number) all_causes }
{
    CAUSES
        .iter()
        .copied()
        .find(|cause| cause.number() == number)
}

fn with_code(number: u8, word: u8) -> Option<Cause>
    ensures { result ≡ find (has_code number word) all_causes }
{
    CAUSES
        .iter()
        .copied()
        .find(|cause| cause.number() == number && cause.word() == word)
}

impl Refusal {
    /// The name of the refusal; empty where no cause has its number.
    pub fn name(self) -> &'static str
        ensures name { result.now ≡ refusal_name self.number }
        ensures short { length result.now ≤ 12 }
    {
        match with_number(self.number) {
            Some(cause) => cause.name(),
            None => "",
        }
    }

    /// The name of the limit that is passed; empty where it is none.
    pub fn limit(self) -> &'static str
        ensures name { result.now ≡ refusal_limit self.number self.word }
        ensures short { length result.now ≤ 8 }
    {
        match with_code(self.number, self.word) {
            Some(cause) => cause.limit(),
            None => "",
        }
    }
}

#[derive(Clone, Copy, Debug, PartialEq, Eq)]
pub enum Refused {
    Refusal(Refusal),
    Memory,
}

impl From<Refusal> for Refused {
    ghost use Rattle.std.specs.Prelude.{◌≡◌};
    ghost use Rattle.tree.specs.declared.refusals.Refused.TheVariants as Refused;

    ghost from_gives = { λ refusal refused. refused ≡ Refused.Refusal refusal };

    fn from(refusal: Refusal) -> Refused {
        Refused::Refusal(refusal)
    }
}

impl From<Memory> for Refused {
    ghost use Rattle.std.specs.Prelude.{◌≡◌};
    ghost use Rattle.tree.specs.declared.refusals.Refused.TheVariants as Refused;

    ghost from_gives = { λ _ refused. refused ≡ Refused.Memory };

    fn from(_: Memory) -> Refused {
        Refused::Memory
    }
}

impl From<AllocError> for Refused {
    ghost use Rattle.std.specs.Prelude.{◌≡◌};
    ghost use Rattle.tree.specs.declared.refusals.Refused.TheVariants as Refused;

    ghost from_gives = { λ _ refused. refused ≡ Refused.Memory };

    fn from(_: AllocError) -> Refused {
        Refused::Memory
    }
}

impl<T: Drop> From<AllocFailed<T>> for Refused {
    ghost use Rattle.std.specs.Prelude.{◌≡◌};
    ghost use Rattle.tree.specs.declared.refusals.Refused.TheVariants as Refused;

    ghost from_gives = { λ _ refused. refused ≡ Refused.Memory };

    fn from(_: AllocFailed<T>) -> Refused {
        Refused::Memory
    }
}
