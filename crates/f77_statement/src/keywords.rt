//! Keywords at the front of statements.
ghost use Rattle.std.specs.Prelude.{◌≡◌};
ghost use Rattle.f77_expressions.specs.Symbols.{symbols_of};
ghost use Rattle.f77_statement.specs.Keywords.{keyword_at, first_of, first_keywords, last_keywords};
ghost use Rattle.f77_statement.specs.KeywordFronts.{KeywordOption};

use f77_expressions::{Symbol, strip};

/// A keyword, with the parenthesis or the asterisk that always follows it: that of `ReadUnit` is READ(*,*), of
/// `ReadList` READ*, of `WriteUnit`
/// WRITE(*,*) and of `PrintList` PRINT*.
#[derive(Clone, Copy, Debug, PartialEq, Eq)]
pub(crate) enum Keyword {
    Program,
    ImplicitNone,
    Integer,
    Logical,
    Dimension,
    Parameter,
    GoTo,
    ElseIf,
    Else,
    EndIf,
    EndDo,
    Continue,
    Stop,
    End,
    ReadUnit,
    ReadList,
    WriteUnit,
    PrintList,
}

// The first of the keywords with which the text begins.
macro_rules! first_keyword {
    ($text:expr; $($spelling:literal => $keyword:ident,)*) => {{
        $(
            if let Some(rest) = strip($spelling, $text) {
                return Some((Keyword::$keyword, rest));
            }
        )*
        None
    }};
}

impl Keyword {
    fn first_at(text: &[Symbol]) -> Option<(Keyword, &[Symbol])>
        ensures { KeywordOption result (first_of first_keywords (symbols_of text.now)) }
    {
        first_keyword!(text;
            b"PROGRAM" => Program,
            b"IMPLICITNONE" => ImplicitNone,
            b"INTEGER" => Integer,
            b"LOGICAL" => Logical,
            b"DIMENSION" => Dimension,
            b"PARAMETER" => Parameter,
            b"GOTO" => GoTo,
            b"ELSEIF(" => ElseIf,
            b"ELSE" => Else,
        )
    }

    fn last_at(text: &[Symbol]) -> Option<(Keyword, &[Symbol])>
        ensures { KeywordOption result (first_of last_keywords (symbols_of text.now)) }
    {
        first_keyword!(text;
            b"ENDIF" => EndIf,
            b"ENDDO" => EndDo,
            b"END" => End,
            b"CONTINUE" => Continue,
            b"STOP" => Stop,
            b"READ(*,*)" => ReadUnit,
            b"READ*" => ReadList,
            b"WRITE(*,*)" => WriteUnit,
            b"PRINT*" => PrintList,
        )
    }

    /// The keyword at the front of the text, and what follows it.
    pub(crate) fn at(text: &[Symbol]) -> Option<(Keyword, &[Symbol])>
        ensures { KeywordOption result (keyword_at (symbols_of text.now)) }
    {
        match Keyword::first_at(text) {
            Some(front) => Some(front),
            None => Keyword::last_at(text),
        }
    }
}
