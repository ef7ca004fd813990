//! The words of expressions and lists.
use tree::{Name, Op, Seq};

/// A word. `Wide` is a literal above 2^127-1, `Head` a name with the parenthesis directly behind it, and
/// `Constant` a character constant. A minus sign is the operator Sub, wherever it stands.
#[derive(Drop)]
pub enum Token {
    Number(i128),
    Wide,
    Truth(bool),
    Name(Name),
    Head(Name),
    Operator(Op),
    Open,
    Close,
    Comma,
    Equals,
    Colon,
    Constant(Seq<u8>),
}

impl Token {
    ghost use Rattle.std.specs.Prelude.{◌≡◌};
    ghost use Rattle.f77_grammar.specs.expressions.Words.{is_wide_word};
    ghost use Rattle.f77_expressions.specs.Tokens.{word_of};

    pub fn is_wide(&self) -> bool
        ensures { result ≡ is_wide_word (word_of self.now) }
    {
        match self {
            Token::Wide => true,
            _ => false,
        }
    }
}
