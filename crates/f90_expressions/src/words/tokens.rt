//! The words of statements.
use tree::{Name, Op, Seq};

/// A word. `Digits` has the digits of a literal or label, `Head` is a name with the parenthesis behind it, and
/// `Constant` a character constant. A minus sign is the operator Sub, wherever it stands.
#[derive(Drop)]
pub enum Token {
    Digits(Seq<u8>),
    Truth(bool),
    Name(Name),
    Head(Name),
    Operator(Op),
    Open,
    Close,
    /// `(/`
    OpenList,
    /// `/)`
    CloseList,
    Comma,
    Equals,
    Colon,
    /// `::`
    Colons,
    Constant(Seq<u8>),
}
