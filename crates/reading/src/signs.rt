//! What may stand before an operand (ANSI X3.9-1978, sections 6.1 and 6.4; ISO/IEC 1539:1991, section 7.1.1).
ghost use Rattle.std.specs.Prelude.{◌≡◌};
ghost use Rattle.tree.specs.OperatorTable.{sign_level};
ghost use Rattle.reading.specs.Signs.{sign_leads, sign_of, sign_view, sign_view_option, sign_word};

use tree::Op;

/// What may stand before an operand.
#[derive(Clone, Copy, Debug, PartialEq, Eq)]
pub enum Sign {
    Plus,
    Minus,
    Negation,
}

impl Sign {
    /// The sign that a word is, if it is one: a minus sign is the operator Sub, wherever it stands.
    pub fn of(op: Op) -> Option<Sign>
        ensures { sign_view_option result ≡ sign_of op }
    {
        match op {
            Op::Add => Some(Sign::Plus),
            Op::Sub => Some(Sign::Minus),
            Op::Not => Some(Sign::Negation),
            _ => None,
        }
    }

    /// The word that it is.
    pub fn operator(self) -> Op
        ensures { result ≡ sign_word (sign_view self) }
    {
        match self {
            Sign::Plus => Op::Add,
            Sign::Minus => Op::Sub,
            Sign::Negation => Op::Not,
        }
    }

    /// Whether an operand that it stands before begins with a plus or minus sign.
    pub fn leads(self) -> bool
        ensures { result ≡ sign_leads (sign_view self) }
    {
        match self {
            Sign::Plus | Sign::Minus => true,
            Sign::Negation => false,
        }
    }

    /// How tightly it binds.
    pub fn level(self) -> u8
        ensures { result ≡ sign_level (sign_view self) }
    {
        self.operator().level()
    }
}
