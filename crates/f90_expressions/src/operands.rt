//! Operands, and what is open round them while an expression is read.
ghost use Rattle.std.specs.Prelude.{◌≡◌, ◌&&◌, max, true};
ghost use Rattle.tree.specs.OperatorTable.{may_follow};
ghost use Rattle.f90_expressions.specs.Machine.{deeper, primary, signed, joined, enclosed, frame_least, into};
ghost use Rattle.f90_expressions.specs.Views.{info_seen, frame_seen, emitted_option};
ghost use Rattle.reading.specs.Signs.{sign_view};

use crate::nodes::Node;
use reading::Sign;
use tree::{EXPRESSION_DEPTH_90, Name, Op};

// Whether an operand may stand behind the operator, by whether it begins with such a sign.
fn may_follow(op: Op, leads: bool) -> bool
    ensures { result ≡ may_follow op leads }
{
    if leads { op.takes_sign() } else { true }
}

// A depth is counted up to here: it is too deep.
const DEPTH_COUNTED: u16 = EXPRESSION_DEPTH_90 + 1;

/// One more, as a depth is counted: up to the first that is too deep.
fn deepened(depth: u16) -> u16
    ensures { result ≡ deeper depth }
{
    depth.saturating_add(1).min(DEPTH_COUNTED)
}

/// What is known of an operand: its level, and its depth, which is counted up to the first that is too deep.
#[derive(Drop)]
pub(crate) struct Operand {
    pub level: u8,
    pub depth: u16,
    /// It begins with a plus or minus sign.
    pub leads: bool,
    /// Each plus or minus sign in it stands where one may.
    pub placed: bool,
}

impl Operand {
    pub(crate) fn primary() -> Operand
        ensures { info_seen result ≡ primary }
    {
        Operand {
            level: 10,
            depth: 0,
            leads: false,
            placed: true,
        }
    }

    fn signed(self, sign: Sign) -> Operand
        ensures { info_seen result ≡ signed (sign_view sign) (info_seen self) }
    {
        let depth = match sign {
            Sign::Plus => self.depth,
            Sign::Minus | Sign::Negation => deepened(self.depth),
        };
        Operand {
            level: sign.level(),
            depth,
            leads: sign.leads(),
            placed: self.placed && may_follow(sign.operator(), self.leads),
        }
    }

    fn joined(op: Op, left: Operand, right: Operand) -> Operand
        ensures { info_seen result ≡ joined op (info_seen left) (info_seen right) }
    {
        Operand {
            level: op.level(),
            depth: deepened(left.depth.max(right.depth)),
            leads: !op.is_relation() && left.leads,
            placed: left.placed && right.placed && may_follow(op, right.leads),
        }
    }
}

/// The parts of a list so far: their depth, and whether each sign in them stands where one may.
#[derive(Clone, Copy, Debug)]
pub(crate) struct Parts {
    pub depth: u16,
    pub placed: bool,
}

impl Parts {
    pub(crate) fn none() -> Parts
        ensures depth { result.depth ≡ 0 }
        ensures placed { result.placed ≡ true }
    {
        Parts {
            depth: 0,
            placed: true,
        }
    }

    pub(crate) fn of(operand: Operand) -> Parts
        ensures depth { result.depth ≡ operand.depth }
        ensures placed { result.placed ≡ operand.placed }
    {
        Parts {
            depth: operand.depth,
            placed: operand.placed,
        }
    }

    /// With one more part.
    pub(crate) fn and(self, operand: Operand) -> Parts
        ensures depth { result.depth ≡ max self.depth operand.depth }
        ensures placed { result.placed ≡ (self.placed && operand.placed) }
    {
        Parts {
            depth: self.depth.max(operand.depth),
            placed: self.placed && operand.placed,
        }
    }

    /// In parentheses, or as those of a turn.
    pub(crate) fn deepened(self) -> Parts
        ensures depth { result.depth ≡ deeper self.depth }
        ensures placed { result.placed ≡ self.placed }
    {
        Parts {
            depth: deepened(self.depth),
            placed: self.placed,
        }
    }

    /// The operand that they are in parentheses.
    pub(crate) fn enclosed(self) -> Operand
        ensures { info_seen result ≡ enclosed self.depth self.placed }
    {
        Operand {
            level: 10,
            depth: deepened(self.depth),
            leads: false,
            placed: self.placed,
        }
    }
}

/// What is open: a sign, an operator behind its left operand, a parenthesis; a name with its parts so far, also behind
/// one colon and behind two; the values of a constructor, of which there are some or none so far; a turn at its first
/// and at its second bound, which is round another turn or isn't.
#[derive(Drop)]
pub(crate) enum Frame {
    Before(Sign),
    After(Op, Operand),
    Within,
    Among(Name, Parts),
    From(Name, Parts),
    By(Name, Parts),
    Items(bool, Parts),
    First(bool, Name, Parts),
    Last(bool, Name, Parts),
}

impl Frame {
    /// The least level of an operand there.
    pub(crate) fn least(&self) -> u8
        ensures { result ≡ frame_least (frame_seen self.now) }
    {
        match self {
            Frame::Before(sign) => sign.level() + 1,
            Frame::After(op, _) => op.right_least(),
            Frame::Within => 0,
            Frame::Among(_, _) => 0,
            Frame::From(_, _) => 0,
            Frame::By(_, _) => 0,
            Frame::Items(_, _) => 0,
            Frame::First(_, _, _) => 0,
            Frame::Last(_, _, _) => 0,
        }
    }

    /// What an operand becomes with the sign or the operator.
    pub(crate) fn into(self, operand: Operand) -> Operand
        ensures { info_seen result ≡ into (frame_seen self) (info_seen operand) }
    {
        match self {
            Frame::Before(sign) => operand.signed(sign),
            Frame::After(op, left) => Operand::joined(op, left, operand),
            Frame::Within => operand,
            Frame::Among(_, _) => operand,
            Frame::From(_, _) => operand,
            Frame::By(_, _) => operand,
            Frame::Items(_, _) => operand,
            Frame::First(_, _, _) => operand,
            Frame::Last(_, _, _) => operand,
        }
    }

    /// The sign or the operator.
    pub(crate) fn node(&self) -> Option<Node>
        ensures { emitted_option result (frame_seen self.now) }
    {
        match self {
            Frame::Before(sign) => Some(Node::Prefix(*sign)),
            Frame::After(op, _) => Some(Node::Infix(*op)),
            Frame::Within => None,
            Frame::Among(_, _) => None,
            Frame::From(_, _) => None,
            Frame::By(_, _) => None,
            Frame::Items(_, _) => None,
            Frame::First(_, _, _) => None,
            Frame::Last(_, _, _) => None,
        }
    }
}
