//! Operands, and what is open round them while an expression is read.
ghost use Rattle.std.specs.Prelude.{◌≡◌, ◌≤◌, ◌++◌, ◌∷◌, [], IfOk, IsTrue, max};
ghost use Rattle.tree.specs.View.{expression_of, subscript_of};
ghost use Rattle.tree.specs.Plain.{Only};
ghost use Rattle.tree.specs.OperatorTable.{may_follow};
ghost use Rattle.f77_expressions.specs.Reader.{deeper, signed_operand, joined_operand, paren_operand, listed_operand};
ghost use Rattle.f77_expressions.specs.Reader.{primary, frame_least};
ghost use Rattle.f77_expressions.specs.Reader as reader;
ghost use Rattle.reading.specs.Signs.{sign_view};
ghost use Rattle.f77_expressions.specs.Views.{operand_of, frame_of, subscripts_of};
ghost use Rattle.std.specs.Prelude.{map};

use reading::Sign;
use std::alloc::{AllocError, Global};
use tree::{EXPRESSION_DEPTH_77, Expr, Memory, Name, Op, Ref, Seq, Sub, both};

// Whether an operand may stand behind the operator, by whether it begins with such a sign.
fn may_follow(op: Op, begins_with_sign: bool) -> bool
    ensures { result ≡ may_follow op begins_with_sign }
{
    if begins_with_sign {
        op.takes_sign()
    } else {
        true
    }
}

// A depth is counted up to here: it is too deep.
const DEPTH_COUNTED: u16 = EXPRESSION_DEPTH_77 + 1;

/// One more, as a depth is counted: up to the first that is too deep.
pub fn deepened(depth: u16) -> u16
    ensures { result ≡ deeper depth }
{
    depth.saturating_add(1).min(DEPTH_COUNTED)
}

/// An operand: its level, its depth, which is counted up to the first that is too deep, and its tree. It is `placed`
/// where each plus or minus sign in it stands where one may.
#[derive(Drop)]
pub struct Operand {
    pub level: u8,
    pub depth: u16,
    pub begins_with_sign: bool,
    pub placed: bool,
    pub tree: Expr,
}

#[tactic(auto, using(tree::proofs::Equations::expression_equations, crate::proofs::Trees::names))]
impl Operand {
    pub(crate) fn primary(tree: Expr) -> Operand
        ensures { operand_of result ≡ primary (expression_of tree) }
    {
        Operand {
            level: 10,
            depth: 0,
            begins_with_sign: false,
            placed: true,
            tree,
        }
    }

    pub(crate) fn signed(self, alloc: Global, sign: Sign) -> Result<Operand, Memory>
        ensures { IfOk result (λ operand. operand_of operand ≡ signed_operand (sign_view sign) (operand_of self)) }
    {
        let placed = self.placed && may_follow(sign.operator(), self.begins_with_sign);
        let Operand { depth, tree, .. } = self;
        let (depth, tree) = match sign {
            Sign::Plus => (depth, tree),
            Sign::Minus => (deepened(depth), Expr::Un(Op::Neg, Box::new(alloc, tree)?)),
            Sign::Negation => (deepened(depth), Expr::Un(Op::Not, Box::new(alloc, tree)?)),
        };
        Ok(Operand {
            level: sign.level(),
            depth,
            begins_with_sign: sign.leads(),
            placed,
            tree,
        })
    }

    pub(crate) fn joined(
        alloc: Global,
        op: Op,
        left: Operand,
        right: Operand,
    ) -> Result<Operand, Memory>
        ensures { IfOk result (λ operand. operand_of operand ≡ joined_operand op (operand_of left) (operand_of right)) }
    {
        let depth = deepened(left.depth.max(right.depth));
        let begins_with_sign = !op.is_relation() && left.begins_with_sign;
        let placed = left.placed && right.placed && may_follow(op, right.begins_with_sign);
        let (left, right) = both(Box::new(alloc, left.tree), Box::new(alloc, right.tree))?;
        Ok(Operand {
            level: op.level(),
            depth,
            begins_with_sign,
            placed,
            tree: Expr::Bin(op, left, right),
        })
    }

    pub(crate) fn in_parentheses(self) -> Operand
        ensures { operand_of result ≡ paren_operand (operand_of self) }
    {
        Operand {
            level: 10,
            depth: deepened(self.depth),
            begins_with_sign: false,
            placed: self.placed,
            tree: self.tree,
        }
    }

    pub(crate) fn listed(name: Name, subs: Seq<Sub>, depth: u16, placed: bool) -> Operand
        ensures { operand_of result ≡ listed_operand name (subscripts_of subs) depth placed }
    {
        Operand {
            level: 10,
            depth: deepened(depth),
            begins_with_sign: false,
            placed,
            tree: Expr::Item(Ref { name, subs }),
        }
    }
}

/// What is open: a sign, an operator with its left operand, a parenthesis, or a name with its list so far, the depth
/// of that list and whether the signs in it stand where they may.
#[derive(Drop)]
pub(crate) enum Frame {
    Before(Sign),
    After(Op, Operand),
    Within,
    Among(Name, Seq<Sub>, u16, bool),
}

impl Frame {
    /// The least level of an operand there.
    pub(crate) fn least(&self) -> u8
        ensures { result ≡ frame_least (frame_of self.now) }
    {
        match self {
            Frame::Before(sign) => sign.level() + 1,
            Frame::After(op, _) => op.right_least(),
            Frame::Within => 0,
            Frame::Among(_, _, _, _) => 0,
        }
    }

    /// What an operand becomes with the sign or the operator.
    pub(crate) fn applied(self, alloc: Global, operand: Operand) -> Result<Operand, Memory>
        ensures { IfOk result (λ made. operand_of made ≡ reader.into (frame_of self) (operand_of operand)) }
    {
        match self {
            Frame::Before(sign) => operand.signed(alloc, sign),
            Frame::After(op, left) => Operand::joined(alloc, op, left, operand),
            Frame::Within => Ok(operand),
            Frame::Among(_, _, _, _) => Ok(operand),
        }
    }
}
