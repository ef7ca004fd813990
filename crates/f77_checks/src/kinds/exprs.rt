//! The kinds of expressions.
ghost use Rattle.std.specs.Prelude.{◌≡◌, ◌&&◌, map};
ghost use Rattle.tree.specs.Plain.{subscripts, expressions};
ghost use Rattle.tree.specs.View.{expression_of, subscript_of};
ghost use Rattle.tree.specs.declared.exprs.Expr.TheVariants as exprs;
ghost use Rattle.tree.specs.Functions.{function_named};
ghost use Rattle.f77_grammar.specs.program.Uses as plain;
ghost use Rattle.f77_grammar.specs.program.Kinds as kinds;
ghost use Rattle.f77_checks.specs.kinds.KnownUses.{known_uses};

use crate::kinds::kind_check::KindCheck;
use crate::kinds::operators::{binary_gives, call_gives, same_kind, takes_so_many, unary_gives};
use tree::{Expr, Kind, Name, Ref, Seq, Sub};

impl KindCheck<'_> {
    // An element of an array of this kind.
    fn is_element(&self, name: Name, kind: Kind) -> bool
        ensures { result ≡ (plain.is_array_name (known_uses self.now) name
            && kinds.same_kind (plain.kind_of_name (known_uses self.now) name) kind) }
    {
        self.is_array(name) && same_kind(self.kind(name), kind)
    }

    // A call with so many arguments: it is INTEGER.
    #[tactic(auto, using(crate::proofs::kinds::NameLaws::name_laws))]
    fn is_call(&self, name: Name, count: usize, kind: Kind) -> bool
        ensures { result ≡ (plain.is_function (known_uses self.now) name
            && kinds.takes_so_many (function_named name) count && kinds.same_kind Kind.Integer kind) }
    {
        takes_so_many(self.function(name), count) && same_kind(Kind::Integer, kind)
    }

    // A name with so many subscripts or arguments in parentheses; 0: it stands alone, and is no whole array.
    #[tactic(auto, using(crate::proofs::kinds::NameLaws::name_laws))]
    fn name_has_kind(&self, name: Name, count: usize, kind: Kind) -> bool
        ensures { result ≡ kinds.name_has_kind (known_uses self.now) name count kind }
    {
        if count == 0 {
            return !self.is_array(name) && same_kind(self.kind(name), kind);
        }
        self.is_element(name, kind) || self.is_call(name, count, kind)
    }

    /// Whether the expression has the kind, and all in it suits.
    #[cycle(kinds)]
    #[tactic(auto, using(crate::proofs::kinds::KindLaws::kind_laws))]
    pub fn has_kind(&self, expr: &Expr, kind: Kind) -> bool
        ensures { result ≡ kinds.has_kind (known_uses self.now) (expression_of expr.now) kind }
    {
        match expr {
            Expr::Int(_) => same_kind(Kind::Integer, kind),
            Expr::Truth(_) => same_kind(Kind::Logical, kind),
            Expr::Item(item) => self.item_has_kind(item, kind),
            Expr::Un(op, a) => unary_gives(*op, kind) && self.has_kind(a, op.operand_kind()),
            Expr::Bin(op, a, b) => {
                binary_gives(*op, kind)
                    && self.has_kind(a, op.operand_kind())
                    && self.has_kind(b, op.operand_kind())
            }
            Expr::Call(function, arguments) => {
                call_gives(*function, arguments.len(), kind) && self.are_arguments(arguments)
            }
            Expr::List(..) => false,
            Expr::Spread(..) => false,
            Expr::Transpose(_) => false,
            Expr::Reshape(..) => false,
            Expr::Reduce(..) => false,
        }
    }

    // A scalar, a symbolic constant, an element or a call.
    #[cycle(kinds)]
    #[tactic(auto, using(crate::proofs::kinds::KindLaws::kind_laws))]
    fn item_has_kind(&self, item: &Ref, kind: Kind) -> bool
        ensures { result ≡ kinds.has_kind (known_uses self.now) (expression_of (exprs.Item item.now)) kind }
    {
        self.name_has_kind(item.name, item.subs.len(), kind) && self.are_subscripts(&item.subs)
    }

    // The arguments are INTEGER values.
    #[cycle(kinds)]
    fn are_arguments(&self, arguments: &Seq<Expr>) -> bool
        ensures { result ≡ kinds.are_arguments (known_uses self.now) (expressions (map expression_of arguments.now)) }
    {
        for argument in arguments.as_slice() {
            if !self.has_kind(argument, Kind::Integer) {
                return false;
            }
        }
        true
    }

    #[cycle(kinds)]
    #[tactic(auto, using(crate::proofs::kinds::KindLaws::kind_laws))]
    fn is_subscript(&self, sub: &Sub) -> bool
        ensures { result ≡ kinds.is_subscript (known_uses self.now) (subscript_of sub.now) }
    {
        match sub {
            Sub::One(expr) => self.has_kind(expr, Kind::Integer),
            Sub::Part(..) => false,
        }
    }

    /// Whether the subscripts are INTEGER values.
    #[cycle(kinds)]
    pub fn are_subscripts(&self, subs: &Seq<Sub>) -> bool
        ensures { result ≡ kinds.are_subscripts (known_uses self.now) (subscripts (map subscript_of subs.now)) }
    {
        for sub in subs.as_slice() {
            if !self.is_subscript(sub) {
                return false;
            }
        }
        true
    }
}
