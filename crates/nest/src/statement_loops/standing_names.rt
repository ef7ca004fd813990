//! Whether a name stands in a text.
ghost use Rattle.std.specs.Prelude.{◌≡◌, ◌∷◌, map};
ghost use Rattle.std.specs.List.{list_any};
ghost use Rattle.meaning.specs.Reads.{names_in, names_in_subscript, names_in_subscripts};
ghost use Rattle.tree.specs.View.{expression_of, loop_of, reference_of, subscript_of};
ghost use Rattle.nest.specs.statement_loops.Standings.{names_in_loop};
ghost use Rattle.nest.specs.statement_loops.Names.{is_among};

use tree::{Expr, Name, Ref, Seq, Sub, Turn};

/// Whether the name stands in the expression.
#[cycle(stands)]
#[tactic(auto, using(crate::proofs::statement_loops::AmongLaws::among_laws))]
pub fn stands_in(expr: &Expr, name: Name) -> bool
    ensures { result ≡ is_among (names_in (expression_of expr.now)) name }
{
    match expr {
        Expr::Int(_) => false,
        Expr::Truth(_) => false,
        Expr::Item(item) => stands_in_ref(item, name),
        Expr::Un(_, a) => stands_in(a, name),
        Expr::Bin(_, a, b) => stands_in(a, name) || stands_in(b, name),
        Expr::Call(_, arguments) => stands_in_one(arguments, name),
        Expr::List(values, turns) => stands_in_one(values, name) || stands_in_turns(turns, name),
        Expr::Spread(array, _, extent) => stands_in(array, name) || stands_in(extent, name),
        Expr::Transpose(array) => stands_in(array, name),
        Expr::Reshape(array, extents) => stands_in(array, name) || stands_in_one(extents, name),
        Expr::Reduce(_, array) => stands_in(array, name),
    }
}

#[cycle(stands)]
#[tactic(auto, using(crate::proofs::statement_loops::AmongLaws::among_laws))]
fn stands_in_ref(item: &Ref, name: Name) -> bool
    ensures { result
        ≡ is_among ((reference_of item.now).name ∷ names_in_subscripts (reference_of item.now).subscripts) name }
{
    item.name == name || stands_in_subs(&item.subs, name)
}

#[cycle(stands)]
fn stands_in_one(exprs: &Seq<Expr>, name: Name) -> bool
    ensures { result ≡ list_any (λ e. is_among (names_in e) name) (map expression_of exprs.now) }
{
    for expr in exprs.as_slice() {
        if stands_in(expr, name) {
            return true;
        }
    }
    false
}

#[cycle(stands)]
fn stands_in_turns(turns: &Seq<Turn>, name: Name) -> bool
    ensures { result ≡ list_any (λ l. is_among (names_in_loop l) name) (map loop_of turns.now) }
{
    for turn in turns.as_slice() {
        if stands_in_turn(turn, name) {
            return true;
        }
    }
    false
}

#[cycle(stands)]
#[tactic(auto, using(crate::proofs::statement_loops::AmongLaws::among_laws))]
fn stands_in_turn(turn: &Turn, name: Name) -> bool
    ensures { result ≡ is_among (names_in_loop (loop_of turn.now)) name }
{
    turn.var == name || stands_in(&turn.first, name) || stands_in(&turn.last, name)
}

/// Whether the name stands in the subscript.
#[cycle(stands)]
#[tactic(auto, using(crate::proofs::statement_loops::AmongLaws::among_laws))]
pub fn stands_in_sub(sub: &Sub, name: Name) -> bool
    ensures { result ≡ is_among (names_in_subscript (subscript_of sub.now)) name }
{
    match sub {
        Sub::One(expr) => stands_in(expr, name),
        Sub::Part(lower, upper, stride) => {
            stands_in(lower, name) || stands_in(upper, name) || stands_in(stride, name)
        }
    }
}

#[cycle(stands)]
fn stands_in_subs(subs: &Seq<Sub>, name: Name) -> bool
    ensures { result ≡ list_any (λ p. is_among (names_in_subscript p) name) (map subscript_of subs.now) }
{
    for sub in subs.as_slice() {
        if stands_in_sub(sub, name) {
            return true;
        }
    }
    false
}
