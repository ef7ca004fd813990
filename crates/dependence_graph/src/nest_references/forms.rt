//! The linear forms of subscripts.
ghost use Rattle.std.specs.Prelude.{◌≡◌, ◌≤◌, ◌^◌, All, IfOk, length};
ghost use Rattle.tree.specs.View.{reference_of, subscript_of};
ghost use Rattle.dependence_graph.specs.nest_references.Occurrences.{AreFormsIn, HasSevenLoops, IsFormIn};

use linear_forms::linear;
use std::alloc::Global;
use subscripts::Affine;
use tree::{Memory, Name, Ref, Seq, Sub};

// The same form, which has seven places.
fn with_seven(form: Option<Affine>) -> Option<Affine>
    ensures same { result ≡ form }
    ensures seven { HasSevenLoops result }
{
    match form {
        Some(form) => {
            // read so that the number of places is known
            let _first = form.loops[0];
            Some(form)
        }
        None => None,
    }
}

#[tactic(auto, using(tree::proofs::Equations::expression_equations))]
fn plain_form(sub: &Sub, loops: &[Name], symbols: &Seq<Name>) -> Option<Affine>
    requires { length symbols.now ≤ 2 ^ 16 }
    ensures { IsFormIn loops.now symbols.now (subscript_of sub.now) result }
{
    match sub {
        Sub::One(expr) => linear(expr, loops, symbols),
        Sub::Part(..) => None,
    }
}

fn form_of(sub: &Sub, loops: &[Name], symbols: &Seq<Name>) -> Option<Affine>
    requires { length symbols.now ≤ 2 ^ 16 }
    ensures form { IsFormIn loops.now symbols.now (subscript_of sub.now) result }
    ensures seven { HasSevenLoops result }
{
    with_seven(plain_form(sub, loops, symbols))
}

/// The forms of the subscripts of a reference over the variables of loops, from the outside in, and symbols; None for
/// one that isn't linear.
pub fn forms_of(
    alloc: Global,
    item: &Ref,
    loops: &[Name],
    symbols: &Seq<Name>,
) -> Result<Seq<Option<Affine>>, Memory>
    requires { length symbols.now ≤ 2 ^ 16 }
    ensures forms { IfOk result (λ forms. AreFormsIn loops.now symbols.now (reference_of item.now).subscripts forms) }
    ensures seven { IfOk result (λ forms. All HasSevenLoops forms) }
{
    let mut forms = Seq::new(alloc);
    for sub in item.subs.as_slice() {
        forms.push(form_of(sub, loops, symbols))?;
    }
    Ok(forms)
}
