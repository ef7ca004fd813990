//! Statements that read of the array that they write no element but the one that they write.
ghost use Rattle.std.specs.Prelude.{◌≡◌, ◌≤◌, ◌^◌, ℕ, Option, List, All, IfOk, length};
ghost use Rattle.std.specs.List.{list_all};
ghost use Rattle.tree.specs.Plain.{Subscripts};
ghost use Rattle.tree.specs.View.{reference_of};
ghost use Rattle.linear_forms.specs.Affines.{IsFound};
ghost use Rattle.linear_forms.specs.Linear.{Form};
ghost use Rattle.nest.specs.View.{nest_of};
ghost use Rattle.nest.specs.statement_loops.Standings.{standing_of};
ghost use Rattle.dependence_graph.specs.nest_graph.Ready.{IsReady, IsReadyStatement};
ghost use Rattle.dependence_graph.specs.nest_references.Occurrences.{AreFormsIn};
ghost use Rattle.interchange.specs.Reads.{all_zero, has_no_symbol, is_zero_affine, read_own_elements};
ghost use Rattle.interchange.specs.Reads.{reads_own_element, reads_what_is_written, same_form, same_forms};

use crate::chains::variables_of;
use dependence_graph::nest_references::{forms_of, references_of};
use linear_forms::combined;
use nest::Nest;
use nest::statement_loops::{Standing, statements_of};
use std::alloc::Global;
use subscripts::Affine;
use tree::{Memory, Name, Ref, Seq};

fn all_zero(times: &[i64]) -> bool
    ensures { result ≡ all_zero times.now }
{
    times.iter().all(|number| *number == 0)
}

fn no_symbol(terms: &[(u16, i64)]) -> bool
    ensures { result ≡ has_no_symbol terms.now }
{
    terms.iter().all(|term| term.1 == 0)
}

fn is_zero(form: &Affine) -> bool
    ensures { result ≡ is_zero_affine form.now }
{
    all_zero(&form.loops) && no_symbol(&form.syms) && form.constant == 0
}

// Whether both are linear, with the same form.
#[tactic(auto, using(crate::proofs::FormLaws::form_laws))]
fn same_form(one: Option<Affine>, other: Option<Affine>) -> bool
    ensures { (n : ℕ) (f g : Option Form) → n ≤ 7 → IsFound n f one → IsFound n g other → result ≡ same_form f g }
{
    let Some(one) = one else {
        return false;
    };
    let Some(other) = other else {
        return false;
    };
    match combined(&one, &other, -1) {
        Some(difference) => is_zero(&difference),
        None => false,
    }
}

#[tactic(auto, using(crate::proofs::ReadLaws::read_laws))]
fn same_forms(one: &[Option<Affine>], other: &[Option<Affine>]) -> bool
    ensures { (loops symbols : List (List ℕ)) (ps qs : Subscripts) → length loops ≤ 7
        → AreFormsIn loops symbols ps one.now → AreFormsIn loops symbols qs other.now
        → result ≡ same_forms loops symbols ps qs }
{
    let Some((first, rest)) = one.split_first() else {
        return other.is_empty();
    };
    let Some((second, others)) = other.split_first() else {
        return false;
    };
    same_form(*first, *second) && same_forms(rest, others)
}

// Whether a reference is of another name than the left side, or of the same element.
fn reads_what_is_written(
    alloc: Global,
    left: &Ref,
    item: &Ref,
    loops: &[Name],
    symbols: &Seq<Name>,
) -> Result<bool, Memory>
    requires symbols { length symbols.now ≤ 2 ^ 16 }
    requires loops { length loops.now ≤ 7 }
    ensures { IfOk result (λ b. b
        ≡ reads_what_is_written loops.now symbols.now (reference_of left.now) (reference_of item.now)) }
{
    if item.name != left.name {
        return Ok(true);
    }
    let read = forms_of(alloc, item, loops, symbols)?;
    let written = forms_of(alloc, left, loops, symbols)?;
    Ok(same_forms(read.as_slice(), written.as_slice()))
}

fn all_read_it(
    alloc: Global,
    left: &Ref,
    items: &[Ref],
    loops: &[Name],
    symbols: &Seq<Name>,
) -> Result<bool, Memory>
    requires symbols { length symbols.now ≤ 2 ^ 16 }
    requires loops { length loops.now ≤ 7 }
    ensures { IfOk result (λ b. b
        ≡ list_all (λ r. reads_what_is_written loops.now symbols.now (reference_of left.now) (reference_of r))
        items.now) }
{
    for item in items {
        if !reads_what_is_written(alloc, left, item, loops, symbols)? {
            return Ok(false);
        }
    }
    Ok(true)
}

fn reads_own_element(
    alloc: Global,
    standing: &Standing,
    symbols: &Seq<Name>,
) -> Result<bool, Memory>
    requires symbols { length symbols.now ≤ 2 ^ 16 }
    requires ready { IsReadyStatement (standing_of standing.now) }
    ensures { IfOk result (λ b. b ≡ reads_own_element symbols.now (standing_of standing.now)) }
{
    let loops = variables_of(alloc, &standing.loops)?;
    let items = references_of(alloc, standing)?;
    let Some((_left, read)) = items.as_slice().split_first() else {
        return Ok(true);
    };
    all_read_it(alloc, &standing.stmt.left, read, loops.as_slice(), symbols)
}

fn all_read_own_elements(
    alloc: Global,
    all: &[Standing],
    symbols: &Seq<Name>,
) -> Result<bool, Memory>
    requires symbols { length symbols.now ≤ 2 ^ 16 }
    requires ready { All (λ s. IsReadyStatement (standing_of s)) all.now }
    ensures { IfOk result (λ b. b ≡ list_all (λ s. reads_own_element symbols.now (standing_of s)) all.now) }
{
    for standing in all {
        if !reads_own_element(alloc, standing, symbols)? {
            return Ok(false);
        }
    }
    Ok(true)
}

/// Whether each statement of a nest that reads the array that it writes reads just the element that it writes, by the
/// linear forms of the subscripts.
pub(crate) fn read_own_elements(alloc: Global, nest: &Nest) -> Result<bool, Memory>
    requires { IsReady (nest_of nest.now) }
    ensures { IfOk result (λ b. b ≡ read_own_elements (nest_of nest.now)) }
{
    let all = statements_of(alloc, nest)?;
    all_read_own_elements(alloc, all.as_slice(), &nest.symbols)
}
