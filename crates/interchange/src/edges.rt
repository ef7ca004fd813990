//! The edges that are looked at.
ghost use Rattle.std.specs.Prelude.{◌≡◌, ◌∷◌, ◌++◌, [], IfOk, OnOk};
ghost use Rattle.interchange.specs.Arranged.{is_antidependence, is_own_antidependence, vectors_of};

use dependence_graph::graphs::{Dep, Edge};
use std::alloc::Global;
use subscripts::Dirs;
use tree::{Memory, Seq};

fn is_anti(kind: Dep) -> bool
    ensures { result ≡ is_antidependence kind }
{
    match kind {
        Dep::Anti => true,
        Dep::Flow | Dep::Output => false,
    }
}

// Whether it is an antidependence of a statement on itself.
fn is_own_anti(edge: &Edge) -> bool
    ensures { result ≡ is_own_antidependence edge.now }
{
    is_anti(edge.kind) && edge.from.stmt == edge.to.stmt
}

// Adds the direction vector of an edge, if it isn't such a one.
#[tactic(auto, using(crate::proofs::ListLaws::list_laws))]
fn add_vector(edge: &Edge, vectors: &mut Seq<Dirs>) -> Result<(), Memory>
    ensures { OnOk result (vectors.new ≡ vectors.old ++ vectors_of (edge.now ∷ [])) }
{
    if is_own_anti(edge) {
        return Ok(());
    }
    vectors.push(edge.dirs)?;
    Ok(())
}

/// The direction vectors of all edges but antidependences of a statement on itself.
pub fn vectors_of(alloc: Global, edges: &[Edge]) -> Result<Seq<Dirs>, Memory>
    ensures { IfOk result (λ vectors. vectors ≡ vectors_of edges.now) }
{
    let mut vectors = Seq::new(alloc);
    for edge in edges {
        add_vector(edge, &mut vectors)?;
    }
    Ok(vectors)
}
