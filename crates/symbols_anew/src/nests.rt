//! Nests with all their symbols.
ghost use Rattle.std.specs.Prelude.{◌≡◌, IfOk};
ghost use Rattle.nest.specs.View.{nest_of};
ghost use Rattle.statement_passes.specs.Shifted.{with_nest_symbols};
ghost use Rattle.symbols_anew.specs.Nests.{with_new, with_symbols_found, with_texts};

use crate::found::new_symbols;
use crate::texts::CanonicalTexts;
use nest::Nest;
use statement_passes::{map_statements, with_symbols};
use std::alloc::Global;
use tree::{Memory, Name, Seq};

fn with_texts(alloc: Global, nest: &Nest) -> Result<Nest, Memory>
    ensures { IfOk result (λ new. nest_of new ≡ with_texts (nest_of nest.now)) }
{
    let symbols = Seq::from_vec(Vec::from_slice(alloc, nest.symbols.as_slice())?);
    let mut pass = CanonicalTexts { symbols };
    map_statements(alloc, nest, &mut pass)
}

fn with_more(alloc: Global, nest: &Nest, names: &[Name]) -> Result<Box<Nest>, Memory>
    ensures { IfOk result (λ new. nest_of new.value ≡ with_texts (with_nest_symbols (nest_of nest.now) names.now)) }
{
    let more = Box::new(alloc, with_symbols(alloc, nest, names)?)?;
    Ok(Box::new(alloc, with_texts(alloc, &more)?)?)
}

// With these symbols more, if there are any.
fn with_new(alloc: Global, nest: Box<Nest>, names: &[Name]) -> Result<Box<Nest>, Memory>
    ensures { IfOk result (λ new. nest_of new.value ≡ with_new (nest_of nest.value) names.now) }
{
    match names.split_first() {
        Some(_) => with_more(alloc, &nest, names),
        None => Ok(nest),
    }
}

/// The nest with all its symbols, where a pass has made it of another one: INTEGER scalars that this gave values to,
/// and that get none any more, stand among its symbols in byte order, and its statements are in canonical text by them.
/// The nest itself where it has no symbol more.
#[tactic(auto, unfolding(crate::specs::Nests::with_symbols_found))]
pub fn find_symbols(alloc: Global, before: &Nest, nest: Box<Nest>) -> Result<Box<Nest>, Memory>
    ensures { IfOk result (λ new. nest_of new.value ≡ with_symbols_found (nest_of before.now) (nest_of nest.value)) }
{
    let names = new_symbols(alloc, before, &nest)?;
    with_new(alloc, nest, names.as_slice())
}
