//! The trees of the statements of a text.
ghost use Rattle.std.specs.Prelude.{List, IfOk};
ghost use Rattle.tree.specs.Plain.{Declaration};
ghost use Rattle.f90_grammar.specs.Blocks as grammar;
ghost use Rattle.f90_grammar.specs.Reading.{function_by};
ghost use Rattle.f90_grammar.specs.Suited.{Suits};
ghost use Rattle.f90_blocks.specs.Treed.{IsTreedOf};
ghost use Rattle.f90_blocks.specs.places.forms.Places.{IsPlacedOf};
ghost use Rattle.f90_statement.specs.Views.{AreOf};
ghost use Rattle.f90_blocks.specs.statement_trees.Results.{IsOf, AreOfSome};
ghost use Rattle.f90_read.specs.f90_suits.Ready.{AreFunctionsOf, IsReadyAt, AreReady, HoldsOfAll};

use f90_blocks::Treed;
use f90_blocks::places::forms::Placed;
use f90_blocks::statement_trees::statement_tree;
use f90_trees::Functions;
use std::alloc::Global;
use tree::{Memory, Seq};

// The statement with its tree, if it is executable.
fn treed(alloc: Global, placed: &Placed, functions: &Functions) -> Result<Treed, Memory>
    requires { IsOf IsPlacedOf placed.now }
    ensures { (p : grammar.Placed) (ds : List Declaration) → IsPlacedOf placed.now p
        → AreFunctionsOf functions.now ds → IsReadyAt ds p → Suits ds p.form
        → IfOk result (λ made. IsTreedOf (function_by ds) made p) }
{
    let tree = statement_tree(alloc, placed, functions)?;
    let line = placed.line;
    Ok(Treed { line, tree })
}

/// The statements of a text, whose kinds and ranks suit, with their lines and trees.
pub fn trees(alloc: Global, text: &[Placed], functions: &Functions) -> Result<Seq<Treed>, Memory>
    requires { AreOfSome IsPlacedOf text.now }
    ensures { (ps : List grammar.Placed) (ds : List Declaration) → AreOf IsPlacedOf text.now ps
        → AreReady functions.now ds ps → HoldsOfAll (Suits ds) ps
        → IfOk result (λ made. AreOf (IsTreedOf (function_by ds)) made ps) }
{
    let mut made = Seq::new(alloc);
    'adding: for placed in text {
        made.push(treed(alloc, placed, functions)?)?;
    }
    Ok(made)
}
