//! Lists by themselves.
ghost use Rattle.std.specs.Prelude.{◌≡◌, IfOk};
ghost use Rattle.f77_grammar.specs.statements.Items.{ItemPhrases77, AreItems77, written_items77};
ghost use Rattle.f77_grammar.specs.declared.directions.Direction.TheVariants.{Output, Input};
ghost use Rattle.f77_expressions.specs.Views.{words_of};
ghost use Rattle.f77_words.specs.lists.Reading as reading;
ghost use Rattle.f77_words.specs.lists.Reading.{Gives};

use crate::lists::lists::ItemList;
use crate::lists::reader::run;
use f77_expressions::tokens::Token;
use f77_grammar::Direction;
use reading::Stop;
use std::alloc::Global;

/// Reads all words as the list of a PRINT (ANSI X3.9-1978, 12.8.2.2).
///
/// A parenthesis that holds a comma of its own is an implied DO list's, any other one an expression's.
#[tactic(auto, using(crate::proofs::lists::ListLaws::listing))]
pub fn read_items(alloc: Global, tokens: &[Token]) -> Result<ItemList, Stop>
    // What is read is so written.
    ensures found { IfOk result (reading.Is Output (words_of tokens.now)) }

    // What is so written is read, in one way alone.
    ensures only { (is : ItemPhrases77) → AreItems77 Output is → words_of tokens.now ≡ written_items77 is
        → Gives result is }
{
    run(alloc, Direction::Output, tokens)
}

/// Reads all words as the list of a READ (ANSI X3.9-1978, 12.8.2.1): names, names with lists, and implied DO lists.
#[tactic(auto, using(crate::proofs::lists::ListLaws::listing))]
pub fn read_inputs(alloc: Global, tokens: &[Token]) -> Result<ItemList, Stop>
    // What is read is so written.
    ensures found { IfOk result (reading.Is Input (words_of tokens.now)) }

    // What is so written is read, in one way alone.
    ensures only { (is : ItemPhrases77) → AreItems77 Input is → words_of tokens.now ≡ written_items77 is
        → Gives result is }
{
    run(alloc, Direction::Input, tokens)
}
