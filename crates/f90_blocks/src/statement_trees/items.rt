//! The trees of lists of PRINT and READ (ISO/IEC 1539:1991, section 9.4.2).
ghost use Rattle.std.specs.Prelude.{◌≡◌, [], ◌∷◌, ◌++◌, List, IfOk, map};
ghost use Rattle.tree.specs.Plain.{items};
ghost use Rattle.tree.specs.View.{item_of};
ghost use Rattle.f90_grammar.specs.Items.{ItemPhrases90, item_trees90};
ghost use Rattle.f90_statement.specs.items.Flat as flats;
ghost use Rattle.f90_statement.specs.items.Reading.{IsListOf};
ghost use Rattle.f90_statement.specs.items.Views.{IsNodeOf};
ghost use Rattle.f90_statement.specs.Views.{AreOf};
ghost use Rattle.f90_trees.specs.Hiding.{function_in};
ghost use Rattle.f90_blocks.specs.statement_trees.Held.{held_items};
ghost use Rattle.f90_blocks.specs.statement_trees.Lists.{levels, with_part, with_parts, levels_seen};
ghost use Rattle.f90_blocks.specs.statement_trees.Results.{IsOf, AreOfSome};

use crate::statement_trees::expressions::parameters;
use f90_statement::items::{ItemList, Node};
use f90_trees::{Functions, tree};
use std::alloc::Global;
use tree::{Item, Memory, Seq, copy_text};

fn with_item(items: Seq<Item>, item: Item) -> Result<Seq<Item>, Memory>
    ensures { IfOk result (λ made. map item_of made ≡ map item_of items ++ item_of item ∷ []) }
{
    let mut made = items;
    made.push(item)?;
    Ok(made)
}

// The items of the innermost list, with one part more. Those of the list round it stand last.
fn with_node(
    alloc: Global,
    outer: &mut Vec<Seq<Item>>,
    inner: Seq<Item>,
    node: &Node,
    functions: &Functions,
) -> Result<Seq<Item>, Memory>
    requires { IsOf IsNodeOf node.now }
    ensures { (part : flats.Node) → IsNodeOf node.now part → IfOk result (λ made.
        levels_seen made outer.new.items
        ≡ with_part (function_in functions.now) part (levels_seen inner outer.old.items)) }
{
    match node {
        Node::Value(expression) => {
            with_item(inner, Item::One(tree(alloc, expression, functions)?))
        }
        Node::Text(text) => with_item(inner, Item::Text(copy_text(text, alloc)?)),
        Node::Begin => {
            outer.push(inner)?;
            Ok(Seq::new(alloc))
        }
        Node::Turns(var, bounds) => {
            let (first, last, step) = parameters(alloc, bounds, functions)?;
            let list = Item::Turns(inner, *var, first, last, step);
            match outer.pop() {
                Some(outside) => with_item(outside, list),
                None => with_item(Seq::new(alloc), list),
            }
        }
    }
}

// The items of a list with these parts.
fn made(alloc: Global, nodes: &[Node], functions: &Functions) -> Result<Seq<Item>, Memory>
    requires { AreOfSome IsNodeOf nodes.now }
    ensures { (parts : List flats.Node) → AreOf IsNodeOf nodes.now parts → IfOk result (λ made.
        map item_of made ≡ (with_parts (function_in functions.now) parts (levels [] [])).inner) }
{
    let mut outer = Vec::new(alloc);
    let mut inner = Seq::new(alloc);
    'parts: for node in nodes {
        inner = with_node(alloc, &mut outer, inner, node, functions)?;
    }
    Ok(inner)
}

/// The trees of the items of a list.
pub(crate) fn trees_of_items(
    alloc: Global,
    list: &ItemList,
    functions: &Functions,
) -> Result<Seq<Item>, Memory>
    requires { IsOf IsListOf list.now }
    ensures { (is : ItemPhrases90) → IsListOf list.now is → IfOk result (λ made.
        items (map item_of made) ≡ held_items (items (item_trees90 (function_in functions.now) is))) }
{
    made(alloc, list.nodes.as_slice(), functions)
}
