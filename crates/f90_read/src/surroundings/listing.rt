//! DO variables in the lists of READ and PRINT.
ghost use Rattle.std.specs.Prelude.{◌≡◌, [], List, IfOk, reverse};
ghost use Rattle.meaning.specs.Names.{is_among};
ghost use Rattle.f90_grammar.specs.Items.{ItemPhrases90};
ghost use Rattle.f90_grammar.specs.Phrases.{Phrase90};
ghost use Rattle.f90_expressions.specs.Reading.{IsMadeOf};
ghost use Rattle.f90_expressions.specs.Views.{node_seen};
ghost use Rattle.f90_statement.specs.items.Flat as flats;
ghost use Rattle.f90_statement.specs.items.Reading.{IsListOf};
ghost use Rattle.f90_statement.specs.items.Views.{IsNodeOf, AreNodesOf, direction_of};
ghost use Rattle.f90_read.specs.surroundings.Lists.{is_scalar, scalar_in, stored_name, name_in_node, is_wrong_variable};
ghost use Rattle.f90_read.specs.surroundings.Lists.{stores_round, is_round, items_misuse, walked, with_node};
ghost use Rattle.f90_read.specs.surroundings.Lists.{with_nodes};

use f90_expressions::{Expression, Node as Part};
use f90_names::kinds::declarations::{Declared, Names};
use f90_statement::items::{Direction, ItemList, Node};
use std::alloc::Global;
use tree::{Kind, Memory, Name};

fn is_among(name: Name, names: &[Name]) -> bool
    ensures { result ≡ is_among names.now name }
{
    names.iter().any(|one| name == *one)
}

fn is_scalar(declared: Option<Declared>) -> bool
    ensures { result ≡ is_scalar declared }
{
    match declared {
        Some(known) => match known.kind {
            Kind::Integer => known.rank == 0,
            Kind::Logical => false,
        },
        None => false,
    }
}

fn name_in_node(part: &Part) -> Option<Name>
    ensures { result ≡ name_in_node (node_seen part.now) }
{
    match part {
        Part::Name(name) => Some(*name),
        Part::Listed(name) => Some(*name),
        Part::Digits(_) => None,
        Part::Truth(_) => None,
        Part::Parenthesis => None,
        Part::Prefix(_) => None,
        Part::Infix(_) => None,
        Part::One => None,
        Part::Bounds => None,
        Part::Stride => None,
        Part::Begin => None,
        Part::Values => None,
        Part::Inner(_) => None,
        Part::Outer(_) => None,
        Part::Looped => None,
    }
}

// The name of what is stored into.
fn stored_name(variable: &Expression) -> Option<Name>
    ensures { (p : Phrase90) → IsMadeOf variable.now p → result ≡ stored_name p }
{
    match variable.nodes.as_slice().split_last() {
        Some((part, _)) => name_in_node(part),
        None => None,
    }
}

/// What is known at a statement: declared names, and the variables of the loops round it.
#[derive(Clone, Copy)]
pub(crate) struct Surroundings<'a> {
    pub names: &'a Names,
    pub variables: &'a [Name],
}

impl<'a> Surroundings<'a> {
    // The variable of a loop round the statement, or of one of the implied DO lists `lists`.
    fn is_round(&self, name: Name, lists: &[Name]) -> bool
        ensures { result ≡ is_round (is_among (reverse self.now.variables.now)) (reverse lists.now) name }
    {
        is_among(name, lists) || is_among(name, self.variables)
    }

    /// A DO variable is no INTEGER scalar, or is that of another loop or list round it.
    pub(crate) fn is_wrong(&self, name: Name, lists: &[Name]) -> bool
        ensures { result ≡ is_wrong_variable (scalar_in self.now.names.now) (is_among (reverse self.now.variables.now))
            (reverse lists.now) name }
    {
        !is_scalar(self.names.find(name)) || self.is_round(name, lists)
    }

    /// What is stored into is a DO variable round it.
    pub(crate) fn stores_round(&self, variable: &Expression, lists: &[Name]) -> bool
        ensures { (p : Phrase90) → IsMadeOf variable.now p
            → result ≡ stores_round (is_among (reverse self.now.variables.now)) (stored_name p) (reverse lists.now) }
    {
        match stored_name(variable) {
            Some(name) => self.is_round(name, lists),
            None => false,
        }
    }

    // Whether something behind the part is wrong, or the part is; the lists round it are those that end behind it.
    fn with_node(
        &self,
        direction: Direction,
        node: &Node,
        wrong: bool,
        lists: &mut Vec<Name>,
    ) -> Result<bool, Memory>
        ensures { (part : flats.Node) → IsNodeOf node.now part → IfOk result (λ now.
            with_node (scalar_in self.now.names.now) (is_among (reverse self.now.variables.now))
            (direction_of direction) part (walked wrong (reverse lists.old.items))
            ≡ walked now (reverse lists.new.items)) }
    {
        match node {
            Node::Value(expression) => match direction {
                Direction::Input => Ok(wrong || self.stores_round(expression, lists.as_slice())),
                Direction::Output => Ok(wrong),
            },
            Node::Text(_) => Ok(wrong),
            Node::Begin => {
                lists.pop();
                Ok(wrong)
            }
            Node::Turns(name, _) => {
                let now = wrong || self.is_wrong(*name, lists.as_slice());
                lists.push(*name)?;
                Ok(now)
            }
        }
    }

    /// A list has a wrong DO variable, or reads into one that is round it.
    pub(crate) fn misuses_list(
        &self,
        alloc: Global,
        direction: Direction,
        list: &ItemList,
    ) -> Result<bool, Memory>
        ensures { (is : ItemPhrases90) → IsListOf list.now is → IfOk result (λ wrong. wrong
            ≡ items_misuse (scalar_in self.now.names.now) (is_among (reverse self.now.variables.now))
            (direction_of direction) is []) }
    {
        let nodes = list.nodes.as_slice();
        let mut lists = Vec::new(alloc);
        let mut wrong = false;
        for i in (0..nodes.len()).rev() {
            wrong = self.with_node(direction, &nodes[i], wrong, &mut lists)?;
        }
        Ok(wrong)
    }
}
