//! The literals of a statement, and whether it is too deep.
ghost use Rattle.std.specs.Prelude.{◌≡◌, [], ◌∷◌, ◌++◌, List, Option, nat_lt};
ghost use Rattle.std.specs.List.{list_any};
ghost use Rattle.tree.specs.Limits.{expression_depth90};
ghost use Rattle.f90_grammar.specs.Contents.{is_wide_literal, is_wide_dimension, is_declared_wide, has_wide_literal_in};
ghost use Rattle.f90_grammar.specs.Contents.{has_deep_list};
ghost use Rattle.f90_grammar.specs.Contents.{has_deep_expression, step_expressions, items_expressions, items_variables};
ghost use Rattle.f90_grammar.specs.Forms as forms;
ghost use Rattle.f90_grammar.specs.Forms.{Form90};
ghost use Rattle.f90_grammar.specs.Items.{ItemPhrases90, Input, Output, items_depth90};
ghost use Rattle.f90_grammar.specs.Phrases.{Phrase90};
ghost use Rattle.f90_grammar.specs.Reading.{takes_mark};
ghost use Rattle.f90_expressions.specs.Reading.{IsMadeOf};
ghost use Rattle.f90_statement.specs.items.Flat as flats;
ghost use Rattle.f90_statement.specs.items.Reading.{IsListOf};
ghost use Rattle.f90_statement.specs.items.Views.{IsNodeOf, AreNodesOf};
ghost use Rattle.f90_statement.specs.items.parts.Bounds.{AreBoundsOf};
ghost use Rattle.f90_statement.specs.Contents.{test_of, any_in, node_holds, are_wide};
ghost use Rattle.f90_statement.specs.Views.{AreOf, IsBoundOf, IsDimensionOf, IsEntityOf, IsActionOf, IsStatementOf};

use crate::items::parts::Bounds;
use crate::items::{ItemList, Node};
use crate::nodes::{Action, Bound, Dimension, Entity, Statement};
use f90_expressions::Expression;
use tree::EXPRESSION_DEPTH_90;

/// What is asked of each expression of a statement: whether a literal of it is above 2^127-1, or it is too deep.
#[derive(Clone, Copy, Debug)]
pub(crate) enum Test {
    Wide,
    Deep,
}

impl Bound {
    fn is_wide(&self) -> bool
        ensures { (b : forms.Bound90) → IsBoundOf self.now b → result ≡ is_wide_literal b.digits }
    {
        self.magnitude.is_none()
    }
}

impl Test {
    fn holds(self, expression: &Expression) -> bool
        ensures { (p : Phrase90) → IsMadeOf expression.now p → result ≡ test_of self p }
    {
        match self {
            Test::Wide => expression.has_wide_literal(),
            Test::Deep => expression.is_deep(),
        }
    }

    // Of one of the expressions.
    fn holds_of_any(self, expressions: &[Expression]) -> bool
        ensures { (ps : List Phrase90) → AreOf IsMadeOf expressions.now ps → result ≡ list_any (test_of self) ps }
    {
        for expression in expressions {
            if self.holds(expression) {
                return true;
            }
        }
        false
    }

    // Of one of the parameters of a loop.
    fn holds_of_bounds(self, bounds: &Bounds) -> bool
        ensures { (a b : Phrase90) (c : Option Phrase90) → AreBoundsOf bounds.now a b c
            → result ≡ list_any (test_of self) (a ∷ (b ∷ step_expressions c)) }
    {
        if self.holds(&bounds.first) || self.holds(&bounds.last) {
            return true;
        }
        match &bounds.step {
            Some(step) => self.holds(step),
            None => false,
        }
    }

    // Of an expression in a part of a list.
    fn holds_of_node(self, node: &Node) -> bool
        ensures { (part : flats.Node) → IsNodeOf node.now part → result ≡ node_holds (test_of self) part }
    {
        match node {
            Node::Value(expression) => self.holds(expression),
            Node::Text(_) => false,
            Node::Begin => false,
            Node::Turns(_, bounds) => self.holds_of_bounds(bounds),
        }
    }

    // Of an expression in one of the parts.
    fn holds_of_nodes(self, nodes: &[Node]) -> bool
        ensures { (parts : List flats.Node) → AreNodesOf nodes.now parts
            → result ≡ list_any (node_holds (test_of self)) parts }
    {
        for node in nodes {
            if self.holds_of_node(node) {
                return true;
            }
        }
        false
    }

    // Of an expression in a list of PRINT.
    fn holds_of_output(self, list: &ItemList) -> bool
        ensures { (is : ItemPhrases90) → IsListOf list.now is
            → result ≡ list_any (test_of self) (items_expressions Output is ++ []) }
    {
        self.holds_of_nodes(list.nodes.as_slice())
    }

    // Of an expression in a list of READ, or of a variable.
    fn holds_of_input(self, list: &ItemList) -> bool
        ensures { (is : ItemPhrases90) → IsListOf list.now is
            → result ≡ list_any (test_of self) (items_expressions Input is ++ items_variables is) }
    {
        self.holds_of_nodes(list.nodes.as_slice())
    }

    // Of an expression or a variable of the statement.
    fn holds_in_action(self, action: &Action) -> bool
        ensures { (f : Form90) → IsActionOf action.now f → result ≡ any_in (test_of self) f }
    {
        match action {
            Action::Assign(left, right) => self.holds(right) || self.holds(left),
            Action::Read(Some(list)) => self.holds_of_input(list),
            Action::Print(Some(list)) => self.holds_of_output(list),
            Action::Read(None) => false,
            Action::Print(None) => false,
            Action::Go(_) => false,
            Action::Continue => false,
            Action::Stop => false,
        }
    }

    // Of an expression or a variable of the statement.
    fn holds_in(self, statement: &Statement) -> bool
        ensures { (f : Form90) → IsStatementOf statement.now f → result ≡ any_in (test_of self) f }
    {
        match statement {
            Statement::Act(action) => self.holds_in_action(action),
            Statement::Where(mask, left, right) => {
                self.holds(mask) || self.holds(right) || self.holds(left)
            }
            Statement::Test(condition, action) => {
                self.holds(condition) || self.holds_in_action(action)
            }
            Statement::If(condition) => self.holds(condition),
            Statement::ElseIf(condition) => self.holds(condition),
            Statement::Do(_, bounds) => self.holds_of_bounds(bounds),
            Statement::Allocate(_, extents) => self.holds_of_any(extents.as_slice()),
            Statement::Program(_) => false,
            Statement::ImplicitNone => false,
            Statement::Declare(_, _, _) => false,
            Statement::Label(_) => false,
            Statement::Else => false,
            Statement::EndIf => false,
            Statement::EndDo => false,
            Statement::Deallocate(_) => false,
            Statement::End => false,
            Statement::EndProgram(_) => false,
        }
    }
}

// ---- bounds of declared arrays

fn is_wide_dimension(dimension: &Dimension) -> bool
    ensures { (d : forms.Dimension) → IsDimensionOf dimension.now d → result ≡ is_wide_dimension d }
{
    match dimension {
        Dimension::Upper(bound) => bound.is_wide(),
        Dimension::Both(first, last) => first.is_wide() || last.is_wide(),
        Dimension::Deferred => false,
    }
}

fn has_wide_dimension(dimensions: &[Dimension]) -> bool
    ensures { (ds : List forms.Dimension) → AreOf IsDimensionOf dimensions.now ds
        → result ≡ list_any is_wide_dimension ds }
{
    for dimension in dimensions {
        if is_wide_dimension(dimension) {
            return true;
        }
    }
    false
}

fn is_wide(entity: &Entity) -> bool
    ensures { (e : forms.EntityForm90) → IsEntityOf entity.now e → result ≡ are_wide e }
{
    has_wide_dimension(entity.dimensions.as_slice())
}

fn has_wide_entity(entities: &[Entity]) -> bool
    ensures { (es : List forms.EntityForm90) → AreOf IsEntityOf entities.now es → result ≡ list_any are_wide es }
{
    for entity in entities {
        if is_wide(entity) {
            return true;
        }
    }
    false
}

// ---- statements

// Whether the parentheses of its implied DO lists make it too deep.
fn is_deep_list(list: &ItemList) -> bool
    ensures { (is : ItemPhrases90) → IsListOf list.now is → result ≡ nat_lt expression_depth90 (items_depth90 is) }
{
    list.depth > EXPRESSION_DEPTH_90
}

fn has_deep_list_in(action: &Action) -> bool
    ensures { (f : Form90) → IsActionOf action.now f → result ≡ has_deep_list f }
{
    match action {
        Action::Read(Some(list)) => is_deep_list(list),
        Action::Print(Some(list)) => is_deep_list(list),
        Action::Read(None) => false,
        Action::Print(None) => false,
        Action::Assign(_, _) => false,
        Action::Go(_) => false,
        Action::Continue => false,
        Action::Stop => false,
    }
}

impl Statement {
    fn is_declared_wide(&self) -> bool
        ensures { (f : Form90) → IsStatementOf self.now f → result ≡ is_declared_wide f }
    {
        match self {
            Statement::Declare(_, _, entities) => has_wide_entity(entities.as_slice()),
            _ => false,
        }
    }

    fn has_deep_list(&self) -> bool
        ensures { (f : Form90) → IsStatementOf self.now f → result ≡ has_deep_list f }
    {
        match self {
            Statement::Act(action) => has_deep_list_in(action),
            Statement::Test(_, action) => has_deep_list_in(action),
            _ => false,
        }
    }

    /// Whether a literal of it is above 2^127-1.
    pub fn has_wide_literal(&self) -> bool
        ensures { (f : Form90) → IsStatementOf self.now f → result ≡ has_wide_literal_in f }
    {
        self.is_declared_wide() || Test::Wide.holds_in(self)
    }

    /// Whether an expression of it is more than 1,000 deep.
    pub fn has_deep_expression(&self) -> bool
        ensures { (f : Form90) → IsStatementOf self.now f → result ≡ has_deep_expression f }
    {
        self.has_deep_list() || Test::Deep.holds_in(self)
    }

    /// Whether a mark that stands before it is its own.
    pub fn takes_mark(&self) -> bool
        ensures { (f : Form90) → IsStatementOf self.now f → result ≡ takes_mark f }
    {
        match self {
            Statement::Where(_, _, _) => true,
            Statement::Act(Action::Assign(_, _)) => true,
            Statement::Test(_, Action::Assign(_, _)) => true,
            _ => false,
        }
    }
}
