//! DO variables: INTEGER scalar variables, which nothing in the range of their loop or list sets (ANSI X3.9-1978,
//! sections 11.10 and 12.8.2.3).
ghost use Rattle.std.specs.Prelude.{◌≡◌, ℕ, Bool, List, [], None, Some, map, is_some, not, ◌&&◌, OnOk, IfOk};
ghost use Rattle.std.specs.Prelude.{if◌then◌else◌};
ghost use Rattle.tree.specs.declared.ops.Kind.TheVariants.{Integer};
ghost use Rattle.f77_grammar.specs.program.Kinds.{same_kind};
ghost use Rattle.std.specs.Str.{bytes_eq};
ghost use Rattle.tree.specs.Plain.{items};
ghost use Rattle.tree.specs.View.{expression_of, reference_of, item_of};
ghost use Rattle.meaning.specs.Names.{is_among};
ghost use Rattle.f77_grammar.specs.program.Uses as plain;
ghost use Rattle.f77_grammar.specs.program.DoVariables.{has_wrong_do_variable};
ghost use Rattle.f77_grammar.specs.syntax.First.{first_index};
ghost use Rattle.f77_grammar.specs.syntax.Views.{statement_of, text_of};
ghost use Rattle.f77_structure.specs.LabelPlaces.{place_of, AreEndsIn};
ghost use Rattle.f77_names.specs.UsesView.{listed};
ghost use Rattle.f77_structure.specs.jumps.LoopVariables.{last_in, scalar_in, round_at, loop_begun, end_with};
ghost use Rattle.f77_structure.specs.jumps.Misuses.{is_scalar_by, is_round, sets_round, reads_round, is_wrong_round};
ghost use Rattle.f77_structure.specs.jumps.Misuses.{value_sets_round, misuses_item, misuses_items, misuses_statement};
ghost use Rattle.f77_structure.specs.jumps.Targets.{later};

use crate::LabelPlaces;
use crate::jumps::targets::later;
use f77_grammar::Direction;
use f77_grammar::syntax::{Labelled, Stmt77};
use f77_names::{Facts, KnownNames, Names};
use indexmap::IndexMap;
use std::alloc::Global;
use tree::{Expr, Item, Kind, Memory, Name, Ref, Seq};

// An INTEGER scalar variable.
fn is_integer_scalar(facts: Facts) -> bool
    ensures { result ≡ is_scalar_by facts }
{
    let variable = (facts.kind.is_some() || facts.dimensions.is_some() || facts.bare)
        && !facts.constant;
    variable && !is_array(facts) && is_integer(facts.kind)
}

fn is_array(facts: Facts) -> bool
    ensures { result ≡ (is_some facts.dimensions && not facts.constant) }
{
    facts.dimensions.is_some() && !facts.constant
}

fn is_integer(kind: Option<Kind>) -> bool
    ensures { result ≡ same_kind (plain.or_integer kind) Integer }
{
    match kind {
        None => true,
        Some(Kind::Integer) => true,
        Some(Kind::Logical) => false,
    }
}

fn is_among(name: Name, names: &[Name]) -> bool
    ensures { result ≡ is_among names.now name }
{
    names.iter().any(|one| name == *one)
}

// The label and the variable of a DO.
#[tactic(auto, using(f77_grammar::proofs::syntax::Equations::statement_equations))]
fn loop_begun(statement: &Stmt77) -> Option<(u32, Name)>
    ensures { result ≡ loop_begun (statement_of statement.now) }
{
    match statement {
        Stmt77::Do(Some(label), variable, ..) => Some((*label, *variable)),
        Stmt77::Do(None, ..) => None,
        Stmt77::Program(_) => None,
        Stmt77::ImplicitNone => None,
        Stmt77::Declare(..) => None,
        Stmt77::Dimension(_) => None,
        Stmt77::Constants(_) => None,
        Stmt77::Assign(..) => None,
        Stmt77::Go(_) => None,
        Stmt77::Test(..) => None,
        Stmt77::If(_) => None,
        Stmt77::ElseIf(_) => None,
        Stmt77::Else => None,
        Stmt77::EndIf => None,
        Stmt77::EndDo => None,
        Stmt77::Continue => None,
        Stmt77::Stop => None,
        Stmt77::Read(_) => None,
        Stmt77::Print(_) => None,
        Stmt77::End => None,
    }
}

// The names of a program, and the DO variables of the loops that have begun, each with the place at which the last of
// its loops ends: at a place that comes no later, it stands round it.
#[derive(Drop)]
struct LoopVariables<'a> {
    names: &'a Names,
    lasts: IndexMap<Name, usize>,
}

impl<'a> LoopVariables<'a> {
    fn new(alloc: Global, names: &'a Names) -> LoopVariables<'a>
        ensures names { result.names.now ≡ names.now }
        ensures lasts { (x : List ℕ) → last_in result x ≡ None }
    {
        LoopVariables {
            names,
            lasts: IndexMap::new(alloc),
        }
    }

    fn last(&self, name: Name) -> Option<usize>
        ensures { result ≡ last_in self.now name }
    {
        self.lasts.get(&name).copied()
    }

    fn put(&mut self, name: Name, end: usize) -> Result<(), Memory>
        ensures names { OnOk result (self.new.names.now ≡ self.old.names.now) }
        ensures lasts { OnOk result ((x : List ℕ)
            → last_in self.new x ≡ (if bytes_eq name x then Some end else last_in self.old x)) }
    {
        self.lasts.insert(name, end)?;
        Ok(())
    }

    // A loop with this variable begins, which ends at `end`.
    #[tactic(auto, using(crate::proofs::jumps::Lasts::last_laws))]
    fn begin(&mut self, name: Name, end: Option<usize>) -> Result<(), Memory>
        ensures names { OnOk result (self.new.names.now ≡ self.old.names.now) }
        ensures lasts { OnOk result ((x : List ℕ)
            → last_in self.new x ≡ later (last_in self.old x) (if bytes_eq x name then end else None)) }
    {
        if let Some(end) = later(self.last(name), end) {
            self.put(name, end)?;
        }
        Ok(())
    }

    // What is known behind a statement; `ends` gives the place of the last statement with a label.
    #[tactic(auto, using(crate::proofs::jumps::Lasts::last_laws))]
    fn pass(&mut self, statement: &Stmt77, ends: &LabelPlaces) -> Result<(), Memory>
        ensures names { OnOk result (self.new.names.now ≡ self.old.names.now) }
        ensures lasts { OnOk result ((x : List ℕ) → last_in self.new x
            ≡ later (last_in self.old x) (end_with (place_of ends.now) (loop_begun (statement_of statement.now)) x)) }
    {
        match loop_begun(statement) {
            Some((label, variable)) => self.begin(variable, ends.get(label)),
            None => Ok(()),
        }
    }

    // An INTEGER scalar variable of the program.
    fn is_scalar(&self, name: Name) -> bool
        ensures { result ≡ scalar_in self.now name }
    {
        is_integer_scalar(self.names.facts(name))
    }

    // The DO variable of a loop round the statement behind `at` others, or of one of the implied DO lists `lists`.
    fn is_round(&self, name: Name, at: usize, lists: &[Name]) -> bool
        ensures { result ≡ is_round (round_at self.now at) lists.now name }
    {
        is_among(name, lists) || self.is_loop_variable(name, at)
    }

    fn is_loop_variable(&self, name: Name, at: usize) -> bool
        ensures { result ≡ round_at self.now at name }
    {
        match self.last(name) {
            Some(end) => at <= end,
            None => false,
        }
    }

    // A DO variable is no INTEGER scalar variable, or is that of another loop or list round it.
    fn is_wrong(&self, name: Name, at: usize, lists: &[Name]) -> bool
        ensures { result ≡ is_wrong_round (scalar_in self.now) (round_at self.now at) name lists.now }
    {
        !self.is_scalar(name) || self.is_round(name, at, lists)
    }
}

impl LoopVariables<'_> {
    // A scalar is set that is a DO variable round it.
    #[tactic(auto, using(crate::proofs::jumps::Misuses::target_laws))]
    fn sets_round(&self, target: &Ref, at: usize, lists: &[Name]) -> bool
        ensures { result ≡ sets_round (round_at self.now at) lists.now (reference_of target.now).name
            (reference_of target.now).subscripts }
    {
        target.subs.is_empty() && self.is_round(target.name, at, lists)
    }

    // Such a scalar is read into.
    #[tactic(auto, using(crate::proofs::jumps::Misuses::target_laws))]
    fn reads_round(&self, expr: &Expr, at: usize, lists: &[Name]) -> bool
        ensures { result ≡ reads_round (round_at self.now at) lists.now (expression_of expr.now) }
    {
        match expr {
            Expr::Item(target) => self.sets_round(target, at, lists),
            Expr::Int(_) => false,
            Expr::Truth(_) => false,
            Expr::Un(..) => false,
            Expr::Bin(..) => false,
            Expr::Call(..) => false,
            Expr::List(..) => false,
            Expr::Spread(..) => false,
            Expr::Transpose(_) => false,
            Expr::Reshape(..) => false,
            Expr::Reduce(..) => false,
        }
    }

    // What is read into sets such a scalar; what is printed sets nothing.
    fn value_sets_round(&self, direction: Direction, expr: &Expr, at: usize, lists: &[Name]) -> bool
        ensures { result ≡ value_sets_round (round_at self.now at) direction lists.now (expression_of expr.now) }
    {
        match direction {
            Direction::Output => false,
            Direction::Input => self.reads_round(expr, at, lists),
        }
    }

    // The item has a wrong DO variable, or sets one; `lists` are the DO variables of the implied DO lists round it.
    #[cycle(items)]
    #[tactic(auto, using(crate::proofs::jumps::Misuses::item_laws))]
    fn misuses_item(
        &self,
        direction: Direction,
        item: &Item,
        at: usize,
        lists: &mut Vec<Name>,
    ) -> Result<bool, Memory>
        ensures lists { OnOk result (lists.new.items ≡ lists.old.items) }
        ensures wrong { IfOk result (λ wrong. wrong ≡ misuses_item (scalar_in self.now) (round_at self.now at)
            direction (item_of item.now) lists.old.items) }
    {
        match item {
            Item::One(expr) => Ok(self.value_sets_round(direction, expr, at, lists.as_slice())),
            Item::Text(_) => Ok(false),
            Item::Turns(list, variable, ..) => {
                if self.is_wrong(*variable, at, lists.as_slice()) {
                    return Ok(true);
                }
                lists.push(*variable)?;
                let wrong = self.misuses_items(direction, list, at, lists)?;
                lists.pop();
                Ok(wrong)
            }
        }
    }

    #[cycle(items)]
    fn misuses_items(
        &self,
        direction: Direction,
        list: &Seq<Item>,
        at: usize,
        lists: &mut Vec<Name>,
    ) -> Result<bool, Memory>
        ensures lists { OnOk result (lists.new.items ≡ lists.old.items) }
        ensures wrong { IfOk result (λ wrong. wrong ≡ misuses_items (scalar_in self.now) (round_at self.now at)
            direction (items (map item_of list.now)) lists.old.items) }
    {
        for item in list.as_slice() {
            let wrong = self.misuses_item(direction, item, at, lists)?;
            if wrong {
                return Ok(true);
            }
        }
        Ok(false)
    }

    // The statement has a wrong DO variable, or sets one that is round it.
    #[tactic(auto, using(crate::proofs::jumps::Misuses::statement_laws))]
    fn misuses(&self, alloc: Global, statement: &Stmt77, at: usize) -> Result<bool, Memory>
        ensures { IfOk result (λ wrong. wrong ≡ misuses_statement (scalar_in self.now) (round_at self.now at)
            (statement_of statement.now)) }
    {
        let mut lists = Vec::new(alloc);
        match statement {
            Stmt77::Assign(left, _) => Ok(self.sets_round(left, at, lists.as_slice())),
            Stmt77::Do(_, variable, ..) => Ok(self.is_wrong(*variable, at, lists.as_slice())),
            Stmt77::Read(list) => self.misuses_items(Direction::Input, list, at, &mut lists),
            Stmt77::Print(list) => self.misuses_items(Direction::Output, list, at, &mut lists),
            Stmt77::Program(_) => Ok(false),
            Stmt77::ImplicitNone => Ok(false),
            Stmt77::Declare(..) => Ok(false),
            Stmt77::Dimension(_) => Ok(false),
            Stmt77::Constants(_) => Ok(false),
            Stmt77::Go(_) => Ok(false),
            Stmt77::Test(..) => Ok(false),
            Stmt77::If(_) => Ok(false),
            Stmt77::ElseIf(_) => Ok(false),
            Stmt77::Else => Ok(false),
            Stmt77::EndIf => Ok(false),
            Stmt77::EndDo => Ok(false),
            Stmt77::Continue => Ok(false),
            Stmt77::Stop => Ok(false),
            Stmt77::End => Ok(false),
        }
    }
}

/// The place of the first statement that has a wrong DO variable, or sets one in the range of its loop.
pub fn wrong_do_variable(
    alloc: Global,
    text: &[Labelled],
    known: &KnownNames,
    ends: &LabelPlaces,
) -> Result<Option<usize>, Memory>
    requires names { listed known.now.uses ≡ plain.uses_in_text (text_of text.now) }
    requires ends { AreEndsIn ends.now (text_of text.now) }
    ensures { IfOk result (λ place. place ≡ first_index (has_wrong_do_variable (plain.uses_in_text (text_of text.now)))
        (text_of text.now)) }
{
    let mut variables = LoopVariables::new(alloc, &known.names);
    for (i, statement) in text.iter().enumerate() {
        let wrong = variables.misuses(alloc, statement.statement.action(), i)?;
        if wrong {
            return Ok(Some(i));
        }
        variables.pass(&statement.statement, ends)?;
    }
    Ok(None)
}
