//! Symbolic constants and their values.
ghost use Rattle.std.specs.Prelude.{◌≡◌, ℕ, None, Some, List, map, if◌then◌else◌, IfOk, OnOk};
ghost use Rattle.std.specs.Str.{bytes_eq};
ghost use Rattle.tree.specs.View.{expression_of};
ghost use Rattle.meaning.specs.Dialect.{fortran77};
ghost use Rattle.f77_grammar.specs.program.Limits as plain;
ghost use Rattle.f77_grammar.specs.syntax.Views.{constant_of, text_of};
ghost use Rattle.f77_names.specs.constants.Constants.{value_in, store_of, AreValues};
ghost use Rattle.f77_names.specs.constants.Steps.{kept};

use f77_grammar::syntax::Labelled;
use indexmap::IndexMap;
use std::alloc::Global;
use tree::{Expr, Fault, Memory, Name, Value, Width};

/// The symbolic constants of a program that have a value. One whose expression faults, or leaves the range of INTEGER,
/// has none.
#[derive(Drop)]
pub struct Constants {
    table: IndexMap<Name, Value>,
    /// How wide INTEGER is.
    pub width: Width,
}

// The value, where INTEGER has it.
#[tactic(auto, using(crate::proofs::constants::StoreLaws::range_laws))]
fn in_range(width: Width, value: Result<Value, Fault>) -> Result<Value, Fault>
    ensures { result ≡ kept width value }
{
    match value? {
        Value::Int(number) => {
            if !width.holds(number) {
                return Err(Fault::Overflow);
            }
            Ok(Value::Int(number))
        }
        Value::Truth(truth) => Ok(Value::Truth(truth)),
    }
}

impl Constants {
    fn new(alloc: Global, width: Width) -> Constants
        ensures values { (x : List ℕ) → value_in result x ≡ None }
        ensures width { result.width ≡ width }
    {
        Constants {
            table: IndexMap::new(alloc),
            width,
        }
    }

    /// The value of a constant; none: the name is no constant, or a constant without value.
    pub fn value(&self, name: Name) -> Option<Value>
        ensures { result ≡ value_in self.now name }
    {
        self.table.get(&name).copied()
    }

    fn insert(&mut self, name: Name, value: Value) -> Result<(), Memory>
        ensures values { OnOk result ((x : List ℕ)
            → value_in self.new x ≡ (if bytes_eq name x then Some value else value_in self.old x)) }
        ensures width { self.new.width ≡ self.old.width }
    {
        self.table.insert(name, value)?;
        Ok(())
    }

    fn set(&mut self, name: Name, value: Result<Value, Fault>) -> Result<(), Memory>
        ensures values { OnOk result (store_of self.new ≡ plain.with_named_value name value (store_of self.old)) }
        ensures width { self.new.width ≡ self.old.width }
    {
        match value {
            Ok(value) => self.insert(name, value),
            Err(_) => Ok(()),
        }
    }

    /// The value that a constant or a bound has with an expression, or its fault: a number outside INTEGER has one.
    pub(crate) fn constant_value(
        &self,
        alloc: Global,
        expr: &Expr,
    ) -> Result<Result<Value, Fault>, Memory>
        ensures { IfOk result (λ value.
            value ≡ plain.named_constant_value (fortran77 self.now.width) (expression_of expr.now)
            (store_of self.now)) }
    {
        let value = self.evaluate(alloc, expr)?;
        Ok(in_range(self.width, value))
    }

    fn define(&mut self, alloc: Global, constant: &(Name, Expr)) -> Result<(), Memory>
        ensures values { OnOk result (store_of self.new
            ≡ plain.with_named_constant (fortran77 self.old.width) (constant_of constant.now) (store_of self.old)) }
        ensures width { self.new.width ≡ self.old.width }
    {
        let value = self.constant_value(alloc, &constant.1)?;
        self.set(constant.0, value)
    }

    fn define_all(&mut self, alloc: Global, constants: &[(Name, Expr)]) -> Result<(), Memory>
        ensures values { OnOk result (store_of self.new
            ≡ plain.with_constants (fortran77 self.old.width) (map constant_of constants.now) (store_of self.old)) }
        ensures width { self.new.width ≡ self.old.width }
    {
        for constant in constants {
            self.define(alloc, constant)?;
        }
        Ok(())
    }
}

/// The symbolic constants of a program.
pub fn constants_of(alloc: Global, text: &[Labelled], width: Width) -> Result<Constants, Memory>
    ensures values { IfOk result
        (λ constants. AreValues constants (plain.constants_of (fortran77 width) (text_of text.now))) }
    ensures width { IfOk result (λ constants. constants.width ≡ width) }
{
    let mut constants = Constants::new(alloc, width);
    for statement in text {
        constants.define_all(alloc, statement.statement.definitions())?;
    }
    Ok(constants)
}
