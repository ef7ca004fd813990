//! The declarations of the variables of a program, in byte order of their names.
ghost use Rattle.std.specs.Prelude.{◌≡◌, ℕ, List, ◌&&◌, None, if◌then◌else◌, IfOk, OnOk, map, length};
ghost use Rattle.std.specs.Str.{bytes_eq};
ghost use Rattle.tree.specs.View as view;
ghost use Rattle.tree.specs.Plain.{Given};
ghost use Rattle.meaning.specs.Store.{Store};
ghost use Rattle.f77_grammar.specs.program.Limits as plain;
ghost use Rattle.f77_grammar.specs.program.Tree as tree;
ghost use Rattle.f77_grammar.specs.program.Uses.{Use77 as Use', uses_in_text, is_variable, kind_of_name, or_integer};
ghost use Rattle.f77_grammar.specs.syntax.First.{first_index};
ghost use Rattle.f77_grammar.specs.syntax.Views.{bounds_of, entity_of, text_of};
ghost use Rattle.f77_names.specs.UsesView.{plain_use, listed};
ghost use Rattle.f77_names.specs.NameFacts.{is_variable_by};
ghost use Rattle.f77_names.specs.constants.Constants.{AreValues, store_of};
ghost use Rattle.f77_names.specs.constants.Declarations.{Ascends, AreFacts, narrowed, narrow, narrow_declaration};
ghost use Rattle.meaning.specs.Dialect.{fortran77};
ghost use Rattle.f77_names.specs.constants.Declarations.{narrow_declarations, dimensions, variables_from};
ghost use Rattle.f77_names.specs.constants.Declarations.{all_declarations, HasDimensions, HaveDimensions};

use crate::constants::constants::Constants;
use crate::{Facts, KnownNames, Names, Use};
use f77_grammar::syntax::{Entity, Labelled};
use std::alloc::Global;
use tree::{Decl, Dim, Expr, Extent, Fault, Kind, Memory, Name, Seq};

// A number, and 0 for one that 64 bits don't hold.
fn narrowed(number: i128) -> i64
    ensures { result ≡ narrowed number }
{
    i64::try_from(number).unwrap_or(0)
}

fn dim(dimension: Result<(i128, i128), Fault>) -> Dim
    ensures { view.bounds_of result ≡ narrow (tree.bounds_or_empty dimension) }
{
    match dimension {
        Ok((lower, upper)) => Dim {
            lower: narrowed(lower),
            upper: narrowed(upper),
        },
        Err(_) => Dim { lower: 1, upper: 0 },
    }
}

// Whether the entity gives bounds to the name.
#[tactic(auto, using(crate::proofs::constants::DeclarationLaws::bounds_laws))]
fn bounds_name(entity: &Entity, name: Name) -> bool
    ensures { result ≡ (plain.has_bounds (map bounds_of entity.now.dims) && bytes_eq entity.now.name name) }
{
    !entity.dims.is_empty() && entity.name == name
}

// The bounds of a name in these entities; none: it has none there.
fn bounds_among(entities: &[Entity], name: Name) -> &[(Expr, Expr)]
    ensures { map bounds_of result.now ≡ plain.bounds_among (map entity_of entities.now) name }
{
    for entity in entities {
        if bounds_name(entity, name) {
            return entity.dims.as_slice();
        }
    }
    &[]
}

fn bounds_of_name(text: &[Labelled], name: Name) -> &[(Expr, Expr)]
    ensures { map bounds_of result.now ≡ plain.bounds_of_name (text_of text.now) name }
{
    for statement in text {
        let bounds = bounds_among(statement.statement.entities(), name);
        if !bounds.is_empty() {
            return bounds;
        }
    }
    &[]
}

// Puts a name into a list in byte order, where it isn't there yet.
fn add(names: &mut Vec<Name>, name: Name) -> Result<(), Memory>
    ensures { Ascends names.old.items → OnOk result (names.new.items ≡ tree.with_name name names.old.items) }
{
    match names.binary_search(&name) {
        Ok(_) => Ok(()),
        Err(place) => {
            names.insert(place, name)?;
            Ok(())
        }
    }
}

fn is_variable_by(facts: Facts) -> bool
    ensures { result ≡ is_variable_by facts }
{
    (facts.kind.is_some() || facts.dimensions.is_some() || facts.bare) && !facts.constant
}

fn is_variable(names: &Names, name: Name) -> bool
    ensures { (us : List Use') → AreFacts names.now us → result ≡ is_variable us name }
{
    is_variable_by(names.facts(name))
}

fn kind_or_integer(kind: Option<Kind>) -> Kind
    ensures { result ≡ or_integer kind }
{
    match kind {
        Some(kind) => kind,
        None => Kind::Integer,
    }
}

fn kind_of(names: &Names, name: Name) -> Kind
    ensures { (us : List Use') → AreFacts names.now us → result ≡ kind_of_name us name }
{
    kind_or_integer(names.facts(name).kind)
}

fn add_variable(variables: &mut Vec<Name>, names: &Names, name: Name) -> Result<(), Memory>
    ensures { (us : List Use') → AreFacts names.now us → Ascends variables.old.items
        → OnOk result (variables.new.items
        ≡ (if is_variable us name then tree.with_name name variables.old.items else variables.old.items)) }
{
    if !is_variable(names, name) {
        return Ok(());
    }
    add(variables, name)
}

// The variables, in byte order.
fn variables(alloc: Global, uses: &[Use], names: &Names) -> Result<Vec<Name>, Memory>
    ensures { (us : List Use') → AreFacts names.now us
        → IfOk result (λ variables. variables.items ≡ variables_from us (map plain_use uses.now)) }
{
    let mut variables = Vec::new(alloc);
    for used in uses {
        add_variable(&mut variables, names, used.name)?;
    }
    Ok(variables)
}

impl Constants {
    fn dims(&self, alloc: Global, bounds: &[(Expr, Expr)]) -> Result<Seq<Dim>, Memory>
        ensures bounds { IfOk result (λ dims.
            map view.bounds_of dims ≡ map narrow (dimensions self.now.width (store_of self.now)
            (map bounds_of bounds.now))) }
        ensures count { IfOk result (λ dims. length dims ≡ length bounds.now) }
    {
        let mut dims = Seq::new(alloc);
        for pair in bounds {
            dims.push(dim(self.dimension(alloc, pair)?))?;
        }
        Ok(dims)
    }

    fn extent(&self, alloc: Global, bounds: &[(Expr, Expr)]) -> Result<Extent, Memory>
        ensures extent { IfOk result (λ extent.
            view.extent_of extent ≡ Given (map narrow (dimensions self.now.width (store_of self.now)
            (map bounds_of bounds.now)))) }
        ensures dimensions { IfOk result HasDimensions }
    {
        if bounds.is_empty() {
            return Ok(Extent::Scalar);
        }
        Ok(Extent::Fixed(self.dims(alloc, bounds)?))
    }

    fn declaration(
        &self,
        alloc: Global,
        text: &[Labelled],
        names: &Names,
        name: Name,
    ) -> Result<Decl, Memory>
        ensures dimensions { IfOk result (λ declaration. HasDimensions declaration.extent) }
        ensures declaration { (us : List Use') → AreFacts names.now us
            → IfOk result (λ declaration.
            view.declaration_of declaration
            ≡ narrow_declaration (tree.declaration_of_name (fortran77 self.now.width) us (store_of self.now)
            (text_of text.now) name)) }
    {
        let extent = self.extent(alloc, bounds_of_name(text, name))?;
        let kind = kind_of(names, name);
        Ok(Decl { name, kind, extent })
    }

    #[tactic(auto, using(crate::proofs::constants::DeclarationLaws::more_dimensions))]
    fn declare(
        &self,
        alloc: Global,
        text: &[Labelled],
        names: &Names,
        variables: &[Name],
    ) -> Result<Seq<Decl>, Memory>
        ensures dimensions { IfOk result HaveDimensions }
        ensures declarations { (us : List Use') → AreFacts names.now us
            → IfOk result (λ declarations.
            map view.declaration_of declarations
            ≡ narrow_declarations self.now.width us (store_of self.now) (text_of text.now) variables.now) }
    {
        let mut declarations = Seq::new(alloc);
        for name in variables {
            declarations.push(self.declaration(alloc, text, names, *name)?)?;
        }
        Ok(declarations)
    }
}

/// The declarations of a program in which no symbolic constant and no bound faults or leaves the range of INTEGER.
pub fn declarations_of(
    alloc: Global,
    text: &[Labelled],
    known: &KnownNames,
    constants: &Constants,
) -> Result<Seq<Decl>, Memory>
    requires { listed known.now.uses ≡ uses_in_text (text_of text.now) }
    ensures dimensions { IfOk result HaveDimensions }
    ensures declarations { (s : Store) → AreValues constants.now s
        → first_index (plain.has_bad_constant (fortran77 constants.now.width) s) (text_of text.now) ≡ None
        → IfOk result (λ declarations.
        map view.declaration_of declarations
        ≡ all_declarations constants.now.width (uses_in_text (text_of text.now)) s (text_of text.now)) }
{
    let variables = variables(alloc, known.uses.as_slice(), &known.names)?;
    constants.declare(alloc, text, &known.names, variables.as_slice())
}
