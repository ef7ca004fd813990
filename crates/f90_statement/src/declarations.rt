//! Declared names with their dimensions.
ghost use Rattle.std.specs.Prelude.{ℕ, ◌≡◌, ◌≤◌, ◌++◌, ◌∷◌, [], false, List, Option, Some, IfOk, IfSome, length};
ghost use Rattle.tree.specs.OperatorTable.{Sign, Negation};
ghost use Rattle.f90_grammar.specs.Forms as forms;
ghost use Rattle.f90_grammar.specs.Forms.{IsBound90, written_bound90, SuitsAllocatable, written_dimension};
ghost use Rattle.f90_grammar.specs.Forms.{IsEntity90, written_entity90, separated90, written_sign};
ghost use Rattle.reading.specs.Characters.{IsList};
ghost use Rattle.f90_grammar.specs.Words as words;
ghost use Rattle.f90_expressions.specs.words.Tokens.{words_of};
ghost use Rattle.f90_statement.specs.Reading.{Begins, BeginsWithList, IsThe, EndsItem, EndsList, Given, GivenSome};
ghost use Rattle.f90_statement.specs.Reading.{EndsEntity, IsSigned};
ghost use Rattle.f90_statement.specs.Views.{AreOf, IsBoundOf, IsDimensionOf, IsEntityOf, is_minus};

use crate::fronts::{after_digits, after_minus, after_plus};
use crate::items::parts::{Separator, after, after_head, after_name};
use crate::nodes::{Bound, Dimension, Entity};
use f90_expressions::literal;
use f90_expressions::words::Token;
use reading::Stop;
use std::alloc::Global;
use tree::{ARRAY_DIMENSIONS, Name, Seq};

// Whether a minus sign stands there, and what follows it or a plus sign.
#[tactic(auto, using(crate::proofs::BoundLaws::signs))]
fn sign(tokens: &[Token]) -> (bool, &[Token])
    ensures found { IsSigned result.0 (words_of tokens.now) (words_of result.1.now) }
    ensures only { (s : Option Sign) (digits : List ℕ) (last : List words.Word90) → (s ≡ Some Negation → ⊥)
        → words_of tokens.now ≡ written_sign s ++ words.Digits digits ∷ last
        → (result.0 ≡ is_minus s) × (words_of result.1.now ≡ words.Digits digits ∷ last) }
{
    if let Some(rest) = after_plus(tokens) {
        return (false, rest);
    }
    match after_minus(tokens) {
        Some(rest) => (true, rest),
        None => (false, tokens),
    }
}

// The bound at the front of the words, and what follows it.
fn bound(tokens: &[Token]) -> Option<(Bound, &[Token])>
    ensures found { IfSome result (λ r. Begins IsBoundOf IsBound90 written_bound90 (words_of tokens.now) r.0
        (words_of r.1.now)) }
    ensures only { (b : forms.Bound90) (last : List words.Word90) → IsBound90 b
        → words_of tokens.now ≡ written_bound90 b ++ last
        → GivenSome result (λ r. IsThe IsBoundOf IsBound90 written_bound90 b last r.0 (words_of r.1.now)) }
{
    let (is_negative, rest) = sign(tokens);
    let Some((digits, rest)) = after_digits(rest) else {
        return None;
    };
    let magnitude = literal(digits.as_slice());
    let bound = Bound {
        is_negative,
        magnitude,
    };
    Some((bound, rest))
}

// The dimension of an array that isn't allocatable.
fn given_dimension(tokens: &[Token]) -> Option<(Dimension, &[Token])>
    ensures found { IfSome result (λ r. Begins IsDimensionOf (SuitsAllocatable false) written_dimension
        (words_of tokens.now) r.0 (words_of r.1.now)) }
    ensures only { (d : forms.Dimension) (last : List words.Word90) → SuitsAllocatable false d → EndsItem last
        → words_of tokens.now ≡ written_dimension d ++ last
        → GivenSome result (λ r. IsThe IsDimensionOf (SuitsAllocatable false) written_dimension d last r.0
        (words_of r.1.now)) }
{
    let Some((first, rest)) = bound(tokens) else {
        return None;
    };
    let Some(more) = after(Separator::Colon, rest) else {
        return Some((Dimension::Upper(first), rest));
    };
    let Some((last, rest)) = bound(more) else {
        return None;
    };
    Some((Dimension::Both(first, last), rest))
}

// The dimension at the front of the words, and what follows it.
fn dimension(is_allocatable: bool, tokens: &[Token]) -> Result<(Dimension, &[Token]), Stop>
    ensures found { IfOk result (λ r. Begins IsDimensionOf (SuitsAllocatable is_allocatable) written_dimension
        (words_of tokens.now) r.0 (words_of r.1.now)) }
    ensures only { (d : forms.Dimension) (last : List words.Word90) → SuitsAllocatable is_allocatable d → EndsItem last
        → words_of tokens.now ≡ written_dimension d ++ last
        → Given result (λ r. IsThe IsDimensionOf (SuitsAllocatable is_allocatable) written_dimension d last r.0
        (words_of r.1.now)) }
{
    if !is_allocatable {
        return match given_dimension(tokens) {
            Some((dimension, rest)) => Ok((dimension, rest)),
            None => Err(Stop::Syntax),
        };
    }
    match after(Separator::Colon, tokens) {
        Some(rest) => Ok((Dimension::Deferred, rest)),
        None => Err(Stop::Syntax),
    }
}

// The dimensions at the front of the words, and what follows them.
fn dimensions(
    alloc: Global,
    is_allocatable: bool,
    tokens: &[Token],
) -> Result<(Seq<Dimension>, &[Token]), Stop>
    ensures found { IfOk result (λ r. BeginsWithList IsDimensionOf (SuitsAllocatable is_allocatable)
        written_dimension (words_of tokens.now) r.0 (words_of r.1.now)) }
    ensures only { (ds : List forms.Dimension) (last : List words.Word90) → IsList (SuitsAllocatable is_allocatable) ds
        → EndsList last → words_of tokens.now ≡ separated90 written_dimension ds ++ last
        → Given result (λ r. AreOf IsDimensionOf r.0 ds × (words_of r.1.now ≡ last)) }
{
    let (first, tail) = dimension(is_allocatable, tokens)?;
    let mut dimensions = Seq::new(alloc);
    dimensions.push(first)?;
    let mut rest = tail;
    'dimensions: while let Some(more) = after(Separator::Comma, rest) {
        let (next, tail) = dimension(is_allocatable, more)?;
        dimensions.push(next)?;
        rest = tail;
    }
    Ok((dimensions, rest))
}

// A name without dimensions.
fn plain(alloc: Global, name: Name) -> Entity
    ensures { (x : List ℕ) → name ≡ x → IsEntityOf result (record { name = x; dimensions = [] }) }
{
    Entity {
        name,
        dimensions: Seq::new(alloc),
    }
}

// The dimensions of a name, behind their parenthesis, and what follows them.
fn bounded(
    alloc: Global,
    is_allocatable: bool,
    name: Name,
    tokens: &[Token],
) -> Result<(Entity, &[Token]), Stop>
    ensures found { IfOk result (λ r. EndsEntity is_allocatable (words_of tokens.now) name r.0 (words_of r.1.now)) }
    ensures only { (ds : List forms.Dimension) (last : List words.Word90)
        → IsList (SuitsAllocatable is_allocatable) ds → length ds ≤ 7
        → words_of tokens.now ≡ separated90 written_dimension ds ++ words.Close ∷ last
        → Given result (λ r. IsEntityOf r.0 (record { name = name; dimensions = ds }) × (words_of r.1.now ≡ last)) }
{
    match dimensions(alloc, is_allocatable, tokens) {
        Ok((dimensions, rest)) => {
            let Some(rest) = after(Separator::Close, rest) else {
                return Err(Stop::Syntax);
            };
            if dimensions.len() > ARRAY_DIMENSIONS {
                return Err(Stop::Syntax);
            }
            Ok((Entity { name, dimensions }, rest))
        }
        Err(stop) => Err(stop),
    }
}

// The declared name at the front of the words, and what follows it.
#[tactic(auto, using(crate::proofs::EntityLaws::entities))]
fn entity(alloc: Global, is_allocatable: bool, tokens: &[Token]) -> Result<(Entity, &[Token]), Stop>
    ensures found { IfOk result (λ r. Begins IsEntityOf (IsEntity90 is_allocatable) written_entity90
        (words_of tokens.now) r.0 (words_of r.1.now)) }
    ensures only { (e : forms.EntityForm90) (last : List words.Word90) → IsEntity90 is_allocatable e → EndsItem last
        → words_of tokens.now ≡ written_entity90 e ++ last
        → Given result (λ r. IsThe IsEntityOf (IsEntity90 is_allocatable) written_entity90 e last r.0
        (words_of r.1.now)) }
{
    if let Some((name, rest)) = after_name(tokens) {
        if is_allocatable {
            return Err(Stop::Syntax);
        }
        return Ok((plain(alloc, name), rest));
    }
    let Some((name, rest)) = after_head(tokens) else {
        return Err(Stop::Syntax);
    };
    match bounded(alloc, is_allocatable, name, rest) {
        Ok((entity, rest)) => Ok((entity, rest)),
        Err(stop) => Err(stop),
    }
}

/// The declared names at the front of the words, and what follows them.
pub(crate) fn entities(
    alloc: Global,
    is_allocatable: bool,
    tokens: &[Token],
) -> Result<(Seq<Entity>, &[Token]), Stop>
    ensures found { IfOk result (λ r. BeginsWithList IsEntityOf (IsEntity90 is_allocatable) written_entity90
        (words_of tokens.now) r.0 (words_of r.1.now)) }
    ensures only { (es : List forms.EntityForm90) (last : List words.Word90) → IsList (IsEntity90 is_allocatable) es
        → EndsList last → words_of tokens.now ≡ separated90 written_entity90 es ++ last
        → Given result (λ r. AreOf IsEntityOf r.0 es × (words_of r.1.now ≡ last)) }
{
    let (first, tail) = entity(alloc, is_allocatable, tokens)?;
    let mut entities = Seq::new(alloc);
    entities.push(first)?;
    let mut rest = tail;
    'entities: while let Some(more) = after(Separator::Comma, rest) {
        let (next, tail) = entity(alloc, is_allocatable, more)?;
        entities.push(next)?;
        rest = tail;
    }
    Ok((entities, rest))
}
