//! Names with bounds, and symbolic constants.
ghost use Rattle.std.specs.Prelude.{◌≡◌, pos, max, List, [], ◌∷◌, ◌++◌, map, IfOk, length, ◌≤◌};
ghost use Rattle.tree.specs.Limits.{array_dimensions};
ghost use Rattle.tree.specs.Plain.{Number};
ghost use Rattle.tree.specs.View.{expression_of};
ghost use Rattle.f77_grammar.specs.expressions.Phrases.{Phrase77, IsExpression77, written77, tree77_of, phrase_depth77};
ghost use Rattle.f77_expressions.specs.Reading.{Ends};
ghost use Rattle.f77_grammar.specs.expressions.Words as words;
ghost use Rattle.f77_grammar.specs.statements.Forms as Forms;
ghost use Rattle.f77_grammar.specs.statements.Forms.{Bound77, Plain, Bounded, IsEntity77, Definition, IsDefinition};
ghost use Rattle.f77_grammar.specs.statements.Forms.{written_entity77, entity_tree, entity_depth, written_definition};
ghost use Rattle.f77_grammar.specs.statements.Forms.{definition_tree, definition_depth, IsBound77, written_bound77};
ghost use Rattle.f77_grammar.specs.statements.Forms.{bound_tree, bound_depth, separated77};
ghost use Rattle.reading.specs.Characters.{IsList};
ghost use Rattle.f77_expressions.specs.Views.{words_of};
ghost use Rattle.f77_grammar.specs.syntax.Views.{bounds_of, entity_of, constant_of};
ghost use Rattle.f77_statement.specs.Parts.{Given, capped};
ghost use Rattle.f77_statement.specs.Declarations.{BeginsWithEntity, EndsEntity, IsTheEntity, BeginsWithDefinition};
ghost use Rattle.f77_statement.specs.Declarations.{IsTheDefinition, AreBoundsRead, AreTheBounds, BeginsWithBound};
ghost use Rattle.f77_statement.specs.Declarations.{EndsBound, IsBoundOf};
ghost use Rattle.f77_statement.specs.Separated.{EndsPart, EndsList, BeginsWithList, IsRead};

use f77_expressions::{
    Operand, Token, after_close, after_colon, after_comma, after_equals, after_head, after_name,
    read,
};
use f77_grammar::syntax::Entity;
use reading::Stop;
use std::alloc::Global;
use tree::{ARRAY_DIMENSIONS, Expr, Name, Seq};

// An upper bound alone.
#[tactic(auto, using(tree::proofs::Equations::expression_equations))]
fn upper(first: Operand) -> ((Expr, Expr), u16)
    ensures bounds { bounds_of result.0 ≡ (Number (pos 1), expression_of first.tree) }
    ensures depth { result.1 ≡ first.depth }
{
    ((Expr::Int(1), first.tree), first.depth)
}

fn both(first: Operand, second: Operand) -> ((Expr, Expr), u16)
    ensures bounds { bounds_of result.0 ≡ (expression_of first.tree, expression_of second.tree) }
    ensures depth { result.1 ≡ max first.depth second.depth }
{
    let depth = first.depth.max(second.depth);
    ((first.tree, second.tree), depth)
}

// The upper bound behind a colon.
fn read_upper(
    alloc: Global,
    first: Operand,
    tokens: &[Token],
) -> Result<((Expr, Expr), u16, &[Token]), Stop>
    ensures found { IfOk result (λ r. EndsBound (words_of tokens.now) first (bounds_of r.0) r.1 (words_of r.2.now)) }
    ensures only { (p : Phrase77) (rest : List words.Word77) → IsExpression77 p → Ends rest
        → words_of tokens.now ≡ written77 p ++ rest
        → Given result (λ r. (bounds_of r.0 ≡ (expression_of first.tree, tree77_of p))
        × (r.1 ≡ max first.depth (capped (phrase_depth77 p))) × (words_of r.2.now ≡ rest)) }
{
    let (second, rest) = read(alloc, tokens)?;
    let (bounds, depth) = both(first, second);
    Ok((bounds, depth, rest))
}

// The bounds of a dimension at the front of the words, with their depth, and what follows them.
fn read_bound(alloc: Global, tokens: &[Token]) -> Result<((Expr, Expr), u16, &[Token]), Stop>
    ensures found { IfOk result (λ r. BeginsWithBound (words_of tokens.now) (bounds_of r.0) r.1 (words_of r.2.now)) }
    ensures only { (b : Bound77) (rest : List words.Word77) → IsBound77 b → EndsPart rest
        → words_of tokens.now ≡ written_bound77 b ++ rest
        → Given result (λ r. (bounds_of r.0 ≡ bound_tree b) × IsBoundOf r.1 b × (words_of r.2.now ≡ rest)) }
{
    match read(alloc, tokens) {
        Ok((first, rest)) => match after_colon(rest) {
            Some(more) => read_upper(alloc, first, more),
            None => {
                let (bounds, depth) = upper(first);
                Ok((bounds, depth, rest))
            }
        },
        Err(stop) => Err(stop),
    }
}

// The bounds at the front of the words, with their depth, and what follows them.
#[tactic(auto, using(crate::proofs::CappedLaws::capped_max))]
fn read_bounds(alloc: Global, tokens: &[Token]) -> Result<(Seq<(Expr, Expr)>, u16, &[Token]), Stop>
    ensures found { IfOk result (λ r. AreBoundsRead (words_of tokens.now) r.0 r.1 (words_of r.2.now)) }
    ensures only { (bs : List Bound77) (last : List words.Word77) → IsList IsBound77 bs → EndsList last
        → words_of tokens.now ≡ separated77 written_bound77 bs ++ last
        → Given result (λ r. AreTheBounds bs last r.0 r.1 (words_of r.2.now)) }
{
    let (first, depth, tail) = read_bound(alloc, tokens)?;
    let mut bounds = Seq::new(alloc);
    bounds.push(first)?;
    let mut depth = depth;
    let mut rest = tail;
    'bounds: while let Some(more) = after_comma(rest) {
        let (next, next_depth, tail) = read_bound(alloc, more)?;
        bounds.push(next)?;
        depth = depth.max(next_depth);
        rest = tail;
    }
    Ok((bounds, depth, rest))
}

// A name with its bounds in parentheses, behind the opening one.
fn bounded(alloc: Global, name: Name, tokens: &[Token]) -> Result<(Entity, u16, &[Token]), Stop>
    ensures found { IfOk result (λ r. EndsEntity (words_of tokens.now) name (entity_of r.0) r.1 (words_of r.2.now)) }
    ensures only { (bs : List Bound77) (last : List words.Word77) → IsList IsBound77 bs
        → length bs ≤ array_dimensions
        → words_of tokens.now ≡ separated77 written_bound77 bs ++ (words.Close ∷ last)
        → Given result (λ r. IsTheEntity (Bounded name bs) last (entity_of r.0) r.1 (words_of r.2.now)) }
{
    let (dims, depth, rest) = read_bounds(alloc, tokens)?;
    let Some(rest) = after_close(rest) else {
        return Err(Stop::Syntax);
    };
    if dims.len() > ARRAY_DIMENSIONS {
        return Err(Stop::Syntax);
    }
    Ok((Entity { name, dims }, depth, rest))
}

// A name without bounds.
fn plain(alloc: Global, name: Name) -> Entity
    ensures { entity_of result ≡ entity_tree (Plain name) }
{
    Entity {
        name,
        dims: Seq::new(alloc),
    }
}

// The name at the front of the words, with its bounds where it has any, their depth, and what follows.
#[tactic(auto, using(crate::proofs::EntityLaws::entities))]
fn read_entity(alloc: Global, tokens: &[Token]) -> Result<(Entity, u16, &[Token]), Stop>
    ensures found { IfOk result (λ r. BeginsWithEntity (words_of tokens.now) (entity_of r.0) r.1 (words_of r.2.now)) }
    ensures only { (e : Forms.EntityForm77) (last : List words.Word77) → IsEntity77 e → EndsPart last
        → words_of tokens.now ≡ written_entity77 e ++ last
        → Given result (λ r. IsTheEntity e last (entity_of r.0) r.1 (words_of r.2.now)) }
{
    if let Some((name, rest)) = after_name(tokens) {
        return Ok((plain(alloc, name), 0, rest));
    }
    let Some((name, rest)) = after_head(tokens) else {
        return Err(Stop::Syntax);
    };
    let (entity, depth, rest) = bounded(alloc, name, rest)?;
    Ok((entity, depth, rest))
}

/// The names at the front of the words, with their bounds and the depth of these, and what follows.
pub(crate) fn read_entities(
    alloc: Global,
    tokens: &[Token],
) -> Result<(Seq<Entity>, u16, &[Token]), Stop>
    ensures found { IfOk result (λ r. BeginsWithList written_entity77 IsEntity77 entity_tree entity_depth
        (words_of tokens.now) (map entity_of r.0) r.1 (words_of r.2.now)) }
    ensures only { (es : List Forms.EntityForm77) (last : List words.Word77) → IsList IsEntity77 es → EndsList last
        → words_of tokens.now ≡ separated77 written_entity77 es ++ last
        → Given result (λ r. IsRead written_entity77 IsEntity77 entity_tree entity_depth es last (map entity_of r.0) r.1
        (words_of r.2.now)) }
{
    let (first, depth, tail) = read_entity(alloc, tokens)?;
    let mut entities = Seq::new(alloc);
    entities.push(first)?;
    let mut depth = depth;
    let mut rest = tail;
    'entities: while let Some(more) = after_comma(rest) {
        let (next, next_depth, tail) = read_entity(alloc, more)?;
        entities.push(next)?;
        depth = depth.max(next_depth);
        rest = tail;
    }
    Ok((entities, depth, rest))
}

// A symbolic constant with its expression and the depth of that.
fn defined(name: Name, value: Operand) -> ((Name, Expr), u16)
    ensures definition { constant_of result.0 ≡ record { name = name; value = expression_of value.tree } }
    ensures depth { result.1 ≡ value.depth }
{
    ((name, value.tree), value.depth)
}

// The name of a symbolic constant with its expression, its depth, and what follows.
#[tactic(auto, using(crate::proofs::EntityLaws::entities))]
fn read_definition(alloc: Global, tokens: &[Token]) -> Result<((Name, Expr), u16, &[Token]), Stop>
    ensures found { IfOk result (λ r. BeginsWithDefinition (words_of tokens.now) (constant_of r.0) r.1
        (words_of r.2.now)) }
    ensures only { (d : Definition) (last : List words.Word77) → IsDefinition d → EndsPart last
        → words_of tokens.now ≡ written_definition d ++ last
        → Given result (λ r. IsTheDefinition d last (constant_of r.0) r.1 (words_of r.2.now)) }
{
    let Some((name, rest)) = after_name(tokens) else {
        return Err(Stop::Syntax);
    };
    let Some(rest) = after_equals(rest) else {
        return Err(Stop::Syntax);
    };
    let (value, rest) = read(alloc, rest)?;
    let (definition, depth) = defined(name, value);
    Ok((definition, depth, rest))
}

/// The symbolic constants at the front of the words, with their expressions and the depth of these, and what follows.
pub(crate) fn read_definitions(
    alloc: Global,
    tokens: &[Token],
) -> Result<(Seq<(Name, Expr)>, u16, &[Token]), Stop>
    ensures found { IfOk result (λ r. BeginsWithList written_definition IsDefinition definition_tree definition_depth
        (words_of tokens.now) (map constant_of r.0) r.1 (words_of r.2.now)) }
    ensures only { (ds : List Definition) (last : List words.Word77) → IsList IsDefinition ds → EndsList last
        → words_of tokens.now ≡ separated77 written_definition ds ++ last
        → Given result (λ r. IsRead written_definition IsDefinition definition_tree definition_depth ds last
        (map constant_of r.0) r.1 (words_of r.2.now)) }
{
    let (first, depth, tail) = read_definition(alloc, tokens)?;
    let mut definitions = Seq::new(alloc);
    definitions.push(first)?;
    let mut depth = depth;
    let mut rest = tail;
    'definitions: while let Some(more) = after_comma(rest) {
        let (next, next_depth, tail) = read_definition(alloc, more)?;
        definitions.push(next)?;
        depth = depth.max(next_depth);
        rest = tail;
    }
    Ok((definitions, depth, rest))
}
