//! The statements of each keyword, behind the keyword.
ghost use Rattle.std.specs.Prelude.{◌≡◌, [], ◌∷◌, ◌++◌, IfOk, List, map};
ghost use Rattle.std.specs.List.{list_all};
ghost use Rattle.f77_grammar.specs.expressions.Words as words;
ghost use Rattle.f77_grammar.specs.syntax.Views as view;
ghost use Rattle.f77_grammar.specs.syntax.Views.{entity_of, constant_of};
ghost use Rattle.f77_expressions.specs.Views.{words_of};
ghost use Rattle.tree.specs.declared.ops.Kind.TheVariants as kinds;
ghost use Rattle.f77_grammar.specs.statements.Forms as forms;
ghost use Rattle.f77_grammar.specs.statements.Forms.{Form77, Definition, IsDefinition, written_definition, IsEntity77};
ghost use Rattle.f77_grammar.specs.statements.Forms.{separated77, written_entity77, statement_of, form_words};
ghost use Rattle.reading.specs.Characters.{IsList};
ghost use Rattle.f77_grammar.specs.statements.Forms.{form_depth};
ghost use Rattle.f77_expressions.specs.Symbols.{symbols_of};
ghost use Rattle.f77_statement.specs.Formed.{IsLoneName, IsFound, AreEntities, IsEntitiesOf, has_bounds, AreConstants};
ghost use Rattle.f77_statement.specs.Formed.{AreConstantsOf};
ghost use Rattle.f77_statement.specs.Keywords.{IsProgramAfter, IsDeclarationAfter, IsDimensionAfter, AreConstantsAfter};
ghost use Rattle.f77_statement.specs.Parts.{Given, IsFormedOf};

use crate::declarations::{read_definitions, read_entities};
use crate::formed::Formed;
use f77_expressions::{Symbol, Token, after_close, after_open, has_wide, words};
use f77_grammar::syntax::{Entity, Stmt77};
use reading::Stop;
use std::alloc::Global;
use tree::{Expr, Kind, Name, Seq};

// The name that is the only word.
fn lone_name(tokens: &[Token]) -> Option<Name>
    ensures { IsLoneName result (words_of tokens.now) }
{
    match tokens {
        [Token::Name(name)] => Some(*name),
        _ => None,
    }
}

#[tactic(auto, using(f77_grammar::proofs::syntax::Equations::statement_equations))]
fn titled(name: Name) -> Formed
    ensures { IsFormedOf result (forms.Program name) }
{
    Formed {
        statement: Stmt77::Program(name),
        wide: false,
        depth: 0,
    }
}

/// PROGRAM, behind the keyword (section 14.1).
#[tactic(auto, using(crate::proofs::StatementLaws::programs))]
pub(crate) fn program(alloc: Global, text: &[Symbol]) -> Result<Formed, Stop>
    ensures found { IfOk result (IsFound (IsProgramAfter (symbols_of text.now))) }
    ensures only { (f : Form77) → IsProgramAfter (symbols_of text.now) f → Given result (λ made. IsFormedOf made f) }
{
    let tokens = words(alloc, text)?;
    match lone_name(tokens.as_slice()) {
        Some(name) => Ok(titled(name)),
        None => Err(Stop::Syntax),
    }
}

// All words as names with bounds, with the depth of these.
#[tactic(auto, using(crate::proofs::StatementLaws::entities))]
fn entities(alloc: Global, tokens: &[Token]) -> Result<(Seq<Entity>, u16), Stop>
    ensures found { IfOk result (λ r. AreEntities (words_of tokens.now) (map entity_of r.0) r.1) }
    ensures only { (es : List forms.EntityForm77) → IsList IsEntity77 es
        → words_of tokens.now ≡ separated77 written_entity77 es
        → Given result (λ r. IsEntitiesOf (map entity_of r.0) r.1 es) }
{
    let (entities, depth, rest) = read_entities(alloc, tokens)?;
    if !rest.is_empty() {
        return Err(Stop::Syntax);
    }
    Ok((entities, depth))
}

/// A type statement, behind the keyword (section 8.4).
#[tactic(auto, using(crate::proofs::StatementLaws::declarations))]
pub(crate) fn declaration(alloc: Global, kind: Kind, text: &[Symbol]) -> Result<Formed, Stop>
    ensures found { IfOk result (IsFound (IsDeclarationAfter kind (symbols_of text.now))) }
    ensures only { (f : Form77) → IsDeclarationAfter kind (symbols_of text.now) f
        → Given result (λ made. IsFormedOf made f) }
{
    let tokens = words(alloc, text)?;
    let (entities, depth) = entities(alloc, tokens.as_slice())?;
    Ok(Formed {
        statement: Stmt77::Declare(kind, entities),
        wide: has_wide(tokens.as_slice()),
        depth,
    })
}

fn is_bounded(entity: &Entity) -> bool
    ensures { result ≡ has_bounds (entity_of entity.now) }
{
    !entity.dims.is_empty()
}

// Whether each name has bounds.
fn are_bounded(entities: &[Entity]) -> bool
    ensures { result ≡ list_all has_bounds (map entity_of entities.now) }
{
    for entity in entities {
        if !is_bounded(entity) {
            return false;
        }
    }
    true
}

/// DIMENSION, behind the keyword (section 8.1).
#[tactic(auto, using(crate::proofs::StatementLaws::dimensions))]
pub(crate) fn dimension(alloc: Global, text: &[Symbol]) -> Result<Formed, Stop>
    ensures found { IfOk result (IsFound (IsDimensionAfter (symbols_of text.now))) }
    ensures only { (f : Form77) → IsDimensionAfter (symbols_of text.now) f → Given result (λ made. IsFormedOf made f) }
{
    let tokens = words(alloc, text)?;
    let (entities, depth) = entities(alloc, tokens.as_slice())?;
    if !are_bounded(entities.as_slice()) {
        return Err(Stop::Syntax);
    }
    Ok(Formed {
        statement: Stmt77::Dimension(entities),
        wide: has_wide(tokens.as_slice()),
        depth,
    })
}

// All words as symbolic constants in parentheses.
#[tactic(auto, using(crate::proofs::StatementLaws::constants))]
fn definitions(alloc: Global, tokens: &[Token]) -> Result<(Seq<(Name, Expr)>, u16), Stop>
    ensures found { IfOk result (λ r. AreConstants (words_of tokens.now) (map constant_of r.0) r.1) }
    ensures only { (ds : List Definition) → IsList IsDefinition ds
        → words_of tokens.now ≡ words.Open ∷ (separated77 written_definition ds ++ words.Close ∷ [])
        → Given result (λ r. AreConstantsOf (map constant_of r.0) r.1 ds) }
{
    let Some(rest) = after_open(tokens) else {
        return Err(Stop::Syntax);
    };
    let (definitions, depth, rest) = read_definitions(alloc, rest)?;
    let Some(rest) = after_close(rest) else {
        return Err(Stop::Syntax);
    };
    if !rest.is_empty() {
        return Err(Stop::Syntax);
    }
    Ok((definitions, depth))
}

/// PARAMETER, behind the keyword (section 8.6).
#[tactic(auto, using(crate::proofs::StatementLaws::parameters))]
pub(crate) fn constants(alloc: Global, text: &[Symbol]) -> Result<Formed, Stop>
    ensures found { IfOk result (IsFound (AreConstantsAfter (symbols_of text.now))) }
    ensures only { (f : Form77) → AreConstantsAfter (symbols_of text.now) f → Given result (λ made. IsFormedOf made f) }
{
    let tokens = words(alloc, text)?;
    let (definitions, depth) = definitions(alloc, tokens.as_slice())?;
    Ok(Formed {
        statement: Stmt77::Constants(definitions),
        wide: has_wide(tokens.as_slice()),
        depth,
    })
}
