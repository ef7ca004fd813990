//! The tree of a whole program.
ghost use Rattle.std.specs.Prelude.{◌≡◌, None, map, IfOk};
ghost use Rattle.tree.specs.View.{program_of};
ghost use Rattle.f77_grammar.specs.program.Limits.{constants_of, has_bad_constant};
ghost use Rattle.f77_grammar.specs.program.Tree.{first_of_names};
ghost use Rattle.f77_laws.specs.trees.Steps.{tree_of};
ghost use Rattle.f77_grammar.specs.program.Uses.{is_title_role, names_that, uses_in_text};
ghost use Rattle.f77_names.specs.UsesView.{plain_use, listed};
ghost use Rattle.f77_names.specs.constants.Constants.{AreValues};
ghost use Rattle.f77_names.specs.constants.Declarations.{HaveDimensions};
ghost use Rattle.f77_grammar.specs.syntax.First.{first_index};
ghost use Rattle.meaning.specs.Dialect.{fortran77};
ghost use Rattle.f77_grammar.specs.syntax.Views.{text_of};

use crate::begin::rest_of_text;
use crate::resolver::Resolver;
use crate::targets::Targets;
use f77_grammar::syntax::Labelled;
use f77_names::constants::{Constants, declarations_of};
use f77_names::{KnownNames, Role, Use};
use std::alloc::Global;
use tree::{Memory, Name, Program77};

fn is_title(used: &Use) -> bool
    ensures { result ≡ is_title_role (plain_use used.now).role }
{
    match used.role {
        Role::Title => true,
        Role::Typed(_) | Role::Bounded(_) | Role::Defined => false,
        Role::Valued(_) | Role::Target(_) | Role::Counter => false,
    }
}

// The program's name.
fn title(uses: &[Use]) -> Option<Name>
    ensures { result ≡ first_of_names (names_that is_title_role (map plain_use uses.now)) }
{
    for used in uses {
        if is_title(used) {
            return Some(used.name);
        }
    }
    None
}

/// The tree that the statements form of a program in which no symbolic constant and no bound faults or leaves the range
/// of INTEGER.
pub fn tree(
    alloc: Global,
    text: &[Labelled],
    names: &KnownNames,
    constants: &Constants,
) -> Result<Program77, Memory>
    requires names { listed names.now.uses ≡ uses_in_text (text_of text.now) }
    requires constants { AreValues constants.now (constants_of (fortran77 constants.now.width) (text_of text.now)) }
    ensures dimensions { IfOk result (λ program. HaveDimensions program.decls) }
    ensures tree { first_index (has_bad_constant (fortran77 constants.now.width) (constants_of
        (fortran77 constants.now.width) (text_of text.now)))
        (text_of text.now) ≡ None
        → IfOk result (λ program. program_of program ≡ tree_of (fortran77 constants.now.width) (text_of text.now)) }
{
    let resolver = Resolver::new(names, constants);
    let targets = Targets::of_text(alloc, text)?;
    let rest = rest_of_text(alloc, &resolver, &targets, text)?;
    let body = rest.finish(alloc)?;
    let decls = declarations_of(alloc, text, names, constants)?;
    let name = title(names.uses.as_slice());
    Ok(Program77 { name, decls, body })
}
