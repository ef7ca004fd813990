//! Made names among declarations.
ghost use Rattle.std.specs.Prelude.{◌≡◌, ◌∷◌, ◌++◌, if◌then◌else◌, IfOk, List, map};
ghost use Rattle.tree.specs.Plain.{Declaration};
ghost use Rattle.tree.specs.View.{declaration_of};
ghost use Rattle.translation.specs.made_declarations.Declaring.{declaration_by, declaration_of_name};
ghost use Rattle.translation.specs.made_declarations.Declaring.{with_declaration, with_declarations};

use crate::made_declarations::names::{MadeName, declaration, made_as};
use std::alloc::Global;
use std::cmp::Ordering;
use tree::{Decl, Memory, Name, Seq};

// Adds a declaration, and before it that of a made name if its place is there; whether the name's place is behind it.
fn add(all: &mut Seq<Decl>, decl: Decl, made: &MadeName) -> Result<bool, Memory>
    ensures { IfOk result (λ behind. (ds : List Declaration)
        → map declaration_of all.old ++ with_declaration (declaration_of decl ∷ ds) (declaration_of_name made.now)
        ≡ map declaration_of all.new ++ (if behind then with_declaration ds (declaration_of_name made.now) else ds)) }
{
    match made.name.cmp(&decl.name) {
        Ordering::Less => {
            all.push(declaration(made))?;
            all.push(decl)?;
            Ok(false)
        }
        Ordering::Equal => {
            all.push(decl)?;
            Ok(false)
        }
        Ordering::Greater => {
            all.push(decl)?;
            Ok(true)
        }
    }
}

// The declarations with a made name at its place, unless it is declared.
fn with_declaration(alloc: Global, decls: Seq<Decl>, made: &MadeName) -> Result<Seq<Decl>, Memory>
    ensures { IfOk result (λ all.
        map declaration_of all ≡ with_declaration (map declaration_of decls) (declaration_of_name made.now)) }
{
    let mut all = Seq::new(alloc);
    let mut missing = true;
    for decl in decls.into_vec() {
        if missing {
            missing = add(&mut all, decl, made)?;
        } else {
            all.push(decl)?;
        }
    }
    if missing {
        all.push(declaration(made))?;
    }
    Ok(all)
}

/// The declarations, which are in byte order, with each of these names at its place: as passes made it, if they did,
/// else as an INTEGER scalar.
pub fn with_declarations(
    alloc: Global,
    decls: Seq<Decl>,
    names: &[Name],
    made: &[MadeName],
) -> Result<Seq<Decl>, Memory>
    ensures { IfOk result (λ all. map declaration_of all ≡ with_declarations (map declaration_of decls)
        (map (declaration_by (map declaration_of_name made.now)) names.now)) }
{
    let mut all = decls;
    for name in names {
        all = with_declaration(alloc, all, &made_as(made, *name))?;
    }
    Ok(all)
}
