//! The variables of constructors' loops, which have values of their own (ISO/IEC 1539:1991, section 4.5).
ghost use Rattle.array_expressions.specs.Locals.{Holds};

use tree::Name;

/// The number that the variable of a constructor's loop has now.
#[derive(Clone, Copy, Debug)]
pub struct Local {
    pub name: Name,
    pub number: i128,
}

/// The number of the innermost variable of this name, if there is one.
pub fn number_of(locals: &[Local], name: Name) -> Option<i128>
    ensures { Holds locals.now name result }
{
    let mut found = None;
    for local in locals {
        if local.name == name {
            found = Some(local.number);
        }
    }
    found
}
