//! Which names are functions.
ghost use Rattle.std.specs.Prelude.{◌≡◌, ℕ, List, OnErr, OnOk};
ghost use Rattle.tree.specs.Functions.{intrinsic_named};
ghost use Rattle.meaning.specs.Names.{is_among};

use std::alloc::Global;
use tree::{Intrinsic, Memory, Name, Seq};

/// The names that are functions: those of Fortran 90's functions but for names that are declared (ISO/IEC 1539:1991,
/// section 14.1.2).
#[derive(Drop)]
pub struct Functions {
    // Of the declared names those that are names of functions, each once.
    pub(crate) hidden: Seq<Name>,
}

fn is_among(name: Name, names: &[Name]) -> bool
    ensures { result ≡ is_among names.now name }
{
    names.iter().any(|one| name == *one)
}

impl Functions {
    ghost use Rattle.f90_trees.specs.Hiding.{function_in, without};

    /// All functions.
    pub fn new(alloc: Global) -> Functions
        ensures { (x : List ℕ) → function_in result x ≡ intrinsic_named x }
    {
        Functions {
            hidden: Seq::new(alloc),
        }
    }

    /// The name is declared.
    #[tactic(auto, using(crate::proofs::HidingLaws::hiding))]
    pub fn hide(&mut self, name: Name) -> Result<(), Memory>
        ensures ok { OnOk result ((x : List ℕ) → function_in self.new x ≡ without name (function_in self.old) x) }
        ensures err { OnErr result (self.new ≡ self.old) }
    {
        if is_among(name, self.hidden.as_slice()) {
            return Ok(());
        }
        let Some(_) = Intrinsic::read90(name.text()) else {
            return Ok(());
        };
        self.hidden.push(name)
    }

    /// The function that the name names.
    pub fn read(&self, name: Name) -> Option<Intrinsic>
        ensures { result ≡ function_in self.now name }
    {
        if is_among(name, self.hidden.as_slice()) {
            return None;
        }
        Intrinsic::read90(name.text())
    }
}
