//! What the names of a program are.
ghost use Rattle.std.specs.Prelude.{◌≡◌, ℕ, List, OnOk, IfOk, if◌then◌else◌, map};
ghost use Rattle.std.specs.Str.{bytes_eq};
ghost use Rattle.f77_names.specs.UsesView.{role_of, plain_use};
ghost use Rattle.f77_grammar.specs.program.Uses as plain;
ghost use Rattle.f77_names.specs.NameFacts.{nothing_known, facts_with, facts_in, AreNamesOf, is_variable_by};
ghost use Rattle.f77_names.specs.NameFacts.{is_array_by, is_function_by, kind_by, dimensions_by, function_by};
ghost use Rattle.f77_names.specs.NameFacts.{function_of, called_by, called_of};

use crate::uses::{Role, Use};
use indexmap::IndexMap;
use std::alloc::Global;
use tree::{Fun, Kind, Memory, Name};

/// What the uses of a name say of it.
#[derive(Clone, Copy, Debug, PartialEq, Eq)]
pub struct Facts {
    /// The first type that it is given.
    pub kind: Option<Kind>,
    /// The dimensions that it is first given; none: it has no bounds.
    pub dimensions: Option<usize>,
    /// It stands somewhere without a list in parentheses.
    pub bare: bool,
    /// A PARAMETER defines it.
    pub constant: bool,
    /// It is the program's name.
    pub title: bool,
}

impl Facts {
    fn nothing() -> Facts
        ensures { result ≡ nothing_known }
    {
        Facts {
            kind: None,
            dimensions: None,
            bare: false,
            constant: false,
            title: false,
        }
    }

    /// The name is a variable.
    pub fn is_variable(self) -> bool
        ensures { result ≡ is_variable_by self }
    {
        (self.kind.is_some() || self.dimensions.is_some() || self.bare) && !self.constant
    }

    /// The name is an array.
    pub fn is_array(self) -> bool
        ensures { result ≡ is_array_by self }
    {
        self.dimensions.is_some() && !self.constant
    }

    fn is_function(self, name: Name) -> bool
        ensures { result ≡ is_function_by self name }
    {
        Fun::read77(name.text()).is_some() && !self.is_variable() && !self.constant
    }

    fn function(self, name: Name) -> Option<Fun>
        ensures { result ≡ function_by self name }
    {
        if self.is_function(name) {
            Fun::read77(name.text())
        } else {
            None
        }
    }

    // With one use more.
    fn with(self, role: Role) -> Facts
        ensures { result ≡ facts_with self (role_of role) }
    {
        let Facts {
            kind,
            dimensions,
            bare,
            constant,
            title,
        } = self;
        match role {
            Role::Title => Facts {
                kind,
                dimensions,
                bare,
                constant,
                title: true,
            },
            Role::Typed(given) => Facts {
                kind: kind.or(Some(given)),
                dimensions,
                bare,
                constant,
                title,
            },
            Role::Bounded(given) => Facts {
                kind,
                dimensions: dimensions.or(Some(given)),
                bare,
                constant,
                title,
            },
            Role::Defined => Facts {
                kind,
                dimensions,
                bare,
                constant: true,
                title,
            },
            Role::Valued(list) | Role::Target(list) => Facts {
                kind,
                dimensions,
                bare: bare || list == 0,
                constant,
                title,
            },
            Role::Counter => Facts {
                kind,
                dimensions,
                bare: true,
                constant,
                title,
            },
        }
    }
}

/// The names of a program, in the order in which they first stand.
#[derive(Drop)]
pub struct Names {
    table: IndexMap<Name, Facts>,
}

impl Names {
    pub(crate) fn new(alloc: Global) -> Names
        ensures { (x : List ℕ) → facts_in result x ≡ nothing_known }
    {
        Names {
            table: IndexMap::new(alloc),
        }
    }

    /// What is known of a name: nothing, where it doesn't stand in the program.
    pub fn facts(&self, name: Name) -> Facts
        ensures { result ≡ facts_in self.now name }
    {
        match self.table.get(&name) {
            Some(facts) => *facts,
            None => Facts::nothing(),
        }
    }

    /// The name is a variable: it has a type or bounds, or stands without a list in parentheses, and is no symbolic
    /// constant.
    pub fn is_variable(&self, name: Name) -> bool
        ensures known { result ≡ is_variable_by (facts_in self.now name) }
        ensures exact { (us : List plain.Use77) → AreNamesOf self.now us → result ≡ plain.is_variable us name }
    {
        self.facts(name).is_variable()
    }

    /// The name is a symbolic constant.
    pub fn is_constant(&self, name: Name) -> bool
        ensures known { result ≡ (facts_in self.now name).constant }
        ensures exact { (us : List plain.Use77) → AreNamesOf self.now us → result ≡ plain.is_constant_name us name }
    {
        self.facts(name).constant
    }

    /// The name is an array.
    pub fn is_array(&self, name: Name) -> bool
        ensures known { result ≡ is_array_by (facts_in self.now name) }
        ensures exact { (us : List plain.Use77) → AreNamesOf self.now us → result ≡ plain.is_array_name us name }
    {
        self.facts(name).is_array()
    }

    /// The name is a function's, and no variable or symbolic constant hides it.
    pub fn is_function(&self, name: Name) -> bool
        ensures known { result ≡ is_function_by (facts_in self.now name) name }
        ensures exact { (us : List plain.Use77) → AreNamesOf self.now us → result ≡ plain.is_function us name }
    {
        self.facts(name).is_function(name)
    }

    /// The function that the name names, where nothing hides it.
    pub fn function(&self, name: Name) -> Option<Fun>
        ensures known { result ≡ function_by (facts_in self.now name) name }
        ensures exact { (us : List plain.Use77) → AreNamesOf self.now us → result ≡ function_of us name }
    {
        self.facts(name).function(name)
    }

    /// The function that is called where the name stands so. A program's name by itself calls nothing.
    #[tactic(auto, using(crate::proofs::TitleLaws::call_laws))]
    pub fn called(&self, used: &Use) -> Option<Fun>
        ensures known { result ≡ called_by (facts_in self.now used.now.name) (plain_use used.now) }
        ensures exact { (us : List plain.Use77) → AreNamesOf self.now us → result ≡ called_of us (plain_use used.now) }
    {
        if used.role.is_title() {
            return None;
        }
        self.function(used.name)
    }

    /// The kind of a variable or symbolic constant, INTEGER where no type is given.
    pub fn kind(&self, name: Name) -> Kind
        ensures known { result ≡ kind_by (facts_in self.now name) }
        ensures exact { (us : List plain.Use77) → AreNamesOf self.now us → result ≡ plain.kind_of_name us name }
    {
        self.facts(name).kind.unwrap_or(Kind::Integer)
    }

    /// How many dimensions a declaration gives the name, 0 where it gives none.
    pub fn dimensions(&self, name: Name) -> usize
        ensures known { result ≡ dimensions_by (facts_in self.now name) }
        ensures exact { (us : List plain.Use77) → AreNamesOf self.now us → result ≡ plain.dimensions_of_name us name }
    {
        self.facts(name).dimensions.unwrap_or(0)
    }

    pub(crate) fn note(&mut self, name: Name, role: Role) -> Result<(), Memory>
        ensures { OnOk result ((x : List ℕ) → facts_in self.new x
            ≡ (if bytes_eq name x then facts_with (facts_in self.old name) (role_of role) else facts_in self.old x)) }
    {
        let facts = self.facts(name).with(role);
        self.table.insert(name, facts)?;
        Ok(())
    }
}

/// The names of a program, by all their uses.
pub(crate) fn names_of(alloc: Global, uses: &[Use]) -> Result<Names, Memory>
    ensures { IfOk result (λ names. AreNamesOf names (map plain_use uses.now)) }
{
    let mut names = Names::new(alloc);
    for used in uses {
        names.note(used.name, used.role)?;
    }
    Ok(names)
}
