//! What is known of declared names.
ghost use Rattle.std.specs.Prelude.{◌≡◌, [], ◌∷◌, ℕ, map, if◌then◌else◌, IfOk, OnOk, IsTrue, List};
ghost use Rattle.std.specs.Str.{bytes_eq};
ghost use Rattle.f90_grammar.specs.Blocks as grammar;
ghost use Rattle.f90_grammar.specs.Declared.{declarations_of, declares_again};
ghost use Rattle.f90_grammar.specs.Order.{Place90};
ghost use Rattle.f90_blocks.specs.places.forms.Places.{IsPlacedOf};
ghost use Rattle.f90_blocks.specs.places.First.{FindsFirst};
ghost use Rattle.f90_statement.specs.Views.{AreOf};
ghost use Rattle.f90_names.specs.kinds.declarations.Entries.{entry, entry_of, entries_in, Knows, Declares};
ghost use Rattle.f90_names.specs.kinds.declarations.Names.{found, AreNamesOf};

use f90_blocks::places::forms::Placed;
use f90_statement::{Entity, Statement};
use indexmap::IndexMap;
use std::alloc::Global;
use tree::{Kind, Memory, Name};

/// What a declaration says of a name.
#[derive(Clone, Copy, Debug)]
pub struct Declared {
    pub kind: Kind,
    /// How many dimensions it has, 0 for a scalar.
    pub rank: usize,
    /// Its bounds are given by ALLOCATE.
    pub is_allocatable: bool,
}

/// The declared names of a text, each with its first declaration.
#[derive(Drop)]
pub struct Names {
    pub(crate) table: IndexMap<Name, Declared>,
}

impl Names {
    fn new(alloc: Global) -> Names
        ensures { Knows result [] }
    {
        Names {
            table: IndexMap::new(alloc),
        }
    }

    /// What is known of the name, if it is declared.
    pub fn find(&self, name: Name) -> Option<Declared>
        ensures { result ≡ found self.now name }
    {
        self.table.get(&name).copied()
    }

    fn add(&mut self, name: Name, declared: Declared) -> Result<(), Memory>
        ensures { OnOk result ((x : List ℕ)
            → found self.new x ≡ (if bytes_eq name x then Some declared else found self.old x)) }
    {
        self.table.insert(name, declared)?;
        Ok(())
    }

    // Whether the name is declared already; if not, it is from here on.
    fn declare(&mut self, name: Name, declared: Declared) -> Result<bool, Memory>
        ensures { IfOk result (λ again. Declares self.old self.new (entry name declared ∷ []) again) }
    {
        if self.find(name).is_some() {
            return Ok(true);
        }
        self.add(name, declared)?;
        Ok(false)
    }

    // Whether one of the names is declared already, or stands before itself here.
    fn declare_all(
        &mut self,
        kind: Kind,
        is_allocatable: bool,
        entities: &[Entity],
    ) -> Result<bool, Memory>
        ensures { IfOk result (λ again.
            Declares self.old self.new (map (entry_of kind is_allocatable) entities.now) again) }
    {
        let mut again = false;
        for entity in entities {
            let rank = entity.dimensions.len();
            let declared = Declared {
                kind,
                rank,
                is_allocatable,
            };
            again = self.declare(entity.name, declared)? || again;
        }
        Ok(again)
    }

    // Whether the statement declares a name again.
    fn declare_in(&mut self, statement: &Statement) -> Result<bool, Memory>
        ensures { IfOk result (λ again. Declares self.old self.new (entries_in statement.now) again) }
    {
        match statement {
            Statement::Declare(kind, is_allocatable, entities) => {
                self.declare_all(*kind, *is_allocatable, entities.as_slice())
            }
            _ => Ok(false),
        }
    }

    /// The names that a text declares, each with its first declaration.
    pub fn of(alloc: Global, text: &[Placed]) -> Result<Names, Memory>
        ensures { (ps : List grammar.Placed) → AreOf IsPlacedOf text.now ps
            → IfOk result (λ names. AreNamesOf names (declarations_of ps)) }
    {
        let mut names = Names::new(alloc);
        for placed in text {
            names.declare_in(&placed.statement)?;
        }
        Ok(names)
    }
}

/// The place of the first statement that declares a name again, counted from 0.
pub fn first_repeated(alloc: Global, text: &[Placed]) -> Result<Option<usize>, Memory>
    ensures { (ps : List grammar.Placed) → AreOf IsPlacedOf text.now ps
        → IfOk result (λ place.
        FindsFirst ps (λ (p : Place90). IsTrue (declares_again p.before p.here.form)) place) }
{
    let mut names = Names::new(alloc);
    for (i, placed) in text.iter().enumerate() {
        if names.declare_in(&placed.statement)? {
            return Ok(Some(i));
        }
    }
    Ok(None)
}
