//! What names and symbolic constants of a program stand for.
ghost use Rattle.std.specs.Prelude.{◌≡◌};
ghost use Rattle.f77_grammar.specs.program.Uses.{is_array_name, is_constant_name};
ghost use Rattle.f77_names.specs.constants.Constants.{value_in, value_or_nought};
ghost use Rattle.f77_names.specs.UsesView.{listed};
ghost use Rattle.f77_tree.specs.Resolved.{AreInRange};

use f77_names::KnownNames;
use f77_names::constants::Constants;
use tree::{Name, Value};

/// What the names of a program stand for.
#[derive(Clone, Copy)]
pub struct Resolver<'a> {
    pub names: &'a KnownNames,
    pub constants: &'a Constants,
    ghost in_range: { AreInRange constants.now },
}

impl<'a> Resolver<'a> {
    /// By these names and constants.
    pub fn new(names: &'a KnownNames, constants: &'a Constants) -> Resolver<'a>
        requires { AreInRange constants.now }
        ensures names { result.names.now ≡ names.now }
        ensures constants { result.constants.now ≡ constants.now }
    {
        Resolver { names, constants }
    }

    /// The name is an array.
    pub fn is_array(&self, name: Name) -> bool
        ensures { result ≡ is_array_name (listed self.now.names.now.uses) name }
    {
        self.names.is_array(name)
    }

    /// The name is a symbolic constant.
    pub fn is_constant(&self, name: Name) -> bool
        ensures { result ≡ is_constant_name (listed self.now.names.now.uses) name }
    {
        self.names.is_constant(name)
    }

    /// The value of a symbolic constant, 0 where it has none.
    pub fn value(&self, name: Name) -> Value
        ensures { result ≡ value_or_nought (value_in self.now.constants.now name) }
    {
        match self.constants.value(name) {
            Some(value) => value,
            None => Value::Int(0),
        }
    }
}
