//! The values of the variables and array elements of a program.
ghost use Rattle.std.specs.Prelude.{◌≡◌, vec_len};
ghost use Rattle.std.specs.Map.{keys_of, values_of};
ghost use Rattle.machine.specs.Propositions.{AreArrays-prop};
ghost use Rattle.machine.specs.Storage.{total, declared, own_names, starts_in, starts_of, AreArrays};

use crate::variables::Variable;
use indexmap::IndexMap;
use tree::{Name, Value};

/// The declared names, in a table that keeps their order, and the values of all. Those of an array stand in
/// column-major order.
#[derive(Drop)]
#[rattlefmt::skip]
pub struct Storage {
    pub(crate) variables: IndexMap<Name, Variable>,
    pub(crate) values: Vec<Value>,
    ghost named: { keys_of variables.entries ≡ own_names (values_of variables.entries) },
    ghost starts: { starts_in (values_of variables.entries) ≡ starts_of 0 (declared (values_of variables.entries)) },
    ghost filled: { vec_len values ≡ total (declared (values_of variables.entries)) },
    ghost sound: { AreArrays (declared (values_of variables.entries)) }
        by { AreArrays-prop (declared (values_of variables.entries)) },
}
