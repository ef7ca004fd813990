//! Names of programs, variables and constants.
ghost use Rattle.std.specs.Prelude.{◌≡◌, ◌≤◌, ◌-◌, ◌↔◌, ◌++◌, length, replicate, IsTrue, IsSome, IfSome, Some, nat_eq};
ghost use Rattle.std.specs.Prelude.{refl};
ghost use Rattle.std.specs.List.{list_all};
ghost use Rattle.std.specs.Ordering.{nat_cmp};
ghost use Rattle.std.specs.Hash as fed;
ghost use Rattle.std.specs.Cmp.{partial_equiv_from_equiv};
ghost use Rattle.std.specs.Cmp.Lexicographic.{pointwise, slice_cmp, nat_list_eq_equiv, nat_list_cmp_total, texts_po};
ghost use Rattle.std.specs.Cmp.Lexicographic.{texts_ties};
ghost use Rattle.std.specs.Cmp.Rules.{hashing};
ghost use Rattle.std.proofs.Common.{rules};
ghost use Rattle.tree.specs.Names.{IsName, IsSourceName, is_name_byte};

use std::cmp::Ordering;
use std::hash::{Hash, Hasher};
use std::marker::Model;

const LONGEST: usize = 31;

/// A name: a letter, then letters, digits and underscores, at most 31 bytes in all (ISO/IEC 1539:1991, 3.2.1).
///
/// Names are compared byte by byte, and a letter differs from the same letter of the other case.
#[derive(Clone, Copy, Debug)]
pub struct Name {
    bytes: [u8; LONGEST],
    len: u8,
}

impl Model for Name {
    ghost use Rattle.std.specs.Prelude.{ℕ, List, take};

    ghost Value = { List ℕ };

    ghost use Rattle.tree.specs.Padded.{IsPadded, padded};

    ghost view = { λ a. take a.len a.bytes };

    ghost invariant = { IsPadded };

    ghost inverse = { padded };

    ghost use Rattle.tree.specs.Padded.{padded-take};

    ghost inverse_ok = { λ a h. padded-take a h };
}

fn may_follow(byte: u8) -> bool
    ensures { result ≡ is_name_byte byte }
{
    byte.is_ascii_alphanumeric() || byte == b'_'
}

fn all_may_follow(text: &[u8]) -> bool
    ensures { result ≡ list_all is_name_byte text.now }
{
    text.iter().all(|byte| may_follow(*byte))
}

fn is_name(text: &[u8]) -> bool
    ensures { IsTrue result ↔ IsName text.now }
{
    match text {
        [] => false,
        [first, ..] => {
            first.is_ascii_alphabetic() && text.len() <= LONGEST && all_may_follow(text)
        }
    }
}

// The text, then zeros.
fn padded(text: &[u8]) -> [u8; LONGEST]
    requires { length text.now ≤ 31 }
    ensures { result ≡ text.now ++ replicate (31 - length text.now) 0 }
{
    let mut bytes = [0; LONGEST];
    bytes[..text.len()].copy_from_slice(text);
    bytes
}

impl Name {
    /// The name that is so spelled.
    pub fn read(text: &[u8]) -> Option<Name>
        ensures name { IsSome result ↔ IsName text.now }
        ensures same { IfSome result (λ name. name ≡ text.now) }
    {
        if !is_name(text) {
            return None;
        }
        Some(Name {
            bytes: padded(text),
            len: text.len() as u8,
        })
    }

    /// Whether FORTRAN 77 has the name too: it has at most six bytes and no underscore (ANSI X3.9-1978, 2.2).
    pub fn is_source(self) -> bool
        ensures { IsTrue result ↔ IsSourceName self }
    {
        self.len <= 6 && !self.text().contains(&b'_')
    }

    /// The bytes of the name.
    pub fn text(&self) -> &[u8]
        ensures same { result.now ≡ self.now }
        ensures name { IsName self.now }
    {
        &self.bytes[..usize::from(self.len)]
    }
}

impl PartialEq for Name {
    ghost eq = { pointwise nat_eq };

    ghost laws = { partial_equiv_from_equiv nat_list_eq_equiv };

    fn eq(&self, other: &Name) -> bool {
        self.text() == other.text()
    }
}

impl Eq for Name {
    ghost laws = { nat_list_eq_equiv };
}

impl PartialOrd for Name {
    ghost partial_cmp = { λ x y. Some (slice_cmp nat_cmp x y) };

    ghost laws = { texts_po };

    fn partial_cmp(&self, other: &Name) -> Option<Ordering> {
        Some(self.cmp(other))
    }
}

impl Ord for Name {
    ghost cmp = { slice_cmp nat_cmp };

    ghost total = { nat_list_cmp_total };

    ghost matches_partial_cmp = { λ x y. refl };

    ghost matches_eq = { texts_ties };

    fn cmp(&self, other: &Name) -> Ordering {
        self.text().cmp(other.text())
    }
}

impl Hash for Name {
    ghost hash_input = { fed.slice fed.u8 };

    ghost respects_eq = { Prim.search (hashing, rules) };

    fn hash<H: Hasher>(&self, state: &mut H) {
        self.text().hash(state);
    }
}
