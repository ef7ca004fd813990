//! Whether pairings, directions and groups keep what callers have to keep.
ghost use Rattle.std.specs.List.Sorted.{IsStrictlyIncreasing};
ghost use Rattle.std.specs.Prelude.{◌≡◌, ◌≢◌, ℕ, ◌≤◌, ◌<◌, ◌↔◌, All, IsSome, IsTrue, length, map, pos, slice_index_or};
ghost use Rattle.subscripts.specs.Iterations.{once};
ghost use Rattle.subscripts.specs.Classes.{IsZiv};
ghost use Rattle.subscripts.specs.Shapes.{AreDirsOf, AreSpans, AreSymbols, IsBeside, IsForm, IsGroup, IsPairing};
ghost use Rattle.subscripts.specs.Shapes.{IsSmall};

use crate::affine::{Affine, Dir, Dirs, Span};
use crate::classes::classify;
use crate::pairing::{Class, Group, Pairing};

// The size that no coefficient and no constant is above.
const LARGEST: u64 = 1 << 40;

fn are_small(numbers: &[i64]) -> bool
    ensures { IsTrue result ↔ All IsSmall numbers.now }
{
    numbers.iter().all(|z| z.unsigned_abs() <= LARGEST)
}

fn are_small_symbols(symbols: &[(u16, i64)]) -> bool
    ensures { IsTrue result ↔ All (λ t. IsSmall t.1) symbols.now }
{
    symbols
        .iter()
        .all(|(_, times)| times.unsigned_abs() <= LARGEST)
}

// From a place on, all coefficients are 0.
fn are_zero_from(numbers: &[i64], depth: usize) -> bool
    ensures { IsTrue result ↔ ((k : ℕ) → depth ≤ k → slice_index_or numbers.now k (pos 0) ≡ pos 0) }
{
    for (place, number) in numbers.iter().enumerate() {
        if place >= depth && *number != 0 {
            return false;
        }
    }
    true
}

// Each symbol is above the one before.
fn are_rising(symbols: &[(u16, i64)]) -> bool
    ensures { IsTrue result ↔ IsStrictlyIncreasing (map (λ t. t.0) symbols.now) }
{
    for place in 1..symbols.len() {
        if symbols[place - 1].0 >= symbols[place].0 {
            return false;
        }
    }
    true
}

fn are_unused(symbols: &[(u16, i64)]) -> bool
    ensures { IsTrue result ↔ All (λ t. (t.0 ≡ 0) × (t.1 ≡ pos 0)) symbols.now }
{
    symbols
        .iter()
        .all(|(symbol, times)| *symbol == 0 && *times == 0)
}

// How many places stand before the first coefficient 0.
fn used_places(symbols: &[(u16, i64)]) -> usize
    ensures within { result ≤ length symbols.now }
    ensures used { (k : ℕ) → k < result → (slice_index_or symbols.now k (0, pos 0)).1 ≢ pos 0 }
    ensures ended { result < length symbols.now → (slice_index_or symbols.now result (0, pos 0)).1 ≡ pos 0 }
{
    for (place, symbol) in symbols.iter().enumerate() {
        if symbol.1 == 0 {
            return place;
        }
    }
    symbols.len()
}

// Symbols in rising order with coefficients other than 0, and then unused places.
fn are_symbols(symbols: &[(u16, i64)]) -> bool
    ensures { IsTrue result ↔ ((used : ℕ) × AreSymbols used symbols.now) }
{
    let used = used_places(symbols);
    are_rising(&symbols[..used]) && are_unused(&symbols[used..])
}

impl Affine {
    /// Whether it is a form under so many loops: coefficients past them are 0, symbols with coefficients other than 0
    /// stand first and in rising order, and no number is larger than 2^40 in size.
    pub fn is_form(&self, depth: usize) -> bool
        ensures { IsTrue result ↔ IsForm depth self.now }
    {
        are_small(&self.loops)
            && are_small_symbols(&self.syms)
            && self.constant.unsigned_abs() <= LARGEST
            && are_zero_from(&self.loops, depth)
            && are_symbols(&self.syms)
    }
}

impl Span {
    // The span of the constant trip 1.
    fn is_once(self) -> bool
        ensures { IsTrue result ↔ (self ≡ once) }
    {
        self.fixed && self.last == Some(1)
    }

    // A constant trip is known.
    fn has_end(self) -> bool
        ensures { IsTrue result ↔ (IsTrue self.fixed → IsSome self.last) }
    {
        !self.fixed || self.last.is_some()
    }
}

// The spans of so many loops, and then of the constant trip 1.
fn are_spans(spans: &[Span], depth: usize) -> bool
    ensures { IsTrue result → AreSpans depth spans.now }
{
    for (place, span) in spans.iter().enumerate() {
        if !span.has_end() || place >= depth && !span.is_once() {
            return false;
        }
    }
    true
}

// The same spans in so many places.
fn are_same(first: &[Span], second: &[Span], count: usize) -> bool
    requires first { count ≤ length first.now }
    requires second { count ≤ length second.now }
    ensures { IsTrue result → (k : ℕ) → k < count → slice_index_or first.now k once ≡ slice_index_or second.now k once }
{
    for place in 0..count {
        if first[place] != second[place] {
            return false;
        }
    }
    true
}

impl Pairing {
    /// Whether it keeps what each pairing has to: depths from the number of common loops to 7, coefficients and spans
    /// past them as of no loop, equal spans of common loops, symbols in order, and numbers of at most 2^40 in size.
    pub fn is_valid(&self) -> bool
        ensures { IsTrue result → IsPairing self.now }
    {
        let common = usize::from(self.common);
        let (from_depth, to_depth) = (usize::from(self.from_depth), usize::from(self.to_depth));
        if common > from_depth || common > to_depth || from_depth > 7 || to_depth > 7 {
            return false;
        }
        self.from.is_form(from_depth)
            && self.to.is_form(to_depth)
            && are_spans(&self.from_spans, from_depth)
            && are_spans(&self.to_spans, to_depth)
            && are_same(&self.from_spans, &self.to_spans, common)
    }
}

impl Dirs {
    /// Whether these are directions of the loops round both references, and nothing else.
    pub fn suit(&self, p: &Pairing) -> bool
        ensures { IsTrue result ↔ AreDirsOf p.now self.now }
    {
        if self.len != p.common {
            return false;
        }
        for (place, direction) in self.at.iter().enumerate() {
            if place >= usize::from(p.common) && *direction != Dir::Any {
                return false;
            }
        }
        true
    }
}

// A member of a group: a valid pairing of an SIV class or Miv.
fn is_member(p: &Pairing) -> bool
    ensures pairing { IsTrue result → IsPairing p.now }
    ensures linear { IsTrue result → IsTrue p.now.known }
    ensures not_ziv { IsTrue result → IsZiv p.now → ⊥ }
{
    if !p.is_valid() {
        return false;
    }
    match classify(p) {
        Class::Ziv | Class::Unknown => false,
        Class::Strong | Class::WeakZero | Class::WeakCrossing | Class::GeneralSiv | Class::Miv =>
            true,
    }
}

// The same loops stand round the references.
fn are_beside(p: &Pairing, q: &Pairing) -> bool
    ensures { IsTrue result → IsBeside p.now q.now }
{
    if p.common != q.common {
        return false;
    }
    if p.from_depth != q.from_depth {
        return false;
    }
    if p.to_depth != q.to_depth {
        return false;
    }
    are_same(&p.from_spans, &q.from_spans, 7) && are_same(&p.to_spans, &q.to_spans, 7)
}

impl Group {
    /// Whether it keeps what each group has to: from one to seven valid pairings of the same two references, each of an
    /// SIV class or Miv.
    pub fn is_valid(&self) -> bool
        ensures { IsTrue result → IsGroup self.now }
    {
        let count = usize::from(self.count);
        if count < 1 || count > 7 {
            return false;
        }
        let members = &self.at[..count];
        for member in members {
            if !is_member(member) || !are_beside(&members[0], member) {
                return false;
            }
        }
        true
    }
}
