//! The lines of the final store.
ghost use Rattle.std.specs.Prelude.{◌≡◌, ◌<◌, ◌≤◌, ◌+ℤ◌, ◌/◌, ◌%◌, ◌^◌, [], pos, map, length};
ghost use Rattle.std.specs.Prelude.{Some, OnOk, OnErr, MatchOption};
ghost use Rattle.std.specs.List.{flat_map};
ghost use Rattle.std.specs.Fmt.{signed_decimal};
ghost use Rattle.streams.specs.Causes.{Rose};
ghost use Rattle.tree.specs.Plain.{Declaration};
ghost use Rattle.tree.specs.View.{bounds_of};
ghost use Rattle.meaning.specs.Store.{Store, size_of, cells_of};
ghost use Rattle.meaning.specs.Texts.{subscripts_text, final_line};
ghost use Rattle.meaning.specs.Steps.{lines_of_cells, lines_of_name};
ghost use Rattle.meaning.specs.Extents.{elements_of};
ghost use Rattle.machine.specs.Storage.{bounds_list};
ghost use Rattle.machine.specs.Stored.{names_in, store_in, IsOf, bounds_here};
ghost use Rattle.machine.specs.Texts.{WritesText};
ghost use Rattle.machine.specs.Showing.{subscripts_at, element, behind_commas, held_text};

use crate::storage::Storage;
use crate::texts::write_value;
use crate::variables::{Variable, dims_of, elements};
use streams::{Sink, WriteFault, write_all};
use tree::{Dim, Name, Value};

impl Storage {
    /// A line for each variable and array element, in the order of declarations, and column-major order.
    pub fn show<K: Sink>(&self, out: &mut K) -> Result<(), WriteFault>
        ensures text { WritesText (K.taken out.old)
            (flat_map (λ (d : Declaration). lines_of_name d.name (store_in self.now)) (names_in self.now))
            (K.taken out.new) result }
        ensures untouched { flat_map (λ (d : Declaration). lines_of_name d.name (store_in self.now)) (names_in self.now)
            ≡ [] → out.new ≡ out.old }
        ensures fault { OnErr result (Rose (K.faults out.old) (K.faults out.new)) }
        ensures no_fault { OnOk result (K.faults out.new ≡ K.faults out.old) }
        ensures later { K.faults out.old ≤ K.faults out.new }
    {
        for name in self.variables.keys() {
            self.show_name(*name, out)?;
        }
        Ok(())
    }

    // A name that no source has, made by a vectoriser, has no lines.
    #[tactic(auto, using(crate::proofs::SourceNames::no_source_lines))]
    fn show_name<K: Sink>(&self, name: Name, out: &mut K) -> Result<(), WriteFault>
        ensures text { WritesText (K.taken out.old) (lines_of_name name (store_in self.now)) (K.taken out.new) result }
        ensures untouched { lines_of_name name (store_in self.now) ≡ [] → out.new ≡ out.old }
        ensures fault { OnErr result (Rose (K.faults out.old) (K.faults out.new)) }
        ensures no_fault { OnOk result (K.faults out.new ≡ K.faults out.old) }
        ensures later { K.faults out.old ≤ K.faults out.new }
    {
        if !name.is_source() {
            return Ok(());
        }
        match self.find(name) {
            None => Ok(()),
            Some(variable) => self.show_elements(name, variable, out),
        }
    }

    fn show_elements<K: Sink>(
        &self,
        name: Name,
        variable: &Variable,
        out: &mut K,
    ) -> Result<(), WriteFault>
        requires { IsOf (names_in self.now) name variable.now }
        ensures text { WritesText (K.taken out.old)
            (lines_of_cells name (Some (bounds_here variable.now)) (store_in self.now)) (K.taken out.new) result }
        ensures untouched { lines_of_cells name (Some (bounds_here variable.now)) (store_in self.now) ≡ []
            → out.new ≡ out.old }
        ensures fault { OnErr result (Rose (K.faults out.old) (K.faults out.new)) }
        ensures no_fault { OnOk result (K.faults out.new ≡ K.faults out.old) }
        ensures later { K.faults out.old ≤ K.faults out.new }
    {
        let dims = dims_of(&variable.decl.extent);
        let end = variable.start + elements(dims);
        write_lines(name, dims, &self.values[variable.start..end], out)
    }
}

/// The lines of a name with these bounds whose elements have these values, in column-major order.
pub fn write_lines<K: Sink>(
    name: Name,
    dims: &[Dim],
    values: &[Value],
    out: &mut K,
) -> Result<(), WriteFault>
    requires { length values.now ≡ elements_of (bounds_list dims.now) }
    ensures text { (s : Store) → map s.held (cells_of name (bounds_list dims.now)) ≡ values.now
        → WritesText (K.taken out.old) (lines_of_cells name (Some (bounds_list dims.now)) s) (K.taken out.new) result }
    ensures untouched { values.now ≡ [] → out.new ≡ out.old }
    ensures fault { OnErr result (Rose (K.faults out.old) (K.faults out.new)) }
    ensures no_fault { OnOk result (K.faults out.new ≡ K.faults out.old) }
    ensures later { K.faults out.old ≤ K.faults out.new }
{
    for (place, value) in values.iter().enumerate() {
        write_line(name, dims, place, *value, out)?;
    }
    Ok(())
}

// The line of the element at this place among those of its array.
fn write_line<K: Sink>(
    name: Name,
    dims: &[Dim],
    place: usize,
    value: Value,
    out: &mut K,
) -> Result<(), WriteFault>
    requires { place < elements_of (bounds_list dims.now) }
    ensures text { WritesText (K.taken out.old) (final_line (element name (bounds_list dims.now) place) value)
        (K.taken out.new) result }
    ensures fault { OnErr result (Rose (K.faults out.old) (K.faults out.new)) }
    ensures no_fault { OnOk result (K.faults out.new ≡ K.faults out.old) }
    ensures later { K.faults out.old ≤ K.faults out.new }
{
    write_all(out, name.text())?;
    write_subscripts(dims, place, out)?;
    write_held(value, out)
}

fn write_held<K: Sink>(value: Value, out: &mut K) -> Result<(), WriteFault>
    ensures text { WritesText (K.taken out.old) (held_text value) (K.taken out.new) result }
    ensures fault { OnErr result (Rose (K.faults out.old) (K.faults out.new)) }
    ensures no_fault { OnOk result (K.faults out.new ≡ K.faults out.old) }
    ensures later { K.faults out.old ≤ K.faults out.new }
{
    write_all(out, b" = ")?;
    write_value(value, out)?;
    write_all(out, b"\n")
}

// The subscripts of the element at this place among those of its array. A scalar has none.
#[tactic(auto, using(crate::proofs::RowLaws::row_laws))]
fn write_subscripts<K: Sink>(dims: &[Dim], place: usize, out: &mut K) -> Result<(), WriteFault>
    requires { place < elements_of (bounds_list dims.now) }
    ensures text { WritesText (K.taken out.old) (subscripts_text (subscripts_at (bounds_list dims.now) place))
        (K.taken out.new) result }
    ensures fault { OnErr result (Rose (K.faults out.old) (K.faults out.new)) }
    ensures no_fault { OnOk result (K.faults out.new ≡ K.faults out.old) }
    ensures later { K.faults out.old ≤ K.faults out.new }
{
    let Some((dim, inner)) = dims.split_first() else {
        return Ok(());
    };
    write_all(out, b"(")?;
    write_subscript(*dim, place, out)?;
    write_more(inner, row(*dim, place), out)?;
    write_all(out, b")")
}

// The subscripts behind the first one.
#[tactic(auto, using(crate::proofs::RowLaws::row_laws))]
fn write_more<K: Sink>(dims: &[Dim], place: usize, out: &mut K) -> Result<(), WriteFault>
    requires { place < elements_of (bounds_list dims.now) }
    ensures text { WritesText (K.taken out.old) (behind_commas (subscripts_at (bounds_list dims.now) place))
        (K.taken out.new) result }
    ensures fault { OnErr result (Rose (K.faults out.old) (K.faults out.new)) }
    ensures no_fault { OnOk result (K.faults out.new ≡ K.faults out.old) }
    ensures later { K.faults out.old ≤ K.faults out.new }
{
    let Some((dim, inner)) = dims.split_first() else {
        return Ok(());
    };
    write_all(out, b",")?;
    write_subscript(*dim, place, out)?;
    write_more(inner, row(*dim, place), out)
}

fn write_subscript<K: Sink>(dim: Dim, place: usize, out: &mut K) -> Result<(), WriteFault>
    requires { 0 < size_of (bounds_of dim) }
    ensures text { WritesText (K.taken out.old)
        (signed_decimal ((bounds_of dim).0 +ℤ pos (place % size_of (bounds_of dim))))
        (K.taken out.new) result }
    ensures fault { OnErr result (Rose (K.faults out.old) (K.faults out.new)) }
    ensures no_fault { OnOk result (K.faults out.new ≡ K.faults out.old) }
    ensures later { K.faults out.old ≤ K.faults out.new }
{
    let behind = column(dim, place);
    write_value(Value::Int(i128::from(dim.lower) + behind as i128), out)
}

// How many numbers the dimension has, unless they are more than the elements that any memory holds.
fn bounded_size(dim: Dim) -> Option<usize>
    ensures { MatchOption result (2 ^ 64 ≤ size_of (bounds_of dim)) (λ n. size_of (bounds_of dim) ≡ n) }
{
    if dim.upper < dim.lower {
        return Some(0);
    }
    usize::try_from(i128::from(dim.upper) - i128::from(dim.lower) + 1).ok()
}

// The place, among the elements of the other dimensions, of the row in which the element stands.
#[tactic(auto, using(crate::proofs::RowLaws::first_row))]
fn row(dim: Dim, place: usize) -> usize
    requires { 0 < size_of (bounds_of dim) }
    ensures { result ≡ place / size_of (bounds_of dim) }
{
    match bounded_size(dim) {
        None => 0,
        Some(size) => place / size,
    }
}

// The place of the element in its row.
#[tactic(auto, using(crate::proofs::RowLaws::first_row))]
fn column(dim: Dim, place: usize) -> usize
    requires { 0 < size_of (bounds_of dim) }
    ensures { result ≡ place % size_of (bounds_of dim) }
{
    match bounded_size(dim) {
        None => place,
        Some(size) => place % size,
    }
}
