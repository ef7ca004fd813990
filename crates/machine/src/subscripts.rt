//! The subscripts of an element, and its place among the elements of its array.
ghost use Rattle.std.specs.Prelude.{◌≡◌, [], take, IfSome, ◌<◌, ◌≤◌};
ghost use Rattle.meaning.specs.Extents.{elements_of};
ghost use Rattle.machine.specs.Storage.{offset, AreBounds, bounds_list, with_more};

use crate::variables::join;
use tree::Dim;

// One more than an array has dimensions.
const MOST: usize = 8;

/// The numbers of subscripts, from left to right. Of more than seven, which no array has, it keeps eight.
#[derive(Drop)]
pub struct Subscripts {
    numbers: [i128; MOST],
    count: usize,
    ghost within: { count ≤ 8 },
}

impl Subscripts {
    pub fn new() -> Subscripts
        ensures { take result.count result.numbers ≡ [] }
    {
        Subscripts {
            numbers: [0; MOST],
            count: 0,
        }
    }

    /// Adds one at the end.
    pub fn push(&mut self, number: i128)
        ensures { take self.new.count self.new.numbers ≡ with_more (take self.old.count self.old.numbers) number }
    {
        if self.count < MOST {
            self.numbers[self.count] = number;
            self.count += 1;
        }
    }

    pub fn as_slice(&self) -> &[i128]
        ensures { result.now ≡ take self.now.count self.now.numbers }
    {
        &self.numbers[..self.count]
    }
}

/// The place of the element with these subscripts, where they are within the bounds.
#[tactic(auto, using(crate::proofs::StoreLaws::offset_laws))]
pub fn offset(numbers: &[i128], dims: &[Dim]) -> Option<usize>
    requires { AreBounds (bounds_list dims.now) }
    ensures place { result ≡ offset (bounds_list dims.now) numbers.now }
    ensures within { IfSome result (λ k. k < elements_of (bounds_list dims.now)) }
{
    let Some((dim, inner)) = dims.split_first() else {
        return no_dimension(numbers);
    };
    let (number, more) = numbers.split_first()?;
    let rest = offset(more, inner)?;
    join(*dim, *number, rest)
}

// A scalar has no subscripts.
fn no_dimension(numbers: &[i128]) -> Option<usize>
    ensures { result ≡ offset [] numbers.now }
{
    match numbers.split_first() {
        None => Some(0),
        Some(_) => None,
    }
}
