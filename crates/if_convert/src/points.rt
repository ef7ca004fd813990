//! Points of a block.
ghost use Rattle.std.specs.Prelude.{◌≡◌, ◌++◌, ◌+◌, map, filter, IfOk, OnOk};
ghost use Rattle.nest.specs.View.{guarded_of, part_of};
ghost use Rattle.if_convert.specs.Arms.{IsAdded, followed, rest_begun};
ghost use Rattle.if_convert.specs.Masks.{all_parts_of};
ghost use Rattle.if_convert.specs.Points.{entered, numbered_jumps, cleared_for, source_statement, jump_made, jump_at};
ghost use Rattle.if_convert.specs.Points.{is_left, resumed, behind_label, rejoined};

use crate::masks::{add_asked, add_cleared, add_set, none_left, not_mask, under};
use nest::{GuardedStmt, Part};
use std::alloc::Global;
use tree::{Memory, Seq};

/// A jump: its mask, and its label.
#[derive(Clone, Copy, Debug)]
pub struct Jumped {
    pub mask: u32,
    pub label: u32,
}

/// A point of a block: the mask under which statements stand there, the jumps that are under way to labels further on,
/// whether statements are left out there, behind a jump, and the numbers of the next jump in an IF and the next mask.
#[derive(Drop)]
pub struct MaskPoint {
    pub guard: Option<u32>,
    pub pending: Seq<Jumped>,
    pub skips: bool,
    pub jump: u32,
    pub mask: u32,
}

/// The sum of two numbers of masks.
pub(crate) fn sum(a: u32, b: u32) -> Result<u32, Memory>
    ensures { IfOk result (λ c. c ≡ a + b) }
{
    match a.checked_add(b) {
        Some(sum) => Ok(sum),
        None => Err(Memory),
    }
}

/// Adds jumps behind others.
pub(crate) fn add_jumps(jumps: &mut Seq<Jumped>, more: &[Jumped]) -> Result<(), Memory>
    ensures { OnOk result (jumps.new ≡ jumps.old ++ more.now) }
{
    for jump in more {
        jumps.push(*jump)?;
    }
    Ok(())
}

// The jumps that don't lead to a label.
fn left_from(alloc: Global, jumps: &[Jumped], label: u32) -> Result<Seq<Jumped>, Memory>
    ensures { IfOk result (λ left. left ≡ filter (is_left label) jumps.now) }
{
    let mut left = Seq::new(alloc);
    for jump in jumps {
        if jump.label != label {
            left.push(*jump)?;
        }
    }
    Ok(left)
}

impl MaskPoint {
    /// The first point of a block.
    pub(crate) fn entered(alloc: Global, guard: Option<u32>, jump: u32, mask: u32) -> MaskPoint
        ensures { result ≡ entered guard jump mask }
    {
        MaskPoint {
            guard,
            pending: Seq::new(alloc),
            skips: false,
            jump,
            mask,
        }
    }

    /// Gives so many jumps their numbers where the point isn't in an IF.
    pub(crate) fn number(&mut self, deep: bool, jumps: u32) -> Result<(), Memory>
        ensures { OnOk result (self.new ≡ numbered_jumps deep jumps self.old) }
    {
        if deep {
            return Ok(());
        }
        let mask = sum(self.mask, jumps)?;
        self.jump = self.mask;
        self.mask = mask;
        Ok(())
    }

    /// Statements stand under the block's own mask again, unless a jump of these is under way.
    fn resume(
        &mut self,
        alloc: Global,
        line: u32,
        own: Option<u32>,
        pending: Seq<Jumped>,
        made: &mut Seq<Part>,
    ) -> Result<(), Memory>
        ensures { OnOk result (IsAdded line (resumed own pending self.old.jump self.old.mask)
            self.new (map part_of made.old) (map part_of made.new)) }
    {
        self.skips = false;
        if pending.is_empty() {
            self.guard = own;
            self.pending = pending;
            return Ok(());
        }
        let next = sum(self.mask, 1)?;
        let test = none_left(alloc, pending.as_slice())?;
        add_asked(alloc, line, own, self.mask, test, made)?;
        self.guard = Some(self.mask);
        self.mask = next;
        self.pending = pending;
        Ok(())
    }

    /// A label is passed.
    pub(crate) fn pass(
        &mut self,
        alloc: Global,
        line: u32,
        own: Option<u32>,
        label: u32,
        made: &mut Seq<Part>,
    ) -> Result<(), Memory>
        ensures { OnOk result (IsAdded line (behind_label own label self.old)
            self.new (map part_of made.old) (map part_of made.new)) }
    {
        let left = left_from(alloc, self.pending.as_slice(), label)?;
        self.resume(alloc, line, own, left, made)
    }

    /// Adds that the masks of so many jumps from here on are false, where the point isn't in an IF.
    pub(crate) fn clear(
        &self,
        alloc: Global,
        line: u32,
        deep: bool,
        jumps: u32,
        made: &mut Seq<Part>,
    ) -> Result<(), Memory>
        ensures { OnOk result (map part_of made.new
            ≡ map part_of made.old ++ all_parts_of line (cleared_for deep self.now.jump jumps)) }
    {
        if deep {
            return Ok(());
        }
        add_cleared(alloc, line, self.jump, sum(self.jump, jumps)?, made)
    }

    /// A jump to a label, whose mask has its number already.
    fn leave(
        &mut self,
        alloc: Global,
        line: u32,
        deep: bool,
        label: u32,
        made: &mut Seq<Part>,
    ) -> Result<(), Memory>
        ensures { OnOk result (IsAdded line (jump_made deep label self.old)
            self.new (map part_of made.old) (map part_of made.new)) }
    {
        let next = sum(self.jump, 1)?;
        self.clear(alloc, line, deep, 1, made)?;
        add_set(alloc, line, self.guard, self.jump, true, made)?;
        let jump = Jumped {
            mask: self.jump,
            label,
        };
        self.pending.push(jump)?;
        self.jump = next;
        self.skips = true;
        Ok(())
    }

    /// A jump to a label.
    pub(crate) fn go_to(
        &mut self,
        alloc: Global,
        line: u32,
        deep: bool,
        label: u32,
        made: &mut Seq<Part>,
    ) -> Result<(), Memory>
        ensures { OnOk result (IsAdded line (jump_at deep label self.old)
            self.new (map part_of made.old) (map part_of made.new)) }
    {
        if self.skips {
            return Ok(());
        }
        self.number(deep, 1)?;
        self.leave(alloc, line, deep, label, made)
    }

    /// A statement of the source.
    #[tactic(auto, using(nest::proofs::Equations::part_equations))]
    pub(crate) fn keep(
        &self,
        alloc: Global,
        line: u32,
        stmt: &GuardedStmt,
        made: &mut Seq<Part>,
    ) -> Result<(), Memory>
        ensures { OnOk result (IsAdded line (source_statement (guarded_of stmt.now) self.now)
            self.now (map part_of made.old) (map part_of made.new)) }
    {
        if self.skips {
            return Ok(());
        }
        made.push(Part::Run(under(alloc, self.guard, stmt)?))
    }

    /// The rest of an IF gets a mask, where an arm with this mask stands before it.
    pub(crate) fn begin_rest(
        &mut self,
        alloc: Global,
        line: u32,
        last: Option<u32>,
        made: &mut Seq<Part>,
    ) -> Result<(), Memory>
        ensures { OnOk result (IsAdded line (rest_begun last self.old)
            self.new (map part_of made.old) (map part_of made.new)) }
    {
        let Some(last) = last else {
            return Ok(());
        };
        let next = sum(self.mask, 1)?;
        let test = not_mask(alloc, last)?;
        add_asked(alloc, line, self.guard, self.mask, test, made)?;
        self.guard = Some(self.mask);
        self.mask = next;
        Ok(())
    }

    /// Behind a block of an IF, which ends there.
    pub(crate) fn follow(&mut self, end: &MaskPoint) -> Result<(), Memory>
        ensures { OnOk result (self.new ≡ followed self.old end.now) }
    {
        add_jumps(&mut self.pending, end.pending.as_slice())?;
        self.jump = end.jump;
        self.mask = end.mask;
        Ok(())
    }

    /// Behind an IF, out of which these jumps lead, and behind which the next numbers are these.
    pub(crate) fn rejoin(
        &mut self,
        alloc: Global,
        line: u32,
        own: Option<u32>,
        end: &MaskPoint,
        made: &mut Seq<Part>,
    ) -> Result<(), Memory>
        ensures { OnOk result (IsAdded line (rejoined own self.old end.now.pending end.now.jump end.now.mask)
            self.new (map part_of made.old) (map part_of made.new)) }
    {
        self.jump = end.jump;
        self.mask = end.mask;
        if end.pending.is_empty() {
            self.skips = false;
            return Ok(());
        }
        let mut pending = copied(alloc, self.pending.as_slice())?;
        add_jumps(&mut pending, end.pending.as_slice())?;
        self.resume(alloc, line, own, pending, made)
    }
}

fn copied(alloc: Global, jumps: &[Jumped]) -> Result<Seq<Jumped>, Memory>
    ensures { IfOk result (λ copies. copies ≡ jumps.now) }
{
    Ok(Seq::from_vec(Vec::from_slice(alloc, jumps)?))
}
