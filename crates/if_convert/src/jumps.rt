//! How many jumps get masks.
ghost use Rattle.std.specs.Prelude.{◌≡◌, ◌+◌, IfOk, false, map};
ghost use Rattle.nest.specs.View.{branch_of, part_of};
ghost use Rattle.if_convert.specs.Arms.{jumps_in_arm, jumps_in_arms, jumps_in_list};
ghost use Rattle.if_convert.specs.Jumps.{jumps_in, skips_behind};

use crate::points::sum;
use nest::{NestArm, Part};
use tree::{Memory, Seq};

// Whether what stands behind a part is left out.
#[tactic(auto, using(crate::proofs::JumpLaws::skip_laws))]
fn skips_behind(skips: bool, part: &Part) -> bool
    ensures { result ≡ skips_behind skips (part_of part.now) }
{
    match part {
        Part::Run(_) => skips,
        Part::Turns(_, _) => skips,
        Part::Choice(_, _) => skips,
        Part::Label(_) => false,
        Part::Jump(_) => true,
    }
}

#[cycle(jumps)]
#[tactic(auto, using(crate::proofs::JumpLaws::jump_laws))]
fn jumps_in(skips: bool, part: &Part) -> Result<u32, Memory>
    ensures { IfOk result (λ count. count ≡ jumps_in skips (part_of part.now)) }
{
    match part {
        Part::Run(_) => Ok(0),
        Part::Turns(_, _) => Ok(0),
        Part::Choice(arms, other) => {
            if skips {
                return Ok(0);
            }
            sum(jumps_in_arms(arms)?, jumps_in_parts(false, other)?)
        }
        Part::Label(_) => Ok(0),
        Part::Jump(_) => {
            if skips {
                return Ok(0);
            }
            Ok(1)
        }
    }
}

/// How many jumps of an IF get masks.
pub(crate) fn jumps_in_choice(arms: &Seq<NestArm>, other: &Seq<Part>) -> Result<u32, Memory>
    ensures { IfOk result (λ count. count
        ≡ jumps_in_arms (map branch_of arms.now) + jumps_in_list false (map part_of other.now)) }
{
    sum(jumps_in_arms(arms)?, jumps_in_parts(false, other)?)
}

#[cycle(jumps)]
fn jumps_in_arms(arms: &Seq<NestArm>) -> Result<u32, Memory>
    ensures { IfOk result (λ count. count ≡ jumps_in_arms (map branch_of arms.now)) }
{
    let mut count = 0;
    for arm in arms.as_slice() {
        count = sum(count, jumps_in_arm(arm)?)?;
    }
    Ok(count)
}

#[cycle(jumps)]
#[tactic(auto, using(crate::proofs::JumpLaws::jump_laws))]
fn jumps_in_arm(arm: &NestArm) -> Result<u32, Memory>
    ensures { IfOk result (λ count. count ≡ jumps_in_arm (branch_of arm.now)) }
{
    jumps_in_parts(false, &arm.body)
}

#[cycle(jumps)]
fn jumps_in_parts(skips: bool, parts: &Seq<Part>) -> Result<u32, Memory>
    ensures { IfOk result (λ count. count ≡ jumps_in_list skips (map part_of parts.now)) }
{
    let mut count = 0;
    let mut left_out = skips;
    for part in parts.as_slice() {
        count = sum(count, jumps_in(left_out, part)?)?;
        left_out = skips_behind(left_out, part);
    }
    Ok(count)
}
