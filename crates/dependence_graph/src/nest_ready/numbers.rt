//! The numbers of loops.
ghost use Rattle.std.specs.Prelude.{◌≡◌, ◌++◌, ◌∷◌, ◌↔◌, [], IfOk, IsTrue, OnOk, map, ℕ};
ghost use Rattle.std.specs.List.{flat_map};
ghost use Rattle.components.specs.Lists.{Distinct, Each};
ghost use Rattle.nest.specs.Bodies.{loops_of, nest_loops};
ghost use Rattle.nest.specs.View.{branch_of, nest_of, part_of};
ghost use Rattle.dependence_graph.specs.nest_ready.Gathered.{loops_in_branch, numbers_of};

use nest::{Nest, NestArm, Part};
use std::alloc::Global;
use tree::{Memory, Seq};

#[derive(Drop)]
struct Numbers {
    list: Seq<u32>,
}

impl Numbers {
    #[cycle(numbers)]
    #[tactic(auto, using(crate::proofs::nest_ready::NumberLaws::number_laws))]
    fn add_part(&mut self, part: &Part) -> Result<(), Memory>
        ensures { OnOk result (self.new.list ≡ self.old.list ++ numbers_of (loops_of (part_of part.now))) }
    {
        match part {
            Part::Run(_) => Ok(()),
            Part::Turns(turns, body) => {
                self.list.push(turns.number)?;
                self.add_parts(body)
            }
            Part::Choice(arms, other) => {
                self.add_arms(arms)?;
                self.add_parts(other)
            }
            Part::Label(_) => Ok(()),
            Part::Jump(_) => Ok(()),
        }
    }

    #[cycle(numbers)]
    fn add_parts(&mut self, parts: &Seq<Part>) -> Result<(), Memory>
        ensures { OnOk result (self.new.list ≡ self.old.list
            ++ flat_map (λ p. numbers_of (loops_of p)) (map part_of parts.now)) }
    {
        for part in parts.as_slice() {
            self.add_part(part)?;
        }
        Ok(())
    }

    #[cycle(numbers)]
    #[tactic(auto, using(crate::proofs::nest_ready::NumberLaws::number_laws))]
    fn add_arm(&mut self, arm: &NestArm) -> Result<(), Memory>
        ensures { OnOk result (self.new.list ≡ self.old.list
            ++ numbers_of (loops_in_branch (branch_of arm.now))) }
    {
        self.add_parts(&arm.body)
    }

    #[cycle(numbers)]
    fn add_arms(&mut self, arms: &Seq<NestArm>) -> Result<(), Memory>
        ensures { OnOk result (self.new.list ≡ self.old.list
            ++ flat_map (λ b. numbers_of (loops_in_branch b)) (map branch_of arms.now)) }
    {
        for arm in arms.as_slice() {
            self.add_arm(arm)?;
        }
        Ok(())
    }
}

/// The numbers of the loops of a nest, each before those in it.
pub fn numbers_of(alloc: Global, nest: &Nest) -> Result<Seq<u32>, Memory>
    ensures { IfOk result (λ all. all ≡ numbers_of (nest_loops (nest_of nest.now))) }
{
    let mut numbers = Numbers {
        list: Seq::new(alloc),
    };
    numbers.add_part(&nest.body)?;
    Ok(numbers.list)
}

fn is_other(number: u32, others: &[u32]) -> bool
    ensures { IsTrue result ↔ Each (λ other. number ≡ other → ⊥) others.now }
{
    let Some((first, rest)) = others.split_first() else {
        return true;
    };
    number != *first && is_other(number, rest)
}

/// Whether all numbers differ.
pub fn are_distinct(numbers: &[u32]) -> bool
    ensures { IsTrue result ↔ Distinct numbers.now }
{
    let Some((first, rest)) = numbers.split_first() else {
        return true;
    };
    is_other(*first, rest) && are_distinct(rest)
}
