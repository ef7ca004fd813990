//! What is open at a statement: block IFs, and loops.
ghost use Rattle.std.specs.Prelude.{◌≡◌, ℕ, ◌+◌, ◌<◌, ◌^◌, ◌||◌, ◌∷◌, [], true, false, IfOk, OnOk};
ghost use Rattle.f77_structure.specs.Openings.{frames, loops_in, tail_of, marked, trimmed, first_of, next_frames};
ghost use Rattle.f77_structure.specs.Openings.{opened, nearest_at, is_behind, begins_behind, lacks_if, lacks_loop};
ghost use Rattle.f77_structure.specs.Openings.{refuses, is_unpaired, closes_wrongly, ends_wrongly, is_from};
ghost use Rattle.f77_structure.specs.Openings.{has_wrong_closer};
ghost use Rattle.f77_structure.specs.Forms.{is_no_end_form};

use crate::forms::Form;
use std::alloc::Global;
use tree::Memory;

/// A block IF that hasn't ended, the number of statements before it, and whether it has had an ELSE.
#[derive(Clone, Copy, Debug, PartialEq, Eq)]
pub struct OpenIf {
    pub at: usize,
    pub had_else: bool,
}

/// A loop, the numbers of statements before its DO and before its last statement.
#[derive(Clone, Copy, Debug, PartialEq, Eq)]
pub struct OpenLoop {
    pub at: usize,
    pub end: usize,
}

/// The block IFs that haven't ended, the innermost last, and the loops that may not have ended.
#[derive(Drop)]
pub struct Openings {
    ifs: Vec<OpenIf>,
    loops: Vec<OpenLoop>,
}

impl Openings {
    pub fn new(alloc: Global) -> Openings
        ensures ifs { frames result ≡ [] }
        ensures loops { loops_in result ≡ [] }
    {
        Openings {
            ifs: Vec::new(alloc),
            loops: Vec::new(alloc),
        }
    }

    /// The innermost block IF.
    pub fn innermost(&self) -> Option<OpenIf>
        ensures { result ≡ first_of (frames self.now) }
    {
        self.ifs.last().copied()
    }

    /// Where the loop begins that was opened last.
    pub fn nearest_loop(&self) -> Option<usize>
        ensures { result ≡ nearest_at (loops_in self.now) }
    {
        match self.loops.last() {
            Some(open) => Some(open.at),
            None => None,
        }
    }

    /// Takes out the loops opened last that end before the statement behind `before` others.
    pub fn drop_ended(&mut self, before: usize)
        ensures ifs { frames self.new ≡ frames self.old }
        ensures loops { loops_in self.new ≡ trimmed before (loops_in self.old) }
    {
        'ended: while let Some(open) = self.loops.last() {
            if open.end >= before {
                break;
            }
            self.loops.pop();
        }
    }

    fn open_if(&mut self, at: usize) -> Result<(), Memory>
        ensures ifs { OnOk result (frames self.new ≡ record { at = at; had_else = false } ∷ frames self.old) }
        ensures loops { OnOk result (loops_in self.new ≡ loops_in self.old) }
    {
        self.ifs.push(OpenIf {
            at,
            had_else: false,
        })?;
        Ok(())
    }

    fn close_if(&mut self)
        ensures ifs { frames self.new ≡ tail_of (frames self.old) }
        ensures loops { loops_in self.new ≡ loops_in self.old }
    {
        self.ifs.pop();
    }

    fn mark_else(&mut self) -> Result<(), Memory>
        ensures ifs { OnOk result (frames self.new ≡ marked (frames self.old)) }
        ensures loops { OnOk result (loops_in self.new ≡ loops_in self.old) }
    {
        if let Some(open) = self.ifs.pop() {
            self.ifs.push(OpenIf {
                at: open.at,
                had_else: true,
            })?;
        }
        Ok(())
    }

    fn open_loop(&mut self, at: usize, end: Option<usize>) -> Result<(), Memory>
        ensures ifs { OnOk result (frames self.new ≡ frames self.old) }
        ensures loops { OnOk result (loops_in self.new ≡ opened at end (loops_in self.old)) }
    {
        if let Some(end) = end {
            self.loops.push(OpenLoop { at, end })?;
        }
        Ok(())
    }

    /// What is open behind a statement of this form, which stands behind `at` others; a DO's loop ends at `end`.
    pub fn pass(self, form: Form, at: usize, end: Option<usize>) -> Result<Openings, Memory>
        ensures ifs { IfOk result (λ openings. frames openings ≡ next_frames form at (frames self)) }
        ensures loops { IfOk result (λ openings. loops_in openings ≡ opened at end (loops_in self)) }
    {
        let mut openings = self;
        openings.open_loop(at, end)?;
        openings.pass_if(form, at)?;
        Ok(openings)
    }

    // The block IFs that are open behind the statement.
    fn pass_if(&mut self, form: Form, at: usize) -> Result<(), Memory>
        ensures ifs { OnOk result (frames self.new ≡ next_frames form at (frames self.old)) }
        ensures loops { OnOk result (loops_in self.new ≡ loops_in self.old) }
    {
        match form {
            Form::If => self.open_if(at),
            Form::EndIf => {
                self.close_if();
                Ok(())
            }
            Form::Else => self.mark_else(),
            Form::Title | Form::ImplicitNone | Form::Declaration | Form::Action => Ok(()),
            Form::Go(_) | Form::Stop | Form::LogicalIf | Form::ElseIf | Form::Do(_) => Ok(()),
            Form::EndDo | Form::End => Ok(()),
        }
    }

    fn is_loop_behind(&self, at: usize) -> bool
        ensures { result ≡ is_behind (nearest_at (loops_in self.now)) at }
    {
        match self.nearest_loop() {
            Some(begin) => begin > at,
            None => false,
        }
    }

    fn is_if_behind(&self, at: usize) -> bool
        ensures { result ≡ begins_behind (first_of (frames self.now)) at }
    {
        match self.innermost() {
            Some(open) => open.at > at,
            None => false,
        }
    }

    fn lacks_if(&self) -> bool
        ensures { result ≡ lacks_if (first_of (frames self.now)) (nearest_at (loops_in self.now)) }
    {
        match self.innermost() {
            Some(open) => open.had_else || self.is_loop_behind(open.at),
            None => true,
        }
    }

    // The first loop that ends here begins at `first`.
    fn lacks_loop(&self, first: Option<usize>) -> bool
        ensures { result ≡ lacks_loop first (nearest_at (loops_in self.now)) }
    {
        match first {
            Some(first) => self.is_loop_behind(first),
            None => true,
        }
    }

    /// An ELSE IF or ELSE has no block IF, or an END DO no loop, or more than one, of which the first begins at
    /// `first`.
    pub fn refuses(&self, form: Form, first: Option<usize>) -> bool
        ensures { result ≡ refuses form first (first_of (frames self.now)) (nearest_at (loops_in self.now)) }
    {
        match form {
            Form::ElseIf | Form::Else => self.lacks_if(),
            Form::EndDo => self.lacks_loop(first),
            Form::Title | Form::ImplicitNone | Form::Declaration | Form::Action => false,
            Form::Go(_) | Form::Stop | Form::LogicalIf | Form::If | Form::EndIf => false,
            Form::Do(_) | Form::End => false,
        }
    }

    fn is_unpaired(&self) -> bool
        ensures { result ≡ is_unpaired (first_of (frames self.now)) (nearest_at (loops_in self.now)) }
    {
        match self.innermost() {
            Some(open) => self.is_loop_behind(open.at),
            None => true,
        }
    }

    /// A DO label doesn't come `later`, or END IF has no block IF or leaves a loop open in it.
    pub fn closes_wrongly(&self, form: Form, later: bool) -> bool
        ensures { result ≡ closes_wrongly form later (first_of (frames self.now)) (nearest_at (loops_in self.now)) }
    {
        match form {
            Form::Do(_) => !later,
            Form::EndIf => self.is_unpaired(),
            Form::Title | Form::ImplicitNone | Form::Declaration | Form::Action => false,
            Form::Go(_) | Form::Stop | Form::LogicalIf | Form::If | Form::ElseIf => false,
            Form::Else | Form::EndDo | Form::End => false,
        }
    }

    /// Loops, of which the first begins at `first`, end on a statement that can't end one, or leave something open in
    /// them.
    pub fn ends_wrongly(&self, first: Option<usize>, form: Form) -> bool
        ensures { result ≡ ends_wrongly first form (first_of (frames self.now)) (nearest_at (loops_in self.now)) }
    {
        match first {
            Some(first) => {
                form.is_no_loop_end() || self.is_if_behind(first) || self.is_loop_behind(first)
            }
            None => false,
        }
    }
}

/// Whether there is a place, and it comes behind `at`.
pub fn is_behind(place: Option<usize>, at: usize) -> bool
    ensures behind { result ≡ is_behind place at }
    ensures from { result ≡ is_from (at + 1) place }
{
    match place {
        Some(place) => place > at,
        None => false,
    }
}

impl Openings {
    /// Something is closed wrongly at a statement that stands behind `at` others; the loop that it begins ends at
    /// `end`, and
    /// the loops that it ends begin from `first` on. What has ended by then is taken out.
    pub fn has_wrong_closer(
        &mut self,
        form: Form,
        at: usize,
        end: Option<usize>,
        first: Option<usize>,
    ) -> bool
        requires { at + 1 < 2 ^ 64 }
        ensures ifs { frames self.new ≡ frames self.old }
        ensures loops { loops_in self.new ≡ trimmed (at + 1) (trimmed at (loops_in self.old)) }
        ensures answer { result ≡ has_wrong_closer form at end first (first_of (frames self.old)) (loops_in self.old) }
    {
        self.drop_ended(at);
        let refuses = self.refuses(form, first);
        self.drop_ended(at + 1);
        refuses || self.closes_wrongly(form, is_behind(end, at)) || self.ends_wrongly(first, form)
    }
}

impl Form {
    // A loop doesn't end on it.
    fn is_no_loop_end(self) -> bool
        ensures { result ≡ is_no_end_form self }
    {
        match self {
            Form::Title | Form::ImplicitNone | Form::Declaration | Form::Action => false,
            Form::LogicalIf | Form::EndDo => false,
            Form::Go(_) | Form::Stop | Form::If | Form::ElseIf | Form::Else => true,
            Form::EndIf | Form::Do(_) | Form::End => true,
        }
    }
}
