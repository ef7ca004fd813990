//! Loops over the pieces of a loop's iterations.
ghost use Rattle.std.specs.Prelude.{◌≡◌, ◌≤◌, ◌^◌, ◌++◌, ◌*ℤ◌, [], IfOk, OnOk, map, pos, unsigned_abs};
ghost use Rattle.linear_forms.specs.Texts.{text_of};
ghost use Rattle.tree.specs.Plain.{block};
ghost use Rattle.tree.specs.View.{block_of, expression_of, statement_of};
ghost use Rattle.index_split.specs.Pieces.{all_bounds, are_assignments, bounds_of, constant, grown, is_assignment};
ghost use Rattle.index_split.specs.Pieces.{loop_over, loops_over, moved, where_true};

use linear_forms::{ZERO, express};
use std::alloc::Global;
use subscripts::Affine;
use tree::{Block, Expr, Memory, Name, Seq, Stmt, three};

// The size that no constant of a form is above.
const LARGEST: u128 = 1 << 40;

/// The values of a loop's variable in the first and the last turn of a piece.
#[derive(Clone, Copy, Debug)]
pub struct Bounds {
    pub first: Affine,
    pub last: Affine,
}

/// The loops over the pieces of a loop: their bounds, as forms over symbols, and their increment.
#[derive(Drop)]
pub struct Pieces {
    pub symbols: Seq<Name>,
    pub bounds: Seq<Bounds>,
    pub step: i64,
}

fn product(times: u32, number: i64) -> i128
    ensures value { result ≡ pos times *ℤ number }
    ensures size { unsigned_abs result ≤ 2 ^ 126 }
{
    i128::from(i64::from(times)) * i128::from(number)
}

// The form with a number more, within the limits of forms.
fn moved(form: &Affine, number: i128) -> Option<Affine>
    requires { unsigned_abs number ≤ 2 ^ 126 }
    ensures { result ≡ moved form.now number }
{
    let constant = i128::from(form.constant) + number;
    if constant.unsigned_abs() > LARGEST {
        return None;
    }
    Some(Affine {
        constant: constant as i64,
        ..*form
    })
}

// The bounds of the piece after so many turns that ends with this one.
fn bounds_of(first: &Affine, step: i64, before: u32, end: u32) -> Option<Bounds>
    ensures { result ≡ bounds_of first.now step before end }
{
    let from = moved(first, product(before, step))?;
    let to = moved(first, product(end.saturating_sub(1), step))?;
    Some(Bounds {
        first: from,
        last: to,
    })
}

// Adds the bounds of the pieces that end with these turns, the first of which comes after so many turns; false where
// one is out of the limits.
#[tactic(auto, using(crate::proofs::PieceLaws::bounds_laws))]
fn add_bounds(
    list: &mut Seq<Bounds>,
    first: &Affine,
    step: i64,
    before: u32,
    ends: &[u32],
) -> Result<bool, Memory>
    ensures { IfOk result (λ all.
        where_true all list.new ≡ grown list.old (all_bounds first.now step before ends.now)) }
{
    let Some((end, ends)) = ends.split_first() else {
        return Ok(true);
    };
    let Some(bounds) = bounds_of(first, step, before, *end) else {
        return Ok(false);
    };
    list.push(bounds)?;
    add_bounds(list, first, step, *end, ends)
}

/// The bounds of the pieces that end with these turns, one after the other; None where one is out of the limits.
#[tactic(auto, using(crate::proofs::PieceLaws::bounds_laws))]
pub(crate) fn all_bounds(
    alloc: Global,
    first: &Affine,
    step: i64,
    ends: &[u32],
) -> Result<Option<Seq<Bounds>>, Memory>
    ensures { IfOk result (λ bounds. bounds ≡ all_bounds first.now step 0 ends.now) }
{
    let mut list = Seq::new(alloc);
    let all = add_bounds(&mut list, first, step, 0, ends)?;
    if !all {
        return Ok(None);
    }
    Ok(Some(list))
}

#[tactic(auto, using(tree::proofs::Equations::statement_equations))]
fn is_assignment(stmt: &Stmt) -> bool
    ensures { result ≡ is_assignment (statement_of stmt.now) }
{
    match stmt {
        Stmt::Assign { .. } => true,
        Stmt::Masked { .. } => false,
        Stmt::If { .. } => false,
        Stmt::Do { .. } => false,
        Stmt::Label { .. } => false,
        Stmt::Go { .. } => false,
        Stmt::Stop { .. } => false,
        Stmt::Read { .. } => false,
        Stmt::Print { .. } => false,
        Stmt::Allocate { .. } => false,
        Stmt::Deallocate { .. } => false,
    }
}

fn all_assignments(stmts: &[Stmt]) -> bool
    ensures { result ≡ are_assignments (block (map statement_of stmts.now)) }
{
    let Some((stmt, rest)) = stmts.split_first() else {
        return true;
    };
    is_assignment(stmt) && all_assignments(rest)
}

/// Whether a block has assignments alone.
#[tactic(auto, using(crate::proofs::PieceLaws::body_laws))]
pub(crate) fn are_assignments(body: &Block) -> bool
    ensures { result ≡ are_assignments (block_of body.now) }
{
    all_assignments(body.stmts.as_slice())
}

impl Pieces {
    fn step_text(&self, alloc: Global) -> Result<Expr, Memory>
        ensures { IfOk result (λ e. expression_of e ≡ text_of [] [] [] (constant self.now.step)) }
    {
        let form = Affine {
            constant: self.step,
            ..ZERO
        };
        express(alloc, &form, &[], &Seq::new(alloc), &[])
    }

    fn bound_text(&self, alloc: Global, form: &Affine) -> Result<Expr, Memory>
        ensures { IfOk result (λ e. expression_of e ≡ text_of [] self.now.symbols [] form.now) }
    {
        express(alloc, form, &[], &self.symbols, &[])
    }

    // The loop over one piece.
    #[tactic(auto, using(tree::proofs::Equations::statement_equations))]
    fn loop_over(
        &self,
        alloc: Global,
        line: u32,
        var: Name,
        body: &Block,
        bounds: &Bounds,
    ) -> Result<Stmt, Memory>
        ensures { IfOk result (λ stmt.
            statement_of stmt ≡ loop_over self.now line var (block_of body.now) bounds.now) }
    {
        let body = body.copy(alloc)?;
        let (first, last, step) = three(
            self.bound_text(alloc, &bounds.first),
            self.bound_text(alloc, &bounds.last),
            self.step_text(alloc),
        )?;
        Ok(Stmt::Do {
            line,
            var,
            first,
            last,
            step,
            body,
        })
    }

    /// Adds the loops over all pieces of a loop with this line, variable and body.
    pub(crate) fn add_loops(
        &self,
        alloc: Global,
        line: u32,
        var: Name,
        body: &Block,
        made: &mut Seq<Stmt>,
    ) -> Result<(), Memory>
        ensures { OnOk result (map statement_of made.new ≡ map statement_of made.old
            ++ loops_over self.now line var (block_of body.now)) }
    {
        for bounds in self.bounds.as_slice() {
            let piece = self.loop_over(alloc, line, var, body, bounds)?;
            made.push(piece)?;
        }
        Ok(())
    }
}
