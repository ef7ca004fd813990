//! Expressions and statements that calls make, by their texts.
use f77_read::read77;
use f90_print::{print_expr, print90};
use form_rules::Replacement;
use linear_forms::{express, linear};
use rewrite::{rewrite, substitute};
use std::alloc::Global;
use std::test::Fail;
use tree::{Expr, Name, Op, Program77, Program90, Ref, Seq, Stmt, Sub, Width};

fn name(text: &[u8]) -> Result<Name, Fail> {
    Ok(Name::read(text).ok_or("name")?)
}

fn scalar(alloc: Global, name: Name) -> Expr {
    Expr::Item(Ref {
        name,
        subs: Seq::new(alloc),
    })
}

// A(T)
fn element(alloc: Global) -> Result<Expr, Fail> {
    let mut subs = Seq::new(alloc);
    subs.push(Sub::One(scalar(alloc, name(b"T")?)))?;
    Ok(Expr::Item(Ref {
        name: name(b"A")?,
        subs,
    }))
}

// A + A(T) with 7 for A.
fn substituted(alloc: Global) -> Result<Seq<u8>, Fail> {
    let name = name(b"A")?;
    let left = Box::new(alloc, scalar(alloc, name))?;
    let right = Box::new(alloc, element(alloc)?)?;
    let sum = Expr::Bin(Op::Add, left, right);
    let made = Box::new(alloc, substitute(alloc, sum, name, &Expr::Int(7))?)?;
    Ok(print_expr(alloc, &made)?)
}

// The right side of the first statement.
fn right_side(program: &Program77) -> Result<&Expr, Fail> {
    match program.body.stmts.get(0) {
        Some(Stmt::Assign { right, .. }) => Ok(right),
        _ => Err(Fail::from("no assignment")),
    }
}

// The text of N + 3 t + 1, where t is the right side of the program's first statement.
fn with_trip(alloc: Global, program: &Program77) -> Result<Seq<u8>, Fail> {
    let mut symbols = Seq::new(alloc);
    symbols.push(name(b"N")?)?;
    let mut form = linear(&Expr::Int(1), &[], &symbols).ok_or("form")?;
    form.syms[0] = (0, 1);
    form.syms[1] = (1, 3);
    let mut trips = Vec::new(alloc);
    trips.push(right_side(program)?.copy(alloc)?)?;
    let made = Box::new(
        alloc,
        express(alloc, &form, &[], &symbols, trips.as_slice())?,
    )?;
    Ok(print_expr(alloc, &made)?)
}

// The statements of the program with T_1 for T.
fn with_other_name(alloc: Global, program: &Program77) -> Result<Vec<u8>, Fail> {
    let mut rule = Replacement {
        variable: name(b"T")?,
        by: scalar(alloc, name(b"T_1")?),
        new: name(b"T_1")?,
        fixed: Seq::new(alloc),
    };
    let decls = Seq::new(alloc);
    let made = Program90 {
        name: None,
        decls,
        body: rewrite(alloc, &program.body, &mut rule)?,
    };
    Ok(print90(alloc, &made, &Seq::new(alloc))?)
}

// An element keeps its name.
#[test]
fn replaces_scalars(rt: HostRuntime) -> Result<(), Fail> {
    let text = substituted(rt.alloc())?;
    assert_eq!(rt; text.as_slice(), b"7 + A(T)".as_slice());
    Ok(())
}

// A divided trip stands behind the symbols.
#[test]
fn writes_divided_trips(rt: HostRuntime) -> Result<(), Fail> {
    let program = read77(
        rt.alloc(),
        b"      K = (N - 1) / 2\n      END\n",
        Width::Plain,
    )?;
    let text = with_trip(rt.alloc(), &program)?;
    assert_eq!(rt; text.as_slice(), b"N + 3 * ((N - 1) / 2) + 1".as_slice());
    Ok(())
}

// An item that is read into keeps its name, and the names in its subscripts are replaced.
#[test]
fn keeps_the_names_of_items(rt: HostRuntime) -> Result<(), Fail> {
    let deck = b"      INTEGER A(9), T\n      READ *, T, A(T)\n      END\n";
    let program = read77(rt.alloc(), deck, Width::Plain)?;
    let text = with_other_name(rt.alloc(), &program)?;
    let wanted = b"PROGRAM FV_PROGRAM\nIMPLICIT NONE\nREAD *, T, A(T_1)\nEND\n";
    assert_eq!(rt; text.as_slice(), wanted.as_slice());
    Ok(())
}

// A form has at most seven loops.
#[test]
fn counts_loops(rt: HostRuntime) -> Result<(), Fail> {
    let symbols = Seq::new(rt.alloc());
    let loops = [name(b"I")?; 8];
    let variable = Box::new(rt.alloc(), scalar(rt.alloc(), loops[0]))?;
    let answers = [
        linear(&variable, &loops[..7], &symbols).is_some(),
        linear(&variable, &loops, &symbols).is_some(),
    ];
    assert_eq!(rt; answers, [true, false]);
    Ok(())
}
