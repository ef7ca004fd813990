//! The linear form of an expression.
ghost use Rattle.std.specs.Prelude.{◌≡◌, ◌≤◌, ◌<◌, ◌+◌, ◌++◌, ◌^◌, ℕ, List, length, Option, Some, None};
ghost use Rattle.std.specs.List.{position};
ghost use Rattle.std.specs.Str.{bytes_eq};
ghost use Rattle.tree.specs.View.{expression_of, reference_of};
ghost use Rattle.linear_forms.specs.Linear.{Form, linear, form_of, limited, constant_or, as_constant, form_of_name};
ghost use Rattle.linear_forms.specs.Linear.{constant_value, form_of_sign, form_of_pair, form_of_product};
ghost use Rattle.linear_forms.specs.Parts.{HasConstant, IsPartOf};
ghost use Rattle.linear_forms.specs.Places.{unit_form};
ghost use Rattle.linear_forms.specs.Affines.{IsFound, IsAffineOf};
ghost use Rattle.tree.specs.Plain.{Expression, Unary, Binary};

use crate::constants::{constant_value, known};
use crate::terms::{ZERO, combined, constant_form};
use subscripts::Affine;
use tree::{Expr, Name, Op, Ref, Seq, Value};

/// What is known of a part of an expression: its value where it is constant, and its form.
#[derive(Clone, Copy, Debug)]
pub struct Part {
    pub constant: Option<Value>,
    pub form: Option<Affine>,
}

fn integer(value: Option<Value>) -> Option<i128>
    ensures { result ≡ as_constant value }
{
    match value {
        Some(Value::Int(number)) => Some(number),
        Some(Value::Truth(_)) => None,
        None => None,
    }
}

// A product, of which one factor is constant.
fn product_form(k: Option<i128>, l: Option<i128>, f: &Affine, g: &Affine) -> Option<Affine>
    ensures { (n : ℕ) (p q : Form) → n ≤ 7 → IsAffineOf n p f.now → IsAffineOf n q g.now
        → HasConstant k p → HasConstant l q
        → IsFound n (limited n (form_of_product k l p q)) result }
{
    if k.is_some() {
        return combined(&ZERO, g, f.constant);
    }
    if l.is_some() {
        return combined(&ZERO, f, g.constant);
    }
    None
}

// Where the whole is constant it is `whole`.
#[tactic(auto, using(crate::proofs::PartLaws::sign_other))]
fn sign_form(op: Op, whole: Option<i128>, form: Option<Affine>) -> Option<Affine>
    ensures { (n : ℕ) (o : Option Form) → n ≤ 7 → IsFound n o form
        → IsFound n (limited n (constant_or whole (form_of_sign op o))) result }
{
    if let Some(number) = whole {
        return constant_form(number);
    }
    let Some(form) = form else {
        return None;
    };
    let Op::Neg = op else {
        return None;
    };
    combined(&ZERO, &form, -1)
}

// The same of two operands, whose values are k and l where they are constant.
fn pair_form(op: Op, whole: Option<i128>, a: Part, b: Part) -> Option<Affine>
    ensures { (n : ℕ) (p q : Option Form) → n ≤ 7 → IsFound n p a.form → IsFound n q b.form
        → ((f : Form) → p ≡ Some f → HasConstant (as_constant a.constant) f)
        → ((g : Form) → q ≡ Some g → HasConstant (as_constant b.constant) g)
        → IsFound n (limited n (constant_or whole
        (form_of_pair op (as_constant a.constant) (as_constant b.constant) p q))) result }
{
    if let Some(number) = whole {
        return constant_form(number);
    }
    let Some(f) = a.form else {
        return None;
    };
    let Some(g) = b.form else {
        return None;
    };
    match op {
        Op::Add => combined(&f, &g, 1),
        Op::Sub => combined(&f, &g, -1),
        Op::Mul => product_form(integer(a.constant), integer(b.constant), &f, &g),
        Op::Pow => None,
        Op::Div => None,
        Op::Neg => None,
        Op::Lt => None,
        Op::Le => None,
        Op::Eq => None,
        Op::Ne => None,
        Op::Gt => None,
        Op::Ge => None,
        Op::Not => None,
        Op::And => None,
        Op::Or => None,
        Op::Eqv => None,
        Op::Neqv => None,
    }
}

fn place(names: &[Name], name: Name) -> Option<usize>
    ensures { result ≡ position (λ other. bytes_eq other name) names.now }
{
    names.iter().position(|other| *other == name)
}

/// The form of a reference: a bare name is 1 times the loop or the symbol that it names.
pub fn name_form(item: &Ref, loops: &[Name], symbols: &[Name]) -> Option<Affine>
    ensures { length loops.now ≤ 7 → length symbols.now ≤ 2 ^ 16
        → IsFound (length loops.now) (limited (length loops.now) (form_of_name (loops.now ++ symbols.now)
        (reference_of item.now).name (reference_of item.now).subscripts)) result }
{
    if !item.subs.is_empty() {
        return None;
    }
    if let Some(at) = place(loops, item.name) {
        return loop_form(at);
    }
    match place(symbols, item.name) {
        Some(at) => symbol_form(at),
        None => None,
    }
}

fn loop_form(at: usize) -> Option<Affine>
    ensures { (n : ℕ) → n ≤ 7 → at < n → IsFound n (limited n (Some (unit_form at))) result }
{
    if at >= 7 {
        return None;
    }
    let mut loops = [0; 7];
    loops[at] = 1;
    Some(Affine {
        loops,
        syms: [(0, 0); 8],
        constant: 0,
    })
}

fn symbol_form(at: usize) -> Option<Affine>
    ensures { (n : ℕ) → at < 2 ^ 16 → IsFound n (limited n (Some (unit_form (n + at)))) result }
{
    let Ok(place) = u16::try_from(at) else {
        return None;
    };
    let mut syms = [(0, 0); 8];
    syms[0] = (place, 1);
    Some(Affine {
        loops: [0; 7],
        syms,
        constant: 0,
    })
}

fn sign_value(op: Op, x: Option<Value>) -> Option<Value>
    ensures { (e : Expression) → x ≡ constant_value e → result ≡ constant_value (Unary op e) }
{
    match x {
        Some(x) => known(op.apply(x, x)),
        None => None,
    }
}

fn pair_value(op: Op, x: Option<Value>, y: Option<Value>) -> Option<Value>
    ensures { (d e : Expression) → x ≡ constant_value d → y ≡ constant_value e
        → result ≡ constant_value (Binary op d e) }
{
    let Some(x) = x else {
        return None;
    };
    let Some(y) = y else {
        return None;
    };
    known(op.apply(x, y))
}

/// What is known of an operator's expression with one operand, by what is known of the operand.
pub fn sign_part(op: Op, a: Part) -> Part
    ensures { (n : ℕ) (names : List (List ℕ)) (e : Expression) → n ≤ 7 → IsPartOf n names e a
        → IsPartOf n names (Unary op e) result }
{
    let constant = sign_value(op, a.constant);
    let form = sign_form(op, integer(constant), a.form);
    Part { constant, form }
}

/// The same with two operands.
pub fn pair_part(op: Op, a: Part, b: Part) -> Part
    ensures { (n : ℕ) (names : List (List ℕ)) (d e : Expression) → n ≤ 7 → IsPartOf n names d a → IsPartOf n names e b
        → IsPartOf n names (Binary op d e) result }
{
    let constant = pair_value(op, a.constant, b.constant);
    let form = pair_form(op, integer(constant), a, b);
    Part { constant, form }
}

/// What is known where an expression has no form but as a constant.
pub fn constant_part(constant: Option<Value>) -> Part
    ensures constant { result.constant ≡ constant }
    ensures form { (n : ℕ) → IsFound n (limited n (constant_or (as_constant constant) None)) result.form }
{
    let form = match integer(constant) {
        Some(number) => constant_form(number),
        None => None,
    };
    Part { constant, form }
}

/// What is known of an expression, over at most seven loops.
#[tactic(auto, using(crate::proofs::PartLaws::part_laws))]
pub fn part_of(expr: &Expr, loops: &[Name], symbols: &[Name]) -> Part
    ensures { length loops.now ≤ 7 → length symbols.now ≤ 2 ^ 16
        → IsPartOf (length loops.now) (loops.now ++ symbols.now) (expression_of expr.now) result }
{
    match expr {
        Expr::Int(number) => constant_part(Some(Value::Int(*number))),
        Expr::Truth(truth) => Part {
            constant: Some(Value::Truth(*truth)),
            form: None,
        },
        Expr::Item(item) => Part {
            constant: None,
            form: name_form(item, loops, symbols),
        },
        Expr::Un(op, a) => sign_part(*op, part_of(a, loops, symbols)),
        Expr::Bin(op, a, b) => {
            let left = part_of(a, loops, symbols);
            pair_part(*op, left, part_of(b, loops, symbols))
        }
        Expr::Call(..) => constant_part(constant_value(expr)),
        Expr::List(..) => Part {
            constant: None,
            form: None,
        },
        Expr::Spread(..) => Part {
            constant: None,
            form: None,
        },
        Expr::Transpose(_) => Part {
            constant: None,
            form: None,
        },
        Expr::Reshape(..) => Part {
            constant: None,
            form: None,
        },
        Expr::Reduce(..) => Part {
            constant: None,
            form: None,
        },
    }
}

/// The linear form of an expression over the variables of loops, from the outside in, and symbols (Allen and Kennedy,
/// section 2.3). None exactly where it has none, or there are more than seven loops. A symbol's place is its place in
/// the list. Of two equal names the first one counts.
pub fn linear(expr: &Expr, loops: &[Name], symbols: &Seq<Name>) -> Option<Affine>
    requires { length symbols.now ≤ 2 ^ 16 }
    ensures { IsFound (length loops.now) (form_of loops.now symbols.now (expression_of expr.now)) result }
{
    if loops.len() > 7 {
        return None;
    }
    part_of(expr, loops, symbols.as_slice()).form
}
