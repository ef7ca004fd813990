//! What no deck shows of readers and printers: texts that no card holds, trees that no text gives, and answers on which
//! no status, note or output depends.
use f77_cards::{Card, statements};
use f77_expressions::{Unread, expression, squeeze};
use f77_grammar::syntax::Labelled;
use f77_names::constants::constants_of;
use f77_statement::parse;
use f77_words::keywords::Outside;
use f90_expressions::read;
use f90_expressions::words::words;
use f90_print::{print_assign, print_expr};
use f90_statement::Statement;
use f90_trees::{Functions, tree};
use std::alloc::Global;
use std::test::Fail;
use tree::{Expr, Name, Op, Ref, Seq, Width};

// A card has room for 658.
#[test]
fn more_parentheses_than_a_card_has(rt: HostRuntime) -> Result<(), Fail> {
    let mut text = vec![in rt.alloc(); b'('; 659]?;
    text.push(b'1')?;
    for _ in 0..659 {
        text.push(b')')?;
    }
    let answer = expression(rt.alloc(), text.as_slice());
    assert!(rt; matches!(&answer, Err(Unread::Deep)));
    Ok(())
}

// Where no equals sign stands outside parentheses, or the text has no form, nothing hangs on the comma.
#[test]
fn signs_outside(rt: HostRuntime) -> Result<(), Fail> {
    let rows = [
        ("DO 10 I = 1, 2", true, true),
        ("X = F(1, 2)", true, false),
        ("A, B = 1", true, false),
        (")X = 1", true, false),
        ("OPEN (UNIT = 1)", false, false),
        ("PRINT *, 'A = B'", false, false),
    ];
    for (text, equals, comma) in rows {
        let symbols = squeeze(rt.alloc(), text.as_bytes())?;
        assert_eq!(rt; Outside::of(&symbols), Outside { equals, comma }, "{text}");
    }
    Ok(())
}

fn labelled(alloc: Global, card: &Card) -> Result<Labelled, Fail> {
    let statement = parse(alloc, card)?;
    Ok(Labelled {
        label: card.label,
        line: card.line,
        statement,
    })
}

// A constant outside INTEGER has no value, nor has one that is computed from it: the first of the two is what is
// refused.
#[test]
fn constants_without_values(rt: HostRuntime) -> Result<(), Fail> {
    let deck = b"      PARAMETER (M = 2147483648, N = -M)\n".as_slice();
    let mut text = Vec::new(rt.alloc());
    for card in statements(rt.alloc(), deck)?.as_slice() {
        text.push(labelled(rt.alloc(), card)?)?;
    }
    let constants = constants_of(rt.alloc(), text.as_slice(), Width::Plain)?;
    for name in [b"M", b"N"] {
        let name = Name::read(name).ok_or("a name")?;
        assert_eq!(rt; constants.value(name), None);
    }
    Ok(())
}

// No statement of a text is without words, or goes on behind one of these.
#[test]
fn words_without_a_form(rt: HostRuntime) -> Result<(), Fail> {
    let rows = [
        ("", 0),
        (" \n ", 0),
        ("A(/1/)", 4),
        ("a<=b .lt. c/=d", 7),
        ("A\nB", 2),
    ];
    for (text, count) in rows {
        let tokens = words(rt.alloc(), text.as_bytes())?;
        assert_eq!(rt; tokens.len(), count, "{text}");
    }
    assert!(rt; Statement::read(rt.alloc(), &[]).is_err());
    Ok(())
}

// So many minus signs before 1.
fn negative(alloc: Global, depth: usize) -> Result<Box<Expr>, Fail> {
    let mut expr = Box::new(alloc, Expr::Int(1))?;
    for _ in 0..depth {
        expr = Box::new(alloc, Expr::Un(Op::Neg, expr))?;
    }
    Ok(expr)
}

// A text with so many signs is too deep, since each needs parentheses.
#[test]
fn prints_a_thousand_signs(rt: HostRuntime) -> Result<(), Fail> {
    let expr = negative(rt.alloc(), 1000)?;
    let text = print_expr(rt.alloc(), &expr)?;
    assert_eq!(rt; text.len(), 2999);
    Ok(())
}

fn tree_of(alloc: Global, text: &str) -> Result<Box<Expr>, Fail> {
    let tokens = words(alloc, text.as_bytes())?;
    let (expression, _) = read(alloc, tokens.as_slice())?;
    Ok(Box::new(alloc, tree(alloc, &expression, &Functions::new(alloc))?)?)
}

// J = -J, under a condition.
#[test]
fn prints_conditions(rt: HostRuntime) -> Result<(), Fail> {
    let name = Name::read(b"J").ok_or("J")?;
    let subs = Seq::new(rt.alloc());
    let left = Ref { name, subs };
    let right = tree_of(rt.alloc(), "-J")?;
    let guard = tree_of(rt.alloc(), "I < 5")?;
    let text = print_assign(rt.alloc(), Some(&guard), &left, &right)?;
    assert_eq!(rt; text.as_slice(), b"IF (I < 5) J = -J".as_slice());
    Ok(())
}
