//! Lists, names, operators and functions by their calls: operands of kinds that no program gives them, and facts that
//! no answer of the tool shows by itself.
use std::test::Fail;
use tree::{Arguments, Cause, Fault, Fun, Intrinsic, Kind, Name, Op, Red, Refusal, Seq, Value};

const NO: Value = Value::Truth(false);

const THREE: Value = Value::Int(3);

#[test]
fn operands_of_other_kinds(rt: HostRuntime) {
    for (op, left, right, want) in [
        (Op::Neg, THREE, NO, Ok(Value::Int(-3))),
        (Op::Not, NO, THREE, Ok(Value::Truth(true))),
        (Op::Add, NO, NO, Err(Fault::Shape)),
        (Op::And, NO, THREE, Err(Fault::Shape)),
    ] {
        assert!(rt; op.apply(left, right) == want, "at {op:?}");
    }
    assert!(rt; NO.as_truth() == Ok(false) && NO.as_number() == Err(Fault::Shape));
}

#[test]
fn arguments_of_other_kinds(rt: HostRuntime) {
    let truth = Arguments::Empty
        .with(Fun::Max, THREE)
        .with(Fun::Max, Value::Truth(true));
    for (got, is_shape) in [
        (Fun::Min.apply(&[Value::Int(1)]), true),
        (Fun::Abs.apply(&[Value::Truth(true)]), true),
        (Arguments::Empty.call(Fun::Max), true),
        (truth.call(Fun::Max), true),
        (Arguments::Two(-7, 3).call(Fun::Abs), true),
        (Arguments::Two(-7, 3).call(Fun::Mod), false),
    ] {
        assert!(rt; (got == Err(Fault::Shape)) == is_shape, "{got:?}");
    }
}

#[test]
fn spelling_and_levels(rt: HostRuntime) {
    for (what, is_so) in [
        (
            "spelling",
            Op::Le.spell77() == ".LE." && Op::Le.spell90() == "<=",
        ),
        ("level", Op::Neg.level() == 7),
        (
            "power",
            Op::Pow.left_least() == 10 && Op::Pow.right_least() == 9,
        ),
        (
            "relation",
            Op::Ge.left_least() == 7 && Op::Ge.right_least() == 7,
        ),
        (
            "difference",
            Op::Sub.left_least() == 7 && Op::Sub.right_least() == 8,
        ),
        (
            "kinds",
            Op::Ge.operand_kind() == Kind::Integer && Op::Ge.result_kind() == Kind::Logical,
        ),
        (
            "relations",
            Op::Ge.is_relation() && !Op::Add.is_relation() && !Op::And.is_relation(),
        ),
        ("signs", Op::Add.takes_sign() && !Op::And.takes_sign()),
        (
            "minus",
            Op::read77(b"-", true) == Some(Op::Sub) && Op::read77(b"-", false) == Some(Op::Neg),
        ),
        (
            "unequal",
            Op::read90(b"/=", true) == Some(Op::Ne) && Op::read90(b".NE.", true) == None,
        ),
        (
            "functions",
            Fun::read77(b"IABS") == Some(Fun::Abs) && Fun::read77(b"MAX0") == Some(Fun::Max),
        ),
        (
            "no function",
            Fun::read77(b"SUM") == None && Intrinsic::read90(b"MAX0") == None,
        ),
        (
            "MAX",
            Intrinsic::read90(b"MAX") == Some(Intrinsic::Elemental(Fun::Max)),
        ),
        (
            "MINVAL",
            Intrinsic::read90(b"MINVAL") == Some(Intrinsic::Reduction(Red::MinVal)),
        ),
        (
            "RESHAPE",
            Intrinsic::read90(b"RESHAPE") == Some(Intrinsic::Reshape),
        ),
        ("SPREAD", Intrinsic::Spread.spell90() == "SPREAD"),
    ] {
        assert!(rt; is_so, "{what}");
    }
}

#[test]
fn causes_have_names(rt: HostRuntime) {
    for (cause, number, word, name, limit) in [
        (Cause::TooLong, 1, 0, "TooLong", ""),
        (Cause::OutOfProfile(34), 7, 34, "OutOfProfile", ""),
        (Cause::DoVariable, 17, 0, "DoVariable", ""),
        (Cause::ReversedBounds, 18, 43, "Limit", "BOUNDS"),
        (Cause::Untyped, 19, 0, "Untyped", ""),
        (Cause::BadByte90, 31, 0, "BadByte", ""),
        (Cause::Limit90, 40, 0, "Limit", ""),
    ] {
        let refusal = cause.at(9);
        let is_so = refusal.number == number && refusal.line == 9 && refusal.word == word;
        assert!(rt;
            is_so && refusal.name() == name && refusal.limit() == limit,
            "{cause:?}"
        );
    }
    let other = Refusal {
        number: 20,
        line: 1,
        word: 0,
    };
    assert!(rt; other.name() == "");
}

#[test]
fn names_are_read(rt: HostRuntime) {
    let texts: [(&[u8], bool); 8] = [
        (b"A", true),
        (b"i_9", true),
        (b"ABCDEFGHIJKLMNOPQRSTUVWXYZ_2345", true),
        (b"ABCDEFGHIJKLMNOPQRSTUVWXYZ_23456", false),
        (b"", false),
        (b"9A", false),
        (b"_A", false),
        (b"A B", false),
    ];
    for (text, is_name) in texts {
        assert!(rt; Name::read(text).is_some() == is_name, "{text:?}");
    }
}

#[test]
fn names_are_compared(rt: HostRuntime) -> Result<(), Fail> {
    let short = Name::read(b"AB").ok_or("AB")?;
    let long = Name::read(b"AB_").ok_or("AB_")?;
    assert!(rt; long.text() == b"AB_".as_slice() && short.is_source() && !long.is_source());
    assert!(rt; short < long && short != long && Name::read(b"AB") == Some(short));
    Ok(())
}

#[test]
fn lists_grow_and_shrink(rt: HostRuntime) -> Result<(), Fail> {
    let mut list = Seq::new(rt.alloc());
    for number in [3u8, 1, 2] {
        list.push(number)?;
    }
    assert!(rt;
        list.as_slice() == [3, 1, 2].as_slice() && list.get(1) == Some(&1) && list.get(3) == None
    );
    assert!(rt; list.pop() == Some(2) && list.len() == 2 && !list.is_empty());
    let mut list = Seq::from_vec(list.into_vec());
    assert!(rt; list.pop() == Some(1) && list.pop() == Some(3) && list.pop() == None);
    Ok(())
}
