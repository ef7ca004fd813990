//! How classes and verdicts are written.
use std::alloc::{AllocError, Global};
use subscripts::{Class, Point, Test, Verdict};

pub fn class_name(class: Class) -> &'static str {
    match class {
        Class::Ziv => "Ziv",
        Class::Strong => "Strong",
        Class::WeakZero => "WeakZero",
        Class::WeakCrossing => "WeakCrossing",
        Class::GeneralSiv => "GeneralSiv",
        Class::Miv => "Miv",
        Class::Unknown => "Unknown",
    }
}

fn test_name(test: Test) -> &'static str {
    match test {
        Test::Trip => "Trip",
        Test::Scalar => "Scalar",
        Test::Ziv => "Ziv",
        Test::Strong => "Strong",
        Test::WeakZero => "WeakZero",
        Test::Crossing => "Crossing",
        Test::Siv => "Siv",
        Test::Delta => "Delta",
        Test::Gcd => "Gcd",
        Test::Range => "Range",
        Test::Miv => "Miv",
        Test::Unknown => "Unknown",
    }
}

/// The iterations of so many loops.
fn push_point(out: &mut String, alloc: Global, point: &Point, depth: u8) -> Result<(), AllocError> {
    out.push_str("(")?;
    for (place, iteration) in point.at.iter().enumerate() {
        if place < usize::from(depth) {
            if place > 0 {
                out.push_str(",")?;
            }
            out.push_str(format!(in alloc; "{iteration}")?.as_str())?;
        }
    }
    out.push_str(")")?;
    Ok(())
}

/// A verdict on references under so many loops.
pub fn push_verdict(
    out: &mut String,
    alloc: Global,
    verdict: &Verdict,
    depths: (u8, u8),
) -> Result<(), AllocError> {
    let test = match verdict {
        Verdict::Never(test) => {
            out.push_str("Never ")?;
            *test
        }
        Verdict::Assumed(test) => {
            out.push_str("Assumed ")?;
            *test
        }
        Verdict::Pair(first, second, test) => {
            out.push_str("Pair ")?;
            push_point(out, alloc, first, depths.0)?;
            out.push_str(" ")?;
            push_point(out, alloc, second, depths.1)?;
            out.push_str(" ")?;
            *test
        }
    };
    out.push_str(test_name(test))?;
    out.push_str("\n")?;
    Ok(())
}
