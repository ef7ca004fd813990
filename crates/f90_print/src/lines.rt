//! Lines of free form (ISO/IEC 1539:1991, section 3.3.1).
ghost use Rattle.std.specs.Prelude.{◌≡◌, ◌++◌, OnOk};
ghost use Rattle.f90_print.specs.Texts.{statement_lines};

use crate::texts::push;
use tree::Memory;

// How many characters of a statement a line has, apart from ampersands.
const PIECE_LENGTH: usize = 130;

// The lines of a statement's text, each with its end.
pub(crate) fn push_lines(out: &mut Vec<u8>, text: &[u8]) -> Result<(), Memory>
    ensures { OnOk result (out.new.items ≡ out.old.items ++ statement_lines text.now) }
{
    let mut rest = text;
    'pieces: while rest.len() > PIECE_LENGTH {
        let (piece, others) = rest.split_at(PIECE_LENGTH);
        push(out, piece)?;
        push(out, b"&\n&")?;
        rest = others;
    }
    push(out, rest)?;
    push(out, b"\n")
}
