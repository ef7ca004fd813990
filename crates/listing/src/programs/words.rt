//! The words of reasons.
ghost use Rattle.std.specs.Prelude.{◌≡◌};
ghost use Rattle.listing.specs.programs.Listing.{reason_word};

use find_nests::Reason;

pub(crate) fn reason_word(reason: Reason) -> &'static [u8]
    ensures { result.now ≡ reason_word reason }
{
    match reason {
        Reason::Exit => b"EXIT",
        Reason::InnerIf => b"INNERIF",
        Reason::Bound => b"BOUND",
        Reason::Step => b"STEP",
        Reason::Deep => b"DEEP",
        Reason::Large => b"LARGE",
    }
}
