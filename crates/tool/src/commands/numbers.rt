//! The numbers of options.
ghost use Rattle.std.specs.Prelude.{◌≡◌};
ghost use Rattle.std.specs.Char.{is_ascii_digit};
ghost use Rattle.std.specs.List.{list_all};
ghost use Rattle.tool.specs.commands.Command.{number_of_word};

const MOST_DIGITS: usize = 20;

fn all_digits(text: &[u8]) -> bool
    ensures { result ≡ list_all is_ascii_digit text.now }
{
    text.iter().all(|byte| byte.is_ascii_digit())
}

// The number of an option, which has no sign.
#[tactic(auto, using(crate::proofs::commands::Parsed::read_number))]
pub(crate) fn number(digits: &str) -> Option<u64>
    ensures { result ≡ number_of_word digits.now }
{
    if digits.len() > MOST_DIGITS || !all_digits(digits.as_bytes()) {
        return None;
    }
    digits.parse().ok()
}
