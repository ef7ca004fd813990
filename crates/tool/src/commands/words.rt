//! Reads the words of a command.
ghost use Rattle.std.specs.Prelude.{◌≡◌, ◌≤◌, ℕ, Some, IfSome};
ghost use Rattle.generator.specs.Decks.{most_nests};
ghost use Rattle.tool.specs.commands.Command.{texts, options_of, width_of, command_of};
ghost use Rattle.tool.specs.commands.Command.{few_nests, nests_asked_for, request_of};

use crate::commands::commands::{Command, Options, Request};
use crate::commands::numbers::number;
use tree::Width;

const MOST_NESTS: u64 = 500;

fn options(words: &[String]) -> Option<Options>
    ensures { result ≡ options_of (texts words.now) }
{
    let mut options = Options::none();
    let mut rest = words;
    while let Some((word, after)) = rest.split_first() {
        if word.as_str() == "--steps" {
            let (digits, more) = after.split_first()?;
            options = options.with_steps(number(digits.as_str())?)?;
            rest = more;
        } else {
            options = options.with_option(word.as_str())?;
            rest = after;
        }
    }
    Some(options)
}

// How wide INTEGER is by the words behind `vectorise` or `graph`.
fn width(words: &[String]) -> Option<Width>
    ensures { result ≡ width_of (texts words.now) }
{
    let Some((word, others)) = words.split_first() else {
        return Some(Width::Plain);
    };
    if !others.is_empty() {
        return None;
    }
    if word.as_str() == "--wide" {
        return Some(Width::Wide);
    }
    None
}

// The command that the words are.
fn command(words: &[String]) -> Option<Command>
    ensures { result ≡ command_of (texts words.now) }
{
    let (name, rest) = words.split_first()?;
    match name.as_str() {
        "vectorise" => Some(Command::Vectorise(width(rest)?)),
        "graph" => Some(Command::Graph(width(rest)?)),
        "run77" => Some(Command::Run77(options(rest)?)),
        "run90" => Some(Command::Run90(options(rest)?)),
        _ => None,
    }
}

// So many nests, if they are 1 to 500.
fn few(nests: u64) -> Option<u32>
    ensures nests { result ≡ few_nests (Some nests) }
    ensures few { IfSome result (λ nests. nests ≤ most_nests) }
{
    if nests < 1 || nests > MOST_NESTS {
        return None;
    }
    Some(nests as u32)
}

// How many nests the words behind `make` ask for.
fn nests(words: &[String]) -> Option<u32>
    ensures nests { result ≡ nests_asked_for (texts words.now) }
    ensures few { IfSome result (λ nests. nests ≤ most_nests) }
{
    let (digits, more) = words.split_first()?;
    if !more.is_empty() {
        return None;
    }
    few(number(digits.as_str())?)
}

/// What the words after the program's name ask for.
pub fn request(words: &[String]) -> Option<Request>
    ensures request { result ≡ request_of (texts words.now) }
    ensures few { (n : ℕ) → result ≡ Some (Request.Make n) → n ≤ most_nests }
{
    let (name, numbers) = words.split_first()?;
    if name.as_str() == "make" {
        return Some(Request::Make(nests(numbers)?));
    }
    Some(Request::OnDeck(command(words)?))
}
