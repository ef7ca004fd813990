//! Commands and their options.
ghost use Rattle.std.specs.Prelude.{◌≡◌, Some};
ghost use Rattle.tool.specs.commands.Command.{no_options, and_wide, and_final, and_steps, and_option};

use crate::commands::numbers::number;
use tree::Width;

/// The options of a run.
#[derive(Clone, Copy, Debug, PartialEq, Eq)]
pub struct Options {
    /// How wide INTEGER is.
    pub width: Width,
    /// Whether the final store is written.
    pub final_store: bool,
    /// The most steps that the run may take.
    pub steps: Option<u64>,
}

/// What is done with a deck.
#[derive(Clone, Copy, Debug, PartialEq, Eq)]
pub enum Command {
    /// The deck is translated, with INTEGER of this width.
    Vectorise(Width),
    /// The dependences of its loops are listed, with INTEGER of this width.
    Graph(Width),
    /// The deck of FORTRAN 77 is run.
    Run77(Options),
    /// The deck of Fortran 90 is run.
    Run90(Options),
}

/// What the words after the program's name ask for.
#[derive(Clone, Copy, Debug, PartialEq, Eq)]
pub enum Request {
    /// The command is given the deck.
    OnDeck(Command),
    /// A deck of so many nests is made, and the translation of it is run.
    Make(u32),
}

impl Options {
    /// No option is given.
    pub(crate) fn none() -> Options
        ensures { result ≡ no_options }
    {
        Options {
            width: Width::Plain,
            final_store: false,
            steps: None,
        }
    }

    fn with_wide(self) -> Option<Options>
        ensures { result ≡ and_wide (Some self) }
    {
        match self.width {
            Width::Wide => None,
            Width::Plain => Some(Options {
                width: Width::Wide,
                ..self
            }),
        }
    }

    fn with_final(self) -> Option<Options>
        ensures { result ≡ and_final (Some self) }
    {
        if self.final_store {
            return None;
        }
        Some(Options {
            final_store: true,
            ..self
        })
    }

    pub(crate) fn with_steps(self, steps: u64) -> Option<Options>
        ensures { result ≡ and_steps (Some steps) (Some self) }
    {
        if self.steps.is_some() {
            return None;
        }
        Some(Options {
            steps: Some(steps),
            ..self
        })
    }

    // With the option that is one word by itself.
    pub(crate) fn with_option(self, word: &str) -> Option<Options>
        ensures { result ≡ and_option word.now (Some self) }
    {
        if word == "--final" {
            return self.with_final();
        }
        if word == "--wide" {
            return self.with_wide();
        }
        let digits = word.strip_prefix("--steps=")?;
        self.with_steps(number(digits)?)
    }
}
