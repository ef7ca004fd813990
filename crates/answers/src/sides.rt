//! A subscript, as in `2*i+N-1`.
use subscripts::Affine;

/// What stands in a subscript so far.
#[derive(Clone, Copy)]
struct Sums {
    loops: [i64; 7],
    symbols: [i64; 26],
    constant: i64,
}

/// A term that is being read.
#[derive(Clone, Copy)]
struct Term {
    negative: bool,
    number: Option<i64>,
    letter: Option<u8>,
}

const NEW: Term = Term {
    negative: false,
    number: None,
    letter: None,
};

/// The letters of loops: how many stand round both references, and the letter and number of those round one alone.
#[derive(Clone, Copy)]
pub struct Letters {
    pub common: u8,
    pub first_own: u8,
    pub own: u8,
}

impl Letters {
    /// The place of a loop.
    fn place(self, letter: u8) -> Option<usize> {
        if letter >= b'i' && letter < b'i'.saturating_add(self.common) {
            return Some(usize::from(letter - b'i'));
        }
        if letter >= self.first_own && letter < self.first_own.saturating_add(self.own) {
            return Some(usize::from(self.common) + usize::from(letter - self.first_own));
        }
        None
    }
}

impl Term {
    /// One more character of the term.
    fn with(self, character: u8) -> Option<Term> {
        let mut term = self;
        if character.is_ascii_digit() {
            let digit = i64::from(character - b'0');
            term.number = Some(
                self.number
                    .unwrap_or(0)
                    .checked_mul(10)?
                    .checked_add(digit)?,
            );
            return Some(term);
        }
        if character.is_ascii_alphabetic() {
            term.letter = Some(character);
            return Some(term);
        }
        if character == b'*' || character == b' ' {
            Some(term)
        } else {
            None
        }
    }

    fn coefficient(self) -> i64 {
        let number = self.number.unwrap_or(1);
        if self.negative {
            number.saturating_neg()
        } else {
            number
        }
    }
}

impl Sums {
    /// With this term.
    fn with(self, term: Term, letters: Letters) -> Option<Sums> {
        let mut sums = self;
        let times = term.coefficient();
        match term.letter {
            Some(letter) if letter.is_ascii_uppercase() => {
                let symbol = usize::from(letter - b'A');
                sums.symbols[symbol] = self.symbols[symbol].checked_add(times)?;
            }
            Some(letter) => {
                let place = letters.place(letter)?;
                *sums.loops.get_mut(place)? = self.loops.get(place)?.checked_add(times)?;
            }
            None => {
                if term.number.is_some() {
                    sums.constant = self.constant.checked_add(times)?;
                }
            }
        }
        Some(sums)
    }

    fn affine(&self) -> Option<Affine> {
        let mut syms = [(0u16, 0i64); 8];
        let mut used = 0usize;
        for (symbol, times) in self.symbols.iter().enumerate() {
            if *times != 0 {
                *syms.get_mut(used)? = (symbol as u16, *times);
                used = used.saturating_add(1);
            }
        }
        Some(Affine {
            loops: self.loops,
            syms,
            constant: self.constant,
        })
    }
}

/// The form of a subscript, or None where it isn't of that form.
pub fn affine(text: &str, letters: Letters) -> Option<Affine> {
    let mut sums = Sums {
        loops: [0; 7],
        symbols: [0; 26],
        constant: 0,
    };
    let mut term = NEW;
    for character in text.as_bytes() {
        if *character == b'+' || *character == b'-' {
            sums = sums.with(term, letters)?;
            term = Term {
                negative: *character == b'-',
                number: None,
                letter: None,
            };
        } else {
            term = term.with(*character)?;
        }
    }
    sums.with(term, letters)?.affine()
}
