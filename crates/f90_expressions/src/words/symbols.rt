//! The symbols of a statement: blanks and ends of lines are gaps, letters are upper case, and each character constant
//! is one symbol (ISO/IEC 1539:1991, sections 3.1, 3.3.1 and 4.3.2.1).
ghost use Rattle.std.specs.Prelude.{◌≡◌, ◌∷◌, [], ◌++◌, IfOk, OnOk};
ghost use Rattle.reading.specs.Characters.{upper};
ghost use Rattle.f90_expressions.specs.words.Scanning.{scan, scan_one, scan_out, scan_in, scan_closing, scan_end};
ghost use Rattle.f90_expressions.specs.words.Scanning.{with_front};
ghost use Rattle.f90_expressions.specs.words.Scanning as scanning;
ghost use Rattle.f90_expressions.specs.words.Symbols.{symbol_of, symbols_of, mode_of, Goes, Scans, EndsScan};

use reading::Stop;
use std::alloc::Global;
use tree::{Memory, Seq};

/// A symbol.
#[derive(Drop)]
pub(crate) enum Symbol {
    Char(u8),
    Gap,
    Text(Seq<u8>),
}

// Outside constants, in a constant, or behind an apostrophe in it, which ends it or is doubled.
#[derive(Drop)]
enum Mode {
    Out,
    In(Seq<u8>),
    Closing(Seq<u8>),
}

fn capital(c: u8) -> u8
    ensures { result ≡ upper c }
{
    c.to_ascii_uppercase()
}

fn shown(c: u8) -> Symbol
    ensures { symbol_of result ≡ scanning.shown c }
{
    match c {
        b' ' | b'\n' => Symbol::Gap,
        _ => Symbol::Char(capital(c)),
    }
}

// A character outside constants.
#[tactic(auto, using(crate::proofs::OfWords::ScanningLaws::fronts))]
fn scan_out(alloc: Global, c: u8, symbols: &mut Vec<Symbol>) -> Result<Mode, Stop>
    ensures { Scans result symbols.old.items symbols.new.items (scan_out c) }
{
    if c == b'\'' {
        return Ok(Mode::In(Seq::new(alloc)));
    }
    symbols.push(shown(c))?;
    Ok(Mode::Out)
}

// A character of a constant.
fn scan_in(mut text: Seq<u8>, c: u8) -> Result<Mode, Stop>
    ensures { Goes result (scan_in text c) }
{
    if c == b'\'' {
        return Ok(Mode::Closing(text));
    }
    if c == b'\n' {
        return Err(Stop::Syntax);
    }
    text.push(c)?;
    Ok(Mode::In(text))
}

// A character behind an apostrophe of a constant.
#[tactic(auto, using(crate::proofs::OfWords::ScanningLaws::fronts))]
fn scan_closing(
    alloc: Global,
    mut text: Seq<u8>,
    c: u8,
    symbols: &mut Vec<Symbol>,
) -> Result<Mode, Stop>
    ensures { Scans result symbols.old.items symbols.new.items (scan_closing text c) }
{
    if c == b'\'' {
        text.push(c)?;
        return Ok(Mode::In(text));
    }
    if text.is_empty() {
        return Err(Stop::Syntax);
    }
    symbols.push(Symbol::Text(text))?;
    scan_out(alloc, c, symbols)
}

fn scan_one(alloc: Global, mode: Mode, c: u8, symbols: &mut Vec<Symbol>) -> Result<Mode, Stop>
    ensures { Scans result symbols.old.items symbols.new.items (scan_one (mode_of mode) c) }
{
    match mode {
        Mode::Out => scan_out(alloc, c, symbols),
        Mode::In(text) => scan_in(text, c),
        Mode::Closing(text) => scan_closing(alloc, text, c, symbols),
    }
}

// The symbols at the end of the statement.
fn scan_end(mode: Mode, mut symbols: Vec<Symbol>) -> Result<Vec<Symbol>, Stop>
    ensures { EndsScan result (with_front (symbols_of symbols.items) (scan_end (mode_of mode))) }
{
    match mode {
        Mode::Out => Ok(symbols),
        Mode::In(_) => Err(Stop::Syntax),
        Mode::Closing(text) => {
            if text.is_empty() {
                return Err(Stop::Syntax);
            }
            symbols.push(Symbol::Text(text))?;
            Ok(symbols)
        }
    }
}

/// The symbols of a statement's characters, where it has some.
pub(crate) fn symbols(alloc: Global, chars: &[u8]) -> Result<Vec<Symbol>, Stop>
    ensures { EndsScan result (scan chars.now scanning.Out) }
{
    let mut symbols = Vec::new(alloc);
    let mut mode = Mode::Out;
    'scanning: for c in chars {
        mode = scan_one(alloc, mode, *c, &mut symbols)?;
    }
    scan_end(mode, symbols)
}
