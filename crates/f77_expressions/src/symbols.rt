//! The symbols of a statement: blanks have no meaning, letters are upper case, and each character constant is one
//! symbol (ANSI X3.9-1978, sections 3.1.6 and 4.8).
ghost use Rattle.std.specs.Prelude.{◌≡◌, ℕ, List, ◌∷◌, [], ◌++◌, IfOk, OnOk};
ghost use Rattle.f77_grammar.specs.expressions.Squeezing.{Squeezed};
ghost use Rattle.reading.specs.Characters.{upper};
ghost use Rattle.f77_grammar.specs.expressions.Squeezing as squeezing;
ghost use Rattle.f77_expressions.specs.Scanning as scanning;
ghost use Rattle.f77_expressions.specs.Symbols.{symbol_of, symbols_of, mode_of};

use std::alloc::Global;
use tree::{Memory, Seq};

/// A symbol. `Broken` is a constant without characters, or an apostrophe that begins no constant, with all that
/// follows it.
#[derive(Drop)]
pub enum Symbol {
    Char(u8),
    Text(Seq<u8>),
    Broken,
}

// Outside constants, in a constant, or behind an apostrophe in it, which ends it or is doubled.
#[derive(Drop)]
enum Mode {
    Out,
    In(Seq<u8>),
    Closing(Seq<u8>),
}

fn capital(c: u8) -> u8
    ensures { result ≡ upper c }
{
    c.to_ascii_uppercase()
}

fn closed(text: Seq<u8>) -> Symbol
    ensures { symbol_of result ≡ scanning.closed text }
{
    if text.is_empty() {
        Symbol::Broken
    } else {
        Symbol::Text(text)
    }
}

// A character outside constants.
fn scan_out(alloc: Global, c: u8, symbols: &mut Vec<Symbol>) -> Result<Mode, Memory>
    ensures { IfOk result (λ mode. (cs : List ℕ) →
        symbols_of symbols.old.items ++ scanning.scan (c ∷ cs) scanning.Out
        ≡ symbols_of symbols.new.items ++ scanning.scan cs (mode_of mode)) }
{
    if c == b'\'' {
        return Ok(Mode::In(Seq::new(alloc)));
    }
    if c != b' ' {
        symbols.push(Symbol::Char(capital(c)))?;
    }
    Ok(Mode::Out)
}

// A character of a constant.
fn scan_in(mut text: Seq<u8>, c: u8) -> Result<Mode, Memory>
    ensures { IfOk result (λ mode. (cs : List ℕ)
        → scanning.scan (c ∷ cs) (scanning.In text) ≡ scanning.scan cs (mode_of mode)) }
{
    if c == b'\'' {
        return Ok(Mode::Closing(text));
    }
    text.push(c)?;
    Ok(Mode::In(text))
}

// A character behind an apostrophe of a constant.
fn scan_closing(
    alloc: Global,
    mut text: Seq<u8>,
    c: u8,
    symbols: &mut Vec<Symbol>,
) -> Result<Mode, Memory>
    ensures { IfOk result (λ mode. (cs : List ℕ) →
        symbols_of symbols.old.items ++ scanning.scan (c ∷ cs) (scanning.Closing text)
        ≡ symbols_of symbols.new.items ++ scanning.scan cs (mode_of mode)) }
{
    if c == b'\'' {
        text.push(c)?;
        return Ok(Mode::In(text));
    }
    symbols.push(closed(text))?;
    scan_out(alloc, c, symbols)
}

fn scan(alloc: Global, mode: Mode, c: u8, symbols: &mut Vec<Symbol>) -> Result<Mode, Memory>
    ensures { IfOk result (λ next. (cs : List ℕ) →
        symbols_of symbols.old.items ++ scanning.scan (c ∷ cs) (mode_of mode)
        ≡ symbols_of symbols.new.items ++ scanning.scan cs (mode_of next)) }
{
    match mode {
        Mode::Out => scan_out(alloc, c, symbols),
        Mode::In(text) => scan_in(text, c),
        Mode::Closing(text) => scan_closing(alloc, text, c, symbols),
    }
}

// The end of the statement.
fn end(mode: Mode, symbols: &mut Vec<Symbol>) -> Result<(), Memory>
    ensures { OnOk result (symbols_of symbols.old.items ++ scanning.scan [] (mode_of mode)
        ≡ symbols_of symbols.new.items) }
{
    match mode {
        Mode::Out => Ok(()),
        Mode::In(_) => {
            symbols.push(Symbol::Broken)?;
            Ok(())
        }
        Mode::Closing(text) => {
            symbols.push(closed(text))?;
            Ok(())
        }
    }
}

/// The symbols of a statement's characters.
pub fn squeeze(alloc: Global, chars: &[u8]) -> Result<Vec<Symbol>, Memory>
    ensures found { IfOk result (λ symbols. Squeezed chars.now (symbols_of symbols.items)) }
    ensures only { IfOk result (λ symbols. (ss : List squeezing.Symbol77) → Squeezed chars.now ss
        → symbols_of symbols.items ≡ ss) }
{
    let mut symbols = Vec::new(alloc);
    let mut mode = Mode::Out;
    'scanning: for c in chars {
        mode = scan(alloc, mode, *c, &mut symbols)?;
    }
    end(mode, &mut symbols)?;
    Ok(symbols)
}
