//! Laws of texts of Fortran 90. A law is a function without a body: its contract is what holds.
ghost use Rattle.std.specs.Prelude.{◌≡◌, ℕ, List, Option};
ghost use Rattle.tree.specs.Plain.{Expression};
ghost use Rattle.tree.specs.declared.functions.Intrinsic.{Intrinsic};
ghost use Rattle.f90_grammar.specs.Phrases.{tree_of};
ghost use Rattle.f90_grammar.specs.Printing.{phrase_of};
ghost use Rattle.f90_grammar.specs.Sources.{IsSource};

/// The phrase that is written for an expression, with parentheses by levels alone (ISO/IEC 1539:1991, section 7.1),
/// stands for that expression, whichever names are those of functions.
pub fn printed_expression_reads_back()
    ensures { (function : List ℕ → Option Intrinsic) (e : Expression)
        → IsSource function e → tree_of function (phrase_of e) ≡ e }
{}
