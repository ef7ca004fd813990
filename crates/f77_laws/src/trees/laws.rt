//! Laws of the tree that statements form. A law is a function without a body: its contract is what holds.
ghost use Rattle.std.specs.Prelude.{◌≡◌, ◌⊎◌, List};
ghost use Rattle.tree.specs.Plain.{Program};
ghost use Rattle.tree.specs.declared.refusals.Refusal.{Refusal};
ghost use Rattle.meaning.specs.Dialect.{Dialect};
ghost use Rattle.f77_grammar.specs.Statement77.{Labelled};
ghost use Rattle.f77_grammar.specs.program.Program77.{ReadsStatements, RefusedStatements};
ghost use Rattle.f77_laws.specs.trees.Laws.{NestedFormBlock, OneBlock, OneTree, ReadIsComputed, SomeTree, TreesAreOne};
ghost use Rattle.f77_laws.specs.trees.Pairs.{BlocksArePaired, EndIfIsPartner, OneEnd, OneIf, OpenIfIsPartner};
ghost use Rattle.f77_laws.specs.trees.Pairs.{SinceIsBetween, UnendedStandOutside};
ghost use Rattle.f77_laws.specs.trees.Written.{NestedAreClosed};

/// Statements form at most one block; where each label stands once none is nested wrongly exactly where they form one,
/// and that is the body of the tree that is computed of them from the last one back. So the program that is read is the
/// one that is computed.
pub fn statements_form_one_tree()
    ensures one_block { OneBlock }
    ensures nested { NestedFormBlock }
    ensures one_tree { OneTree }
    ensures some_tree { SomeTree }
    ensures same { TreesAreOne }
    ensures read { ReadIsComputed }
{}

/// END DO closes the nearest DO or block IF that is open: with the labels that loops have by END DO nothing is nested
/// wrongly exactly where the statements, as they are written, are closed in that way.
pub fn end_do_closes_nearest()
    ensures { NestedAreClosed }
{}

/// An END IF ends a block IF where all between them are paired. A block IF has its END IF, and an END IF its block IF,
/// exactly where the counts say so, and each has one alone; what the counts give as standing since an open block IF,
/// and outside block IFs that have ended, is what stands there; and in a block of the tree all are paired.
pub fn each_block_if_has_one_end_if()
    ensures ended { EndIfIsPartner }
    ensures open { OpenIfIsPartner }
    ensures one_end { OneEnd }
    ensures one_if { OneIf }
    ensures since { SinceIsBetween }
    ensures unended { UnendedStandOutside }
    ensures in_blocks { BlocksArePaired }
{}

/// The statements of a text are read as a program or refused, never both, and in one way alone.
pub fn text_is_read_or_refused()
    ensures either { (d : Dialect) (text : List Labelled)
        → ((p : Program) × ReadsStatements d text p) ⊎ ((r : Refusal) × RefusedStatements d text r) }
    ensures not_both { (d : Dialect) (text : List Labelled) (p : Program) (r : Refusal)
        → ReadsStatements d text p → RefusedStatements d text r → ⊥ }
    ensures one_program { (d : Dialect) (text : List Labelled) (p q : Program)
        → ReadsStatements d text p → ReadsStatements d text q → p ≡ q }
    ensures one_refusal { (d : Dialect) (text : List Labelled) (r s : Refusal)
        → RefusedStatements d text r → RefusedStatements d text s → r ≡ s }
{}
