//! The limits that this product sets to texts and programs.

/// Bytes of a FORTRAN 77 source.
pub const SOURCE_BYTES: usize = 1 << 20;

/// Bytes of a deck with a FORTRAN 77 source.
pub const DECK_BYTES: usize = 1 << 24;

/// Bytes of a deck with a Fortran 90 program.
pub const DECK_BYTES_90: usize = 1 << 28;

/// Continuation lines of a FORTRAN 77 statement (ANSI X3.9-1978, 3.2.3).
pub const CONTINUATION_LINES: u32 = 19;

/// The greatest literal.
pub const GREATEST_LITERAL: i128 = i128::MAX;

/// How deep an expression of FORTRAN 77 may be.
pub const EXPRESSION_DEPTH_77: u16 = 400;

/// How deep an expression of Fortran 90 may be.
pub const EXPRESSION_DEPTH_90: u16 = 1000;

/// How deep blocks and loops of FORTRAN 77 may stand in each other.
pub const BLOCK_DEPTH_77: usize = 100;

/// How deep blocks and loops of Fortran 90 may stand in each other.
pub const BLOCK_DEPTH_90: usize = 300;

/// Names of variables and symbolic constants of a FORTRAN 77 program.
pub const PROGRAM_NAMES_77: usize = 1000;

/// Names of variables of a Fortran 90 program.
pub const PROGRAM_NAMES_90: usize = 100_000;

/// Elements of all arrays that a program declares.
pub const ARRAY_ELEMENTS: u64 = 1 << 22;

/// Dimensions of an array (ANSI X3.9-1978, 5.1.1).
pub const ARRAY_DIMENSIONS: usize = 7;

/// Loops of a nest that stand in each other.
pub const NEST_DEPTH: usize = 7;

/// Assignments of a nest.
pub const NEST_STATEMENTS: usize = 200;

/// Occurrences in a nest of variables other than DO variables.
pub const NEST_REFERENCES: usize = 400;

/// The size of a linear form's coefficients and of its constant.
pub const FORM_COEFFICIENT: i64 = 1 << 40;
