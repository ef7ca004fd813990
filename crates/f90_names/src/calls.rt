//! The statements of a text, where each has a form whose calls have arguments that may stand there (ISO/IEC 1539:1991,
//! sections 13.13 and 14.1.2).
//!
//! Proved (`placed`): statements are given with their forms, lines and marks exactly where each has a form whose calls
//! have arguments that may stand there (`ok`, `unrefused`, `only_placed`), else the first line with one that has none
//! is refused (`refused`, `only_refused`). All declarations of the text are known before, since a declared name hides a
//! function.
mod hiding;
mod placing;
mod walk;

pub use placing::placed;
