//! The forms of the statements of a text (ISO/IEC 1539:1991, section 3.3.1).
mod placing;
mod read_forms;

pub use placing::{Placed, places};
pub use read_forms::forms;
