//! The limits of the forms that the bounds of loops get once each loop round them goes from 1 by 1 (Allen and Kennedy,
//! "Optimizing Compilers for Modern Architectures", section 4.2, loop normalization).
mod around;
mod forms;
mod limits;
mod numbers;
mod places;
mod walk;

pub use around::Outer;
pub use forms::WideForm;
pub use walk::Limits;
