//! How many elements the bounds of arrays make, up to one more than a program may have.
//!
//! Proved: sums, products and sizes of dimensions, exact up to one more than the most elements (`sum_of`, `product_of`,
//! `size_between`).
mod counts;

pub use counts::{product_of, size_between, sum_of};
