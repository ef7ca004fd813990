//! Laws of reductions.
#![tactic(auto)]

pub mod blocks;
pub mod gathering;
pub mod unread;
