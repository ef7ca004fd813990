//! What no row of a file can show: sources and sinks that fail or take one byte a call, operands that no program has,
//! and notes of lines that no deck has. Tests alone.
#![tactic(auto)]

#[cfg(test)]
mod copies;
#[cfg(test)]
mod notes;
#[cfg(test)]
mod stream_calls;
#[cfg(test)]
mod tool_calls;
#[cfg(test)]
mod trees;
