//! Calls with arguments that no deck gives: tests alone.
#![tactic(auto)]

#[cfg(test)]
mod dependence;
#[cfg(test)]
mod listed_graphs;
#[cfg(test)]
mod read_texts;
#[cfg(test)]
mod running;
#[cfg(test)]
mod texts;
