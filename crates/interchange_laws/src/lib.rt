//! Laws of loop interchange (Allen and Kennedy, section 5.2): when the loops of a nest may be put in another order.
//!
//! Proved (laws), of a nest whose statements all stand in one chain of loops, with as many turns of each loop wherever
//! those round it are:
//!
//! - with its loops in any other order in which each direction vector still has `<` as its first entry other than `=`,
//!   the order of its instances keeps the vectors (`rearranged_order`), and to move a loop outwards over others is to
//!   exchange it with one after the other (`moved_loop`);
//! - where the vectors are those of all edges but antidependences of a statement on itself, and no statement reads the
//!   array that it writes but in the element that it writes, the instances leave the same store, and so does the run of
//!   the nest with its loops so, where its trips can be counted (`exchanged_loops`);
//! - these can be counted where those of the nest could, after one move outwards of a loop whose trip can be counted
//!   anyhow, or where that of the loop whose place it takes can, or where each loop that it passes has a turn; and
//!   those of the nest could where its run goes on (`counted_trips`);
//! - with its loops in any other order it is a nest, too, where its trips name symbols alone (`rearranged_nest`).
//!
//! **The orders of instances are judged by vectors, not by levels.** An order that keeps edges by their levels puts all
//! turns of the carrying loop in order, whatever the others do, which no interchange of it with an inner loop does.
//!
//! **One law for any list of exchanges of neighbouring loops**: a move is one, and so are several moves one after
//! another.
//!
//! **Antidependences of a statement on itself are left out.** Where a statement reads the element that it writes alone,
//! the edge from its left side to itself has the same vector and stays.
#![tactic(auto)]

pub mod orders;
pub mod runs;
