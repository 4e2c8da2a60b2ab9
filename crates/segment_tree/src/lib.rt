//! A segment tree over 256 leaves, for any kind of record that can be joined.
#![tactic(auto)]

mod arrivals;
mod record;
mod runs;
#[cfg(test)]
mod tests;
mod tree;

pub use arrivals::{ArrivalRow, BestArrival, NO_TASK};
pub use record::Record;
pub use runs::{LATEST, RunRow, RunSummary};
pub use tree::{LEAVES, PLACES, SegmentTree};
