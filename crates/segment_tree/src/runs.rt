//! Run summaries: what a run of tasks comes to.

ghost use Rattle.std.specs.Prelude.{◌≤◌};

mod joins;

/// The greatest work or finish of a run summary.
pub const LATEST: u32 = 4_000_000_000;

/// A run of tasks on one processor, each as early as may be: the ticks it works, and the tick at which it has finished.
#[derive(Clone, Copy, PartialEq, Eq, Debug)]
pub struct RunSummary {
    work: u32,
    finish: u32,
    ghost ordered: { work ≤ finish },
    ghost bounded: { finish ≤ 4_000_000_000 },
}

// Apart from `ArrivalRow`: one type for both would lose the numbers' names, and take one kind's memory for the other's.
/// A run summary as it lies in memory.
#[derive(Clone, Copy, PartialEq, Eq, Debug)]
pub struct RunRow {
    pub work: u32,
    pub finish: u32,
}
