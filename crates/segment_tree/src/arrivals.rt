//! Best arrivals: the greatest arrival among tasks, and whose it is.

ghost use Rattle.std.specs.Prelude.{◌≤◌};

mod joins;

/// The task number of the blank, which no task has.
pub const NO_TASK: u32 = 4_294_967_295;

/// An arrival and the number of its task.
#[derive(Clone, Copy, PartialEq, Eq, Debug)]
pub struct BestArrival {
    pub arrival: u32,
    pub task: u32,
    ghost bounded: { task ≤ 4_294_967_295 },
}

// Apart from `RunRow`: one type for both would lose the numbers' names, and take one kind's memory for the other's.
/// A best arrival as it lies in memory.
#[derive(Clone, Copy, PartialEq, Eq, Debug)]
pub struct ArrivalRow {
    pub arrival: u32,
    pub task: u32,
}
