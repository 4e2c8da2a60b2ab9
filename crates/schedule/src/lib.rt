//! What a task graph, a schedule and a plan are, and the theorems about them: every definition that the planner's contracts
//! cite is in this crate's `specs/`.
#![tactic(auto)]

mod cases;
mod laws;
mod theorems;

pub use cases::worked_cases;
pub use laws::{
    ends_have_no_arc_out, front_is_least, growth_adds_the_lowest, makespan_is_least,
    marks_are_needed, order_is_sorted, plan_starts_when_ready, run_is_shortest,
};
pub use theorems::{
    bounds_exist_and_are_unique, fronts_are_joined_arrivals, growth_attains_the_least,
    no_schedule_starts_earlier, numbers_fit, plan_is_short, plan_is_valid,
    runs_are_joined_summaries,
};

/// An arc of a task graph: what the task `second` needs of the task `first` takes `delay` ticks from one processor to another.
#[derive(Clone, Copy, PartialEq, Eq, Debug)]
pub struct Arc {
    pub first: u32,
    pub second: u32,
    pub delay: u32,
}

/// A row of a schedule: a processor runs a copy of a task from its start on.
#[derive(Clone, Copy, PartialEq, Eq, Debug)]
pub struct Row {
    pub processor: u32,
    pub task: u32,
    pub start: u32,
}
