//! What the definitions that compute come to, in words that name no computation. Each law is the contract of a function that does
//! nothing. The function names the lemma that proves it; where the check does not get from the lemma to the contract by itself, the
//! function's `Answers.antt` names it.

ghost use Rattle.schedule.specs.Laws.{EndsHaveNoArcOut, FrontIsLeast, GrowthAddsTheLowest, MakespanIsLeast, MarksAreNeeded, OrderIsSorted, PlanStartsWhenReady, RunIsShortest};

/// An end task is one that no arc leads out of.
pub fn ends_have_no_arc_out()
    ensures { EndsHaveNoArcOut }
{}

/// The makespan of a valid schedule is the least tick by which each end task has a row that has ended.
pub fn makespan_is_least()
    ensures { MakespanIsLeast }
{}

/// The running order has each task below a number once, by rising bound, then number.
pub fn order_is_sorted()
    ensures { OrderIsSorted }
{}

/// The run of a set is the least tick by which one processor can have run it, in whatever order, no task before its bound.
pub fn run_is_shortest()
    ensures { RunIsShortest }
{}

/// The front of a set is the least tick by which what every arc into it carries has come.
#[tactic(auto, using(crate::proofs::Fronts::front_high, crate::proofs::Fronts::front_low))]
pub fn front_is_least()
    ensures { FrontIsLeast }
{}

/// While the run of its set is below the front, growth adds the lowest first task of the arcs whose arrival is the front.
#[tactic(auto, using(crate::proofs::GrowthTurns::growth_adds_the_lowest_lem))]
pub fn growth_adds_the_lowest()
    ensures { GrowthAddsTheLowest }
{}

/// The marked tasks are the end tasks and those that feed the cluster of a marked task, and no others.
#[tactic(auto, using(crate::proofs::Marks::marks_are_needed_lem))]
pub fn marks_are_needed()
    ensures { MarksAreNeeded }
{}

/// Each marked task's home runs its cluster, and starts each copy as soon as the one before has ended and its inputs have come.
#[tactic(auto, using(crate::proofs::PlanStarts::plan_starts_when_ready_lem))]
pub fn plan_starts_when_ready()
    ensures { PlanStartsWhenReady }
{}
