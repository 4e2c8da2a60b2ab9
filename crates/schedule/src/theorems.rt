//! The theorems on bounds, growth and plans. Each is the contract of a function that does nothing: the crate is proved only with
//! the theorem. The function names the lemma that proves it; where the check does not get from the lemma to the contract by itself, the
//! function's `Answers.antt` names it. Durations may be 0 in all of them.

ghost use Rattle.schedule.specs.Arrivals.{FrontsAreJoinedArrivals};
ghost use Rattle.schedule.specs.Sizes.{NumbersFit};
ghost use Rattle.schedule.specs.Summaries.{RunsAreJoinedSummaries};
ghost use Rattle.schedule.specs.Theorems.{BoundsExistAndAreUnique, GrowthAttainsTheLeast, NoScheduleStartsEarlier, PlanIsShort, PlanIsValid};

/// Every forward graph has bounds, growth finds them, and no other list of numbers is its bounds.
pub fn bounds_exist_and_are_unique()
    ensures { BoundsExistAndAreUnique }
{}

/// The least reach of growth's sets is the least over all sets of ancestors, and the cluster is the earliest set that attains it.
pub fn growth_attains_the_least()
    ensures { GrowthAttainsTheLeast }
{}

/// No valid schedule, on any number of processors and with any copies, starts a task before its bound.
#[tactic(auto, using(crate::proofs::NoEarlier::no_schedule_starts_earlier_lem))]
pub fn no_schedule_starts_earlier()
    ensures { NoScheduleStartsEarlier }
{}

/// The plan is a valid schedule.
#[tactic(auto, using(crate::proofs::PlanValid::plan_is_valid_lem))]
pub fn plan_is_valid()
    ensures { PlanIsValid }
{}

/// The plan is short: if p × delay is at most q × the first task's duration on every arc, then (p + q) × its length is at most
/// (p + 2q) × the length of every valid schedule.
#[tactic(auto, using(crate::proofs::PlanShort::plan_is_short_lem))]
pub fn plan_is_short()
    ensures { PlanIsShort }
{}

/// With at most 256 tasks, and durations and delays of at most 1,000,000, every number that the planner computes is below 2³⁰.
pub fn numbers_fit()
    ensures { NumbersFit }
{}

/// A run is what the joined run summaries of its tasks say: from tick t on, the greater of t + work and finish.
#[tactic(auto, using(crate::proofs::Summaries::runs_are_joined_summaries_lem))]
pub fn runs_are_joined_summaries()
    ensures { RunsAreJoinedSummaries }
{}

/// The front of a set, and the task that growth adds to it, are what the joined best arrivals of the tasks say.
#[tactic(auto, using(crate::proofs::Arrivals::fronts_are_joined_arrivals_lem))]
pub fn fronts_are_joined_arrivals()
    ensures { FrontsAreJoinedArrivals }
{}
