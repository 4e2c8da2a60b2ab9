//! Small graphs worked by hand.

ghost use Rattle.schedule.specs.Cases.{Cases};

/// The bounds, clusters, plans and lengths of a pair, a diamond, and a join on a slow and on a faster link.
#[tactic(auto, using(crate::proofs::WorkedCases::worked_cases_lem))]
pub fn worked_cases()
    ensures { Cases }
{}
