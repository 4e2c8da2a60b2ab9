//! How best arrivals are joined.

ghost use Rattle.std.specs.Prelude.{◌≡◌};
ghost use Rattle.std.proofs.Common.{arith, rules};
ghost use Rattle.std.proofs.lemmas.Bool.Decides.{nat_tests};
ghost use Rattle.segment_tree.specs.BestArrivals.{best_arrivals, best_joined, best_read, wins, Winner};
ghost use Rattle.segment_tree.specs.Same.{same_arrival, same_arrival_row};

use crate::arrivals::{ArrivalRow, BestArrival, NO_TASK};
use crate::record::Record;
use std::cmp::Reverse;

impl BestArrival {
    // Whether the other's arrival is less, or equal with a higher number.
    fn wins_over(&self, other: &BestArrival) -> bool
        ensures { result ≡ wins self.now other.now }
    {
        (self.arrival, Reverse(self.task)) > (other.arrival, Reverse(other.task))
    }
}

#[tactic(auto, using(crate::specs::Same::same_arrival))]
impl Record for BestArrival {
    type Row = ArrivalRow;

    ghost kind = { best_arrivals };

    ghost left = { Prim.grind (arith, nat_tests, same_arrival) };

    ghost right = { Prim.grind (arith, nat_tests, same_arrival) };

    ghost associative = { Prim.search rules };

    ghost kept = { Prim.grind (arith, nat_tests, same_arrival) };

    ghost unmade = { λ row none. Prim.grind (arith, nat_tests, same_arrival, same_arrival_row, none (best_read row)) };

    fn blank() -> BestArrival {
        BestArrival {
            arrival: 0,
            task: NO_TASK,
        }
    }

    fn join(self, right: BestArrival) -> BestArrival
        ensures joined { result ≡ best_joined self right }
        ensures winner { Winner self right result }
    {
        if right.wins_over(&self) { right } else { self }
    }

    fn from_row(row: ArrivalRow) -> BestArrival {
        BestArrival {
            arrival: row.arrival,
            task: row.task,
        }
    }

    fn to_row(self) -> ArrivalRow {
        ArrivalRow {
            arrival: self.arrival,
            task: self.task,
        }
    }
}
