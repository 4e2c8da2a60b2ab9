//! How run summaries are made and joined.

ghost use Rattle.std.specs.Prelude.{◌≡◌, ◌+◌, ◌<◌, ◌⊎◌, MatchOption};
ghost use Rattle.std.proofs.Common.{arith};
ghost use Rattle.std.proofs.lemmas.Bool.Decides.{nat_tests};
ghost use Rattle.segment_tree.specs.RunSummaries.{capped, run_joined, run_read, run_summaries, InTurn};
ghost use Rattle.segment_tree.specs.Same.{same_run, same_run_row};

use crate::record::Record;
use crate::runs::{LATEST, RunRow, RunSummary};

// A sum past the latest tick stays there.
fn capped_sum(x: u32, y: u32) -> u32
    ensures { result ≡ capped (x + y) }
{
    // In 64 bits: after `saturating_add` each join of a `set` waits longer for the one before.
    let sum = u64::from(x) + u64::from(y);
    u32::try_from(sum.min(u64::from(LATEST))).unwrap_or(LATEST)
}

impl RunSummary {
    /// The summary of a work and a finish: `None` if the finish is below the work, or past the latest tick.
    pub fn new(work: u32, finish: u32) -> Option<RunSummary>
        ensures { MatchOption result ((finish < work) ⊎ (4_000_000_000 < finish)) (λ run. (run.work ≡ work) × (run.finish ≡ finish)) }
    {
        // A closure for `then` would have to ask again for what the test has just shown.
        if finish < work || finish > LATEST {
            return None;
        }
        Some(RunSummary { work, finish })
    }

    /// The ticks that the run works.
    pub fn work(&self) -> u32
        ensures { result ≡ self.now.work }
    {
        self.work
    }

    /// The tick at which the run has finished.
    pub fn finish(&self) -> u32
        ensures { result ≡ self.now.finish }
    {
        self.finish
    }
}

#[tactic(auto, using(crate::specs::Same::same_run))]
impl Record for RunSummary {
    type Row = RunRow;

    ghost kind = { run_summaries };

    // This rests on the order: with nothing before it a run finishes at its own finish, and not at its work.
    ghost left = { Prim.grind (arith, nat_tests, same_run) };

    ghost right = { Prim.grind (arith, nat_tests, same_run) };

    ghost associative = { Prim.grind (arith, nat_tests, same_run) };

    ghost kept = { Prim.grind (arith, nat_tests, same_run) };

    ghost unmade = { λ row none. Prim.grind (arith, nat_tests, same_run, same_run_row, none (run_read row)) };

    fn blank() -> RunSummary {
        RunSummary { work: 0, finish: 0 }
    }

    fn join(self, right: RunSummary) -> RunSummary
        ensures joined { result ≡ run_joined self right }
        ensures turns { InTurn self right result }
    {
        RunSummary {
            work: capped_sum(self.work, right.work),
            finish: capped_sum(self.finish, right.work).max(right.finish),
        }
    }

    fn from_row(row: RunRow) -> RunSummary {
        // A closure: a blank made beforehand makes `set` take half as long again.
        RunSummary::new(row.work, row.finish).unwrap_or_else(|| RunSummary::blank())
    }

    fn to_row(self) -> RunRow {
        RunRow {
            work: self.work,
            finish: self.finish,
        }
    }
}
