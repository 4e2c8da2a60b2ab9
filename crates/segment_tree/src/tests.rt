//! Worked joins, trees of both kinds and of a third, and that their rows are given back blank.

ghost use Rattle.std.specs.Prelude.{◌≡◌, ◌≤◌, max, length, refl};
ghost use Rattle.segment_tree.specs.RunSummaries.{run_summaries};
ghost use Rattle.segment_tree.specs.Tree.{blanked};
ghost use Rattle.std.proofs.Common.{rules};

use super::*;

// A third kind: the most words of a message. Its row is a single number.
#[derive(Clone, Copy)]
struct MostWords {
    words: u32,
}

impl Record for MostWords {
    type Row = u32;

    ghost kind = { record {
      blank = record { words = 0 };
      joined = λ x y. record { words = max x.words y.words };
      written = λ x. x.words;
      read = λ n. record { words = n };
    } };

    ghost left = { Prim.search rules };

    ghost right = { Prim.search rules };

    ghost associative = { Prim.search rules };

    ghost kept = { Prim.search rules };

    ghost unmade = { λ row none. absurd (none (record { words = row }) refl) };

    fn blank() -> MostWords {
        MostWords { words: 0 }
    }

    fn join(self, right: MostWords) -> MostWords {
        MostWords {
            words: self.words.max(right.words),
        }
    }

    fn from_row(row: u32) -> MostWords {
        MostWords { words: row }
    }

    fn to_row(self) -> u32 {
        self.words
    }
}

#[test]
fn a_third_kind_needs_no_other_tree(rt: HostRuntime) {
    let mut rows = [9; 512];
    let mut tree = SegmentTree::<MostWords>::over(&mut rows);
    tree.set(7, MostWords { words: 30 });
    tree.set(255, MostWords { words: 40 });
    tree.set(255, MostWords { words: 20 });
    assert_eq!(rt; tree.total().words, 30);
}

// Whoever is handed a tree may end it.
fn total_with<K: Record>(mut tree: SegmentTree<'_, K>, leaf: u8, value: K) -> K
    requires room { 512 ≤ length tree.places.now }
{
    tree.set(leaf, value);
    tree.total()
}

#[test]
fn a_tree_is_ended_by_whom_it_was_handed_to(rt: HostRuntime) {
    let mut rows = [9; 512];
    let tree = SegmentTree::<MostWords>::over(&mut rows);
    assert_eq!(rt; total_with(tree, 7, MostWords { words: 30 }).words, 30);
    assert_eq!(rt; rows[263], 0);
}

// The end of two runs in a row, or none if the second cannot be made. The rows are blank on both ways out.
fn end_of_two(rows: &mut [RunRow], first: RunSummary, work: u32, finish: u32) -> Option<u32>
    requires room { 512 ≤ length rows.old }
    ensures { rows.new ≡ blanked run_summaries rows.old }
{
    let mut tree = SegmentTree::<RunSummary>::over(rows);
    tree.set(3, first);
    let second = RunSummary::new(work, finish)?;
    tree.set(200, second);
    Some(tree.total().finish())
}

const fn run_row(work: u32, finish: u32) -> RunRow {
    RunRow { work, finish }
}

#[test]
fn runs_are_joined_in_order(rt: HostRuntime) {
    let cases = [
        (run_row(2, 2), run_row(1, 6), run_row(3, 6)),
        (run_row(1, 6), run_row(2, 2), run_row(3, 8)),
        (run_row(1, 3_999_999_999), run_row(5, 5), run_row(6, LATEST)),
        (
            run_row(LATEST, LATEST),
            run_row(1, 1),
            run_row(LATEST, LATEST),
        ),
        (run_row(3, 2), run_row(1, 6), run_row(1, 6)),
    ];
    for (left, right, joined) in &cases {
        let run = RunSummary::from_row(*left).join(RunSummary::from_row(*right));
        assert_eq!(rt; run.to_row(), *joined);
    }
}

#[test]
fn a_finish_below_the_work_makes_no_summary(rt: HostRuntime) {
    assert!(rt; RunSummary::new(3, 3).is_some());
    assert!(rt; RunSummary::new(3, 2).is_none());
    assert!(rt; RunSummary::new(0, LATEST).is_some());
    assert!(rt; RunSummary::new(0, LATEST + 1).is_none());
}

const fn arrival(arrival: u32, task: u32) -> BestArrival {
    BestArrival { arrival, task }
}

#[test]
fn the_greater_arrival_wins_and_then_the_lower_task(rt: HostRuntime) {
    let cases = [
        (arrival(6, 9), arrival(5, 3), 9),
        (arrival(5, 3), arrival(6, 9), 9),
        (arrival(5, 7), arrival(5, 3), 3),
    ];
    for (left, right, winner) in &cases {
        assert_eq!(rt; left.join(*right).task, *winner);
    }
}

#[test]
fn a_tree_finds_the_greatest_arrival(rt: HostRuntime) {
    let mut rows = [ArrivalRow {
        arrival: 9,
        task: 1,
    }; 512];
    let mut tree = SegmentTree::<BestArrival>::over(&mut rows);
    assert_eq!(rt; tree.total().task, NO_TASK);
    tree.set(9, arrival(6, 9));
    tree.set(4, arrival(6, 4));
    tree.set(200, arrival(5, 2));
    assert_eq!(rt; tree.total().task, 4);
}

#[test]
fn rows_are_given_back_blank(rt: HostRuntime) {
    for (finish, end) in &[(6, Some(6)), (0, None)] {
        let mut rows = [run_row(7, 9); 513];
        assert_eq!(rt;
            end_of_two(&mut rows, RunSummary::from_row(run_row(2, 2)), 1, *finish),
            *end
        );
        assert_eq!(rt; rows[0], run_row(0, 0));
        assert_eq!(rt; rows[511], run_row(0, 0));
        assert_eq!(rt; rows[512], run_row(7, 9));
    }
}
