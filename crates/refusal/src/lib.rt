//! Every refusal of the planner: what is wrong with a call, its number and the value it carries.
#![tactic(auto)]

ghost use Rattle.std.specs.Prelude.{◌≡◌, ◌↔◌, IsTrue, Some};
ghost use Rattle.refusal.specs.Meaning.{meaning_of, same_refusal, shown_text};
ghost use Rattle.std.specs.Cmp.Rules.{comparing};
ghost use Rattle.std.proofs.Common.{rules};

mod laws;

pub use laws::equality_decides;
use std::error::Error;
use std::fmt;

/// Why a call is refused.
#[derive(Clone, Copy, Eq, Debug)]
pub enum Refusal {
    /// 1: the duration is not 1 to 1,000,000.
    DurationOutOfRange,
    /// 2: the sheet has 256 tasks.
    TooManyTasks,
    /// 3: the sheet has no such task.
    NoSuchTask,
    /// 4: the first task of an arc is not below the second.
    ArcNotForward,
    /// 5: the two tasks have an arc already.
    ArcRepeated,
    /// 6: the sheet has 1,024 arcs.
    TooManyArcs,
    /// 7: the link does not carry so many words.
    AmountNotCarried,
    /// 8: the bound memory has fewer places than there are tasks.
    BoundMemoryTooSmall,
    /// 9: a work memory has fewer than 512 places.
    WorkMemoryTooSmall,
    /// 10: the row memory is too small for the plan, which has `needed` rows.
    RowMemoryTooSmall { needed: usize },
    /// 11: a row names no task of the graph.
    RowWithoutTask { row: usize },
    /// 12: a row has the processor and the task of an earlier row.
    RowRepeated { row: usize },
    /// 13: a row overlaps an earlier row on its processor.
    RowsOverlap { row: usize },
    /// 14: a row starts before an input of its task has come.
    InputMissing { row: usize },
    /// 15: a task has no row.
    TaskWithoutRow { task: u32 },
    /// 16: the step table has 16 steps.
    TooManySteps,
    /// 17: the amount of a step is above 65,535, or not above that of the last step.
    StepAmountOutOfRange,
    /// 18: the delay of a step is above 1,000,000.
    StepDelayOutOfRange,
    /// 19: a line of text is broken.
    LineBroken,
    /// 20: a line of text is out of order.
    LineOutOfOrder,
    /// 21: the answer memory is too small for the answer, which has `needed` bytes.
    AnswerMemoryTooSmall { needed: usize },
    /// 22: the text has more than 20,480 bytes.
    TextTooLong,
}

impl Refusal {
    /// The number of the refusal, 1 to 22.
    pub fn number(self) -> u8
        ensures { result ≡ (meaning_of self).number }
    {
        match self {
            Refusal::DurationOutOfRange => 1,
            Refusal::TooManyTasks => 2,
            Refusal::NoSuchTask => 3,
            Refusal::ArcNotForward => 4,
            Refusal::ArcRepeated => 5,
            Refusal::TooManyArcs => 6,
            Refusal::AmountNotCarried => 7,
            Refusal::BoundMemoryTooSmall => 8,
            Refusal::WorkMemoryTooSmall => 9,
            Refusal::RowMemoryTooSmall { .. } => 10,
            Refusal::RowWithoutTask { .. } => 11,
            Refusal::RowRepeated { .. } => 12,
            Refusal::RowsOverlap { .. } => 13,
            Refusal::InputMissing { .. } => 14,
            Refusal::TaskWithoutRow { .. } => 15,
            Refusal::TooManySteps => 16,
            Refusal::StepAmountOutOfRange => 17,
            Refusal::StepDelayOutOfRange => 18,
            Refusal::LineBroken => 19,
            Refusal::LineOutOfOrder => 20,
            Refusal::AnswerMemoryTooSmall { .. } => 21,
            Refusal::TextTooLong => 22,
        }
    }

    /// The value that the refusal carries: a size needed, a row or a task.
    pub fn value(self) -> Option<usize>
        ensures { result ≡ (meaning_of self).value }
    {
        match self {
            Refusal::RowMemoryTooSmall { needed } | Refusal::AnswerMemoryTooSmall { needed } => {
                Some(needed)
            }
            Refusal::RowWithoutTask { row }
            | Refusal::RowRepeated { row }
            | Refusal::RowsOverlap { row }
            | Refusal::InputMissing { row } => Some(row),
            Refusal::TaskWithoutRow { task } => usize::try_from(task).ok(),
            _ => None,
        }
    }

    /// What is wrong, in words. The value, where there is one, is read right behind them.
    pub fn wording(self) -> &'static str
        ensures { result.now ≡ (meaning_of self).wording }
    {
        match self {
            Refusal::DurationOutOfRange => "the duration is not 1 to 1,000,000",
            Refusal::TooManyTasks => "the sheet has 256 tasks",
            Refusal::NoSuchTask => "there is no such task",
            Refusal::ArcNotForward => "the first task is not below the second",
            Refusal::ArcRepeated => "the two tasks have an arc already",
            Refusal::TooManyArcs => "the sheet has 1,024 arcs",
            Refusal::AmountNotCarried => "the link does not carry so many words",
            Refusal::BoundMemoryTooSmall =>
                "the bound memory has fewer places than there are tasks",
            Refusal::WorkMemoryTooSmall => "a work memory has fewer than 512 places",
            Refusal::RowMemoryTooSmall { .. } => "the row memory is too small; rows needed: ",
            Refusal::RowWithoutTask { .. } => "a row names no task of the graph: row ",
            Refusal::RowRepeated { .. } =>
                "a row repeats the processor and task of an earlier one: row ",
            Refusal::RowsOverlap { .. } => "a row overlaps an earlier one on its processor: row ",
            Refusal::InputMissing { .. } =>
                "a row starts before an input of its task has come: row ",
            Refusal::TaskWithoutRow { .. } => "a task has no row: task ",
            Refusal::TooManySteps => "the step table has 16 steps",
            Refusal::StepAmountOutOfRange =>
                "the amount of the step is above 65,535 or not above that of the last step",
            Refusal::StepDelayOutOfRange => "the delay of the step is above 1,000,000",
            Refusal::LineBroken => "the line is broken",
            Refusal::LineOutOfOrder => "the line is out of order",
            Refusal::AnswerMemoryTooSmall { .. } =>
                "the answer memory is too small; bytes needed: ",
            Refusal::TextTooLong => "the text has more than 20,480 bytes",
        }
    }
}

// The number and the value tell the refusal. Not derived: callers have what `==` says from its contract, and a derived one has none.
impl PartialEq for Refusal {
    ghost eq = { same_refusal };

    ghost laws = { Prim.search (comparing, rules) };

    fn eq(&self, other: &Refusal) -> bool
        ensures value { result ≡ same_refusal self.now other.now }
        ensures decides { IsTrue result ↔ (self.now ≡ other.now) }
    {
        self.number() == other.number() && self.value() == other.value()
    }
}

// A derived text would say each number and each wording again beside its case; `number` and `wording` give them already.
impl fmt::Display for Refusal {
    ghost output = { λ x. Some (shown_text x) };

    fn fmt<W: fmt::Write>(&self, f: &mut fmt::Formatter<W>) -> fmt::Result {
        let number = self.number();
        let wording = self.wording();
        match self.value() {
            Some(value) => write!(f, "refusal {number}: {wording}{value}"),
            None => write!(f, "refusal {number}: {wording}"),
        }
    }
}

impl Error for Refusal {}

#[cfg(test)]
mod tests {
    use super::*;
    use std::test::Fail;

    // A caller has from `==` alone which refusal it was.
    fn asks_for(refusal: Refusal, rows: usize) -> bool
        ensures { IsTrue result ↔ (refusal ≡ Refusal.RowMemoryTooSmall rows) }
    {
        refusal == Refusal::RowMemoryTooSmall { needed: rows }
    }

    #[test]
    fn a_refusal_reads_as_a_sentence(rt: HostRuntime) -> Result<(), Fail> {
        let rows = Refusal::RowMemoryTooSmall { needed: 5 };
        assert_eq!(rt;
            rows.to_string(rt.alloc())?.as_str(),
            "refusal 10: the row memory is too small; rows needed: 5"
        );
        assert_eq!(rt;
            Refusal::NoSuchTask.to_string(rt.alloc())?.as_str(),
            "refusal 3: there is no such task"
        );
        assert_eq!(rt; rows, Refusal::RowMemoryTooSmall { needed: 5 });
        assert_ne!(rt; rows, Refusal::RowMemoryTooSmall { needed: 6 });
        assert!(rt; asks_for(rows, 5) && !asks_for(rows, 6));
        Ok(())
    }
}
