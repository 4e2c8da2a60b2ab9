//! A link whose delay goes by steps, as measured on a machine.

ghost use Rattle.std.specs.Prelude.{◌≡◌, ◌<◌, ◌≤◌, min, true, false, [], ◌∷◌, ◌++◌, length, is_ok, if◌then◌else◌};
ghost use Rattle.refusal.specs.Checks.{Answers};
ghost use Rattle.links.specs.Shown.{limited_facts};
ghost use Rattle.links.specs.Steps.{kept, last_reached, table_delay, above_last, step_checks, step_answer, new_step, Made, Greatest};

use crate::limits::{in_size, in_time};
use crate::{Link, MOST_TICKS, MOST_WORDS};
use refusal::Refusal;

/// The most steps of a table.
pub const MOST_STEPS: usize = 16;

/// From `amount` words on, a message takes `delay` ticks.
#[derive(Clone, Copy, PartialEq, Eq, Debug)]
pub struct Step {
    pub amount: u32,
    pub delay: u32,
}

/// At most 16 steps: the first `count` of `steps`.
// The steps lie in the table itself, as no link allocates memory. It has no invariant, since every value means something; what `new`
// and `step` make of it, `Made` says in their contracts and in that of `look_up`.
#[derive(Clone, Copy)]
pub struct StepTable {
    steps: [Step; MOST_STEPS],
    count: usize,
}

impl StepTable {
    /// A table of no steps, which carries nothing.
    pub fn new() -> StepTable
        ensures held { kept result ≡ [] }
        ensures made { Made (kept result) }
    {
        StepTable {
            steps: [Step {
                amount: 0,
                delay: 0,
            }; MOST_STEPS],
            count: 0,
        }
    }

    /// The steps in the table, in their order.
    pub fn steps(&self) -> &[Step]
        ensures value { result.now ≡ kept self.now }
        ensures len { length result.now ≡ min self.now.count 16 }
    {
        &self.steps[..self.count.min(MOST_STEPS)]
    }

    /// Whether `amount` is above that of the last step, if there is one.
    fn is_above_last(&self, amount: u32) -> bool
        ensures { result ≡ above_last amount (kept self.now) }
    {
        self.steps().last().is_none_or(|last| last.amount < amount)
    }

    /// The first check that a further step fails, if any.
    fn check_step(&self, step: Step) -> Result<(), Refusal>
        ensures answer { result ≡ step_answer (kept self.now) step.amount step.delay }
        ensures room { is_ok result ≡ true → self.now.count < 16 }
    {
        if self.steps().len() >= MOST_STEPS {
            return Err(Refusal::TooManySteps);
        }
        if step.amount > MOST_WORDS || !self.is_above_last(step.amount) {
            return Err(Refusal::StepAmountOutOfRange);
        }
        if step.delay > MOST_TICKS {
            return Err(Refusal::StepDelayOutOfRange);
        }
        Ok(())
    }

    /// Adds a step at the end.
    #[tactic(auto, using(crate::proofs::StepLists::step_lowest, crate::proofs::StepLists::kept_made))]
    pub fn step(&mut self, amount: u32, delay: u32) -> Result<(), Refusal>
        ensures answer { result ≡ step_answer (kept self.old) amount delay }
        ensures lowest { Answers (step_checks (kept self.old) amount delay) tt result }
        ensures held { kept self.new ≡ (if is_ok result then kept self.old ++ (new_step amount delay ∷ []) else kept self.old) }
        ensures refused { is_ok result ≡ false → self.new ≡ self.old }
        ensures made { Made (kept self.old) → Made (kept self.new) }
    {
        let step = Step { amount, delay };
        self.check_step(step)?;
        self.steps[self.count] = step;
        self.count += 1;
        Ok(())
    }

    /// The delay of the last step whose amount is not above `words`.
    fn reached(&self, words: u32) -> Option<u32>
        ensures { result ≡ last_reached words (kept self.now) }
    {
        self.steps()
            .iter()
            .rev()
            .find(|step| step.amount <= words)
            .map(|step| step.delay)
    }

    /// The delay of a message of `words` words: in a table made by `new` and `step`, that of the step with the
    /// greatest amount not above `words`.
    #[tactic(auto, using(crate::proofs::StepLists::table_greatest))]
    pub fn look_up(&self, words: u32) -> Option<u32>
        ensures value { result ≡ table_delay self.now words }
        ensures greatest { Made (kept self.now) → words ≤ 65535 → Greatest words (kept self.now) result }
    {
        let words = in_size(words)?;
        in_time(u64::from(self.reached(words)?))
    }
}

impl Link for StepTable {
    ghost meaning = { table_delay };

    ghost facts = { λ table. limited_facts (λ words. last_reached words (kept table)) };

    fn delay(&mut self, words: u32) -> Option<u32> {
        self.look_up(words)
    }
}
