//! Links between processors: how many ticks a message takes.
#![tactic(auto)]

ghost use Rattle.std.specs.Prelude.{◌≡◌, ℕ, ◌≤◌, IfSome, Option};
ghost use Rattle.links.specs.Facts.{Facts};

mod layers;
mod limits;
mod rate;
mod steps;
#[cfg(test)]
mod tests;

pub use layers::{Header, Packet, Relay};
pub use limits::{MOST_TICKS, MOST_WORDS};
pub use rate::RateLink;
pub use steps::{MOST_STEPS, Step, StepTable};

/// How many ticks a message takes between two processors.
pub trait Link {
    // For each amount of words the delay in ticks, or `None` where so many are not carried.
    ghost meaning: { Self → ℕ → Option ℕ };

    // No delay passes 1,000,000 ticks, and above 65,535 words nothing is carried.
    ghost facts: { (link : Self) → Facts (meaning link) };

    /// The delay of a message of `words` words, or `None` where it is not carried.
    /// A link may change inside when it is asked, as to count, but not in what it means.
    fn delay(&mut self, words: u32) -> Option<u32>
        ensures value { result ≡ meaning self.old words }
        ensures same { meaning self.new ≡ meaning self.old }
        ensures bounded { IfSome result (λ ticks. ticks ≤ 1000000) };
}
