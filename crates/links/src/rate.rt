//! A link of a fixed rate.

ghost use Rattle.links.specs.Meaning.{rate_delay};
ghost use Rattle.links.specs.Shown.{rate_facts};

use crate::Link;
use crate::limits::{in_size, in_time};

/// `startup` ticks to start, and `per_word` ticks for each word.
#[derive(Clone, Copy)]
pub struct RateLink {
    pub startup: u32,
    pub per_word: u32,
}

impl Link for RateLink {
    ghost meaning = { λ link. rate_delay link.startup link.per_word };

    ghost facts = { λ link. rate_facts link.startup link.per_word };

    fn delay(&mut self, words: u32) -> Option<u32> {
        let words = in_size(words)?;
        in_time(u64::from(self.startup) + u64::from(self.per_word) * u64::from(words))
    }
}
