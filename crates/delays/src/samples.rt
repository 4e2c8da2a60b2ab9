//! The sample links, each counting what it is asked.

ghost use Rattle.std.specs.Prelude.{◌≡◌, ◌-◌, ◌^◌, min, MatchResult};
ghost use Rattle.links.specs.Steps.{kept};
ghost use Rattle.delays.specs.Report.{delays_by};
ghost use Rattle.delays.specs.Sample.{sample_delay, sample_facts};
ghost use Rattle.delays.specs.Sampled.{sample_steps, meanings_of, asked_of, Sampled};

use crate::counted::Counted;
use crate::report::{Delays, ask_each};
use links::{Header, Link, Packet, RateLink, Relay, StepTable};
use refusal::Refusal;

/// 2 ticks to start, and 1 for each word.
const RATE: RateLink = RateLink {
    startup: 2,
    per_word: 1,
};

/// A sample link: one of five types, and a link itself. A list of `dyn Link` would need boxes, and so `new` could fail.
#[derive(Clone, Copy)]
pub enum Sample {
    Rate(RateLink),
    Steps(StepTable),
    HeaderOnPackets(Header<Packet<RateLink>>),
    PacketsOnHeader(Packet<Header<RateLink>>),
    Relay(Relay<RateLink>),
}

impl Link for Sample {
    ghost meaning = { sample_delay };

    ghost facts = { sample_facts };

    fn delay(&mut self, words: u32) -> Option<u32> {
        match self {
            Sample::Rate(link) => link.delay(words),
            Sample::Steps(link) => link.delay(words),
            Sample::HeaderOnPackets(link) => link.delay(words),
            Sample::PacketsOnHeader(link) => link.delay(words),
            Sample::Relay(link) => link.delay(words),
        }
    }
}

/// The five in the order in which a line names them.
#[derive(Clone, Copy)]
pub struct Samples {
    links: [Counted<Sample>; 5],
}

/// A table of three steps.
fn sample_table() -> Result<StepTable, Refusal>
    ensures { MatchResult result (λ table. kept table ≡ sample_steps) (λ _. ⊥) }
{
    let mut table = StepTable::new();
    table.step(1, 5)?;
    table.step(100, 40)?;
    table.step(10_000, 900)?;
    Ok(table)
}

impl Samples {
    /// The table takes its steps, so this never refuses.
    pub fn new() -> Result<Samples, Refusal>
        ensures { MatchResult result Sampled (λ _. ⊥) }
    {
        let packets = Packet {
            below: RATE,
            size: 10,
        };
        let header = Header {
            below: RATE,
            words: 8,
        };
        let links = [
            Sample::Rate(RATE),
            Sample::Steps(sample_table()?),
            Sample::HeaderOnPackets(Header {
                below: packets,
                words: 8,
            }),
            Sample::PacketsOnHeader(Packet {
                below: header,
                size: 10,
            }),
            Sample::Relay(Relay {
                below: RATE,
                hops: 3,
            }),
        ];
        Ok(Samples {
            links: links.map(Counted::from),
        })
    }

    /// The delays of `words` words on every link.
    pub fn delays(&mut self, words: u32) -> Delays
        ensures value { result.each ≡ delays_by (meanings_of self.old) words }
        ensures same { meanings_of self.new ≡ meanings_of self.old }
    {
        Delays {
            each: ask_each(&mut self.links, words),
        }
    }

    /// How many questions the links were asked, all together.
    pub fn asked(&self) -> u64
        ensures { result ≡ min (asked_of self.now) (2 ^ 64 - 1) }
    {
        self.links
            .iter()
            .map(|link| link.asked)
            .fold(0, u64::saturating_add)
    }
}
