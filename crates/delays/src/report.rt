//! Delays as a reader wants them.

ghost use Rattle.std.specs.Prelude.{◌≡◌, Some, map};
ghost use Rattle.delays.specs.Report.{delay_text, delays_by, delays_text};

use links::Link;
use std::fmt;

/// The delay of a message, if it is carried.
#[derive(Clone, Copy)]
pub struct Delay {
    pub ticks: Option<u32>,
}

impl fmt::Display for Delay {
    ghost output = { λ delay. Some (delay_text delay.ticks) };

    fn fmt<W: fmt::Write>(&self, f: &mut fmt::Formatter<W>) -> fmt::Result {
        match self.ticks {
            Some(ticks) => write!(f, "{ticks}"),
            None => write!(f, "not carried"),
        }
    }
}

/// Asks any link.
pub fn ask<L: Link>(link: &mut L, words: u32) -> Delay
    ensures value { result.ticks ≡ L.Link.meaning link.old words }
    ensures same { L.Link.meaning link.new ≡ L.Link.meaning link.old }
{
    Delay {
        ticks: link.delay(words),
    }
}

/// Asks each of some links, in their order.
pub fn ask_each<L: Link, const N: usize>(links: &mut [L; N], words: u32) -> [Delay; N]
    ensures value { result ≡ delays_by (map L.Link.meaning links.old) words }
    ensures same { map L.Link.meaning links.new ≡ map L.Link.meaning links.old }
{
    let mut delays = [Delay { ticks: None }; N];
    // By index: of a `zip` of two `iter_mut` nothing is known afterwards.
    for (i, link) in links.iter_mut().enumerate() {
        delays[i] = ask(link, words);
    }
    delays
}

/// The delays of one amount of words on every sample link.
#[derive(Clone, Copy)]
pub struct Delays {
    pub each: [Delay; 5],
}

impl fmt::Display for Delays {
    ghost output = { λ delays. Some (delays_text delays) };

    fn fmt<W: fmt::Write>(&self, f: &mut fmt::Formatter<W>) -> fmt::Result {
        let [rate, steps, header_first, packets_first, relay] = self.each;
        write!(
            f,
            "rate {rate}; steps {steps}; header on packets {header_first}; packets on header {packets_first}; relay {relay}"
        )
    }
}
