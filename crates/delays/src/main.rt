//! Prints the delays of some sample links for the amounts of words that it reads, one a line.
#![tactic(auto)]

mod amounts;
mod counted;
mod report;
mod samples;

use amounts::read_amount;
use samples::Samples;
use std::io::{BufRead, BufReader};

const LINKS: &str = "Delays in ticks, on
  rate: 2 ticks to start and 1 for each word
  steps: 5 ticks from 1 word on, 40 from 100, 900 from 10000
  header on packets: a header of 8 words, in packets of 10, at the rate
  packets on header: packets of 10, behind a header of 8 words, at the rate
  relay: 3 hops at the rate";

fn main(rt: HostRuntime) -> anyhow::Result<()> {
    let mut samples = Samples::new()?;
    rt.println(LINKS)?;
    // Counted here and not by `enumerate`, since the last number is printed after the loop too.
    let mut number: u64 = 0;
    for line in BufReader::new(rt.alloc(), rt.stdin())?.split(rt.alloc(), b'\n') {
        let line = line?;
        number = number.saturating_add(1);
        match read_amount(line.as_slice().trim_ascii()) {
            Some(words) => println!(rt; "{words} words: {}", samples.delays(words))?,
            None => println!(rt;
                "line {number}: not an amount of words: write a whole number from 0 to 4294967295"
            )?,
        }
    }
    println!(rt; "{number} lines, {} questions", samples.asked())?;
    Ok(())
}
