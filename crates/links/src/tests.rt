//! Worked delays, and that a borrowed table is a link.

use super::*;
use refusal::Refusal;
use std::process::Abort;
use std::test::Fail;

const RATE: RateLink = RateLink {
    startup: 2,
    per_word: 1,
};

// Several links may read one table while it is borrowed. What is asked behind `&` is a copy, since `delay` takes `&mut self`.
impl<L: Link + Copy> Link for &L {
    ghost meaning = { λ link. L.Link.meaning link.now };

    ghost facts = { λ link. L.Link.facts link.now };

    fn delay(&mut self, words: u32) -> Option<u32> {
        let mut link = **self;
        link.delay(words)
    }
}

// Asks `link` for each amount of words, and compares the answers.
fn expect<L: Link>(rt: &impl Abort, link: &mut L, cases: &[(u32, Option<u32>)]) {
    for (words, delay) in cases {
        assert_eq!(rt; link.delay(*words), *delay);
    }
}

#[test]
fn a_rate_reaches_its_last_tick(rt: HostRuntime) {
    let mut rate = RateLink {
        startup: 0,
        per_word: 16,
    };
    expect(
        &rt,
        &mut rate,
        &[(0, Some(0)), (62_500, Some(1_000_000)), (62_501, None)],
    );
    let mut free = RateLink {
        startup: 0,
        per_word: 0,
    };
    expect(
        &rt,
        &mut free,
        &[(65_535, Some(0)), (65_536, None), (u32::MAX, None)],
    );
}

#[test]
fn layers_do_not_commute(rt: HostRuntime) {
    let mut header_outside = Header {
        below: Packet {
            below: RATE,
            size: 10,
        },
        words: 8,
    };
    expect(&rt, &mut header_outside, &[(4, Some(22))]);
    let mut packet_outside = Packet {
        below: Header {
            below: RATE,
            words: 8,
        },
        size: 10,
    };
    expect(&rt, &mut packet_outside, &[(4, Some(20))]);
}

#[test]
fn a_header_does_not_wrap(rt: HostRuntime) {
    let mut header = Header {
        below: RATE,
        words: 65_535,
    };
    let near = u32::MAX - 65_534;
    expect(
        &rt,
        &mut header,
        &[
            (0, Some(65_537)),
            (1, None),
            (near - 1, None),
            (near, None),
            (u32::MAX, None),
        ],
    );
}

#[test]
fn packets_are_whole(rt: HostRuntime) {
    let mut packet = Packet {
        below: RATE,
        size: 0,
    };
    expect(&rt, &mut packet, &[(0, Some(2)), (7, Some(9))]);
    packet.size = 65_535;
    expect(
        &rt,
        &mut packet,
        &[
            (0, Some(2)),
            (1, Some(65_537)),
            (65_535, Some(65_537)),
            (65_536, None),
        ],
    );
    packet.size = 40_000;
    expect(
        &rt,
        &mut packet,
        &[(40_000, Some(40_002)), (40_001, None), (u32::MAX, None)],
    );
}

#[test]
fn a_relay_repeats_the_delay(rt: HostRuntime) {
    let mut relay = Relay {
        below: RATE,
        hops: 3,
    };
    expect(&rt, &mut relay, &[(4, Some(18)), (65_535, Some(196_611))]);
    relay.hops = 0;
    expect(&rt, &mut relay, &[(4, Some(0)), (65_536, None)]);
    relay.hops = 16;
    expect(
        &rt,
        &mut relay,
        &[(62_498, Some(1_000_000)), (62_499, None)],
    );
}

#[test]
fn a_table_goes_by_steps(rt: HostRuntime) -> Result<(), Fail> {
    let mut table = StepTable::new();
    expect(&rt, &mut table, &[(0, None), (1, None)]);
    table.step(1, 5)?;
    table.step(100, 9)?;
    expect(
        &rt,
        &mut table,
        &[
            (0, None),
            (1, Some(5)),
            (99, Some(5)),
            (100, Some(9)),
            (65_535, Some(9)),
            (65_536, None),
        ],
    );
    Ok(())
}

#[test]
fn refused_steps_change_nothing(rt: HostRuntime) -> Result<(), Fail> {
    let mut table = StepTable::new();
    for i in 0..15u32 {
        table.step(i, i)?;
    }
    let before = [(0, Some(0)), (13, Some(13)), (65_535, Some(14))];
    for (amount, delay, number) in [
        (14, 15, 17),
        (65_536, 15, 17),
        (65_536, 1_000_001, 17),
        (15, 1_000_001, 18),
    ] {
        assert_eq!(rt;
            table.step(amount, delay).map_err(Refusal::number),
            Err(number)
        );
        assert_eq!(rt; table.steps().len(), 15);
        expect(&rt, &mut table, &before);
    }
    table.step(65_535, 1_000_000)?;
    assert_eq!(rt;
        table.step(65_536, 1_000_001).map_err(Refusal::number),
        Err(16)
    );
    assert_eq!(rt; table.steps().len(), 16);
    expect(
        &rt,
        &mut table,
        &[(65_534, Some(14)), (65_535, Some(1_000_000))],
    );
    Ok(())
}

#[test]
fn two_links_read_one_borrowed_table(rt: HostRuntime) -> Result<(), Fail> {
    let mut table = StepTable::new();
    table.step(1, 5)?;
    table.step(100, 9)?;
    let mut plain = &table;
    let mut layered = Header {
        below: &table,
        words: 1,
    };
    expect(&rt, &mut plain, &[(99, Some(5))]);
    expect(&rt, &mut layered, &[(99, Some(9))]);
    table.step(200, 20)?;
    expect(&rt, &mut table, &[(200, Some(20))]);
    Ok(())
}
