//! Layers over any link, each a link again. A layer does not carry what is not carried below.

ghost use Rattle.std.specs.Prelude.{◌≡◌, ℕ, ◌≤◌};
ghost use Rattle.links.specs.Meaning.{header_delay, packet_delay, relay_delay};
ghost use Rattle.links.specs.Padding.{Padded, padded};
ghost use Rattle.links.specs.Shown.{header_facts, packet_facts, relay_facts};

use crate::Link;
use crate::limits::{in_size, in_time};

/// Puts a header of `words` words before each message.
#[derive(Clone, Copy)]
pub struct Header<L> {
    pub below: L,
    pub words: u16,
}

impl<L: Link> Link for Header<L> {
    ghost meaning = { λ layer. header_delay (L.Link.meaning layer.below) layer.words };

    ghost facts = { λ layer. header_facts (L.Link.meaning layer.below) layer.words (L.Link.facts layer.below) };

    fn delay(&mut self, words: u32) -> Option<u32> {
        let sent = words.checked_add(u32::from(self.words))?;
        self.below.delay(sent)
    }
}

/// Sends each message in whole packets of `size` words, or as it is where `size` is 0.
#[derive(Clone, Copy)]
pub struct Packet<L> {
    pub below: L,
    pub size: u16,
}

impl<L: Link> Link for Packet<L> {
    ghost meaning = { λ layer. packet_delay (L.Link.meaning layer.below) layer.size };

    ghost facts = { λ layer. packet_facts (L.Link.meaning layer.below) layer.size (L.Link.facts layer.below) };

    // `value` and `same` are the trait's, and said again, since they do not follow from `asked`.
    #[tactic(auto, using(crate::proofs::LeastMultiples::padded_only))]
    fn delay(&mut self, words: u32) -> Option<u32>
        ensures value { result ≡ packet_delay (L.Link.meaning self.old.below) self.old.size words }
        ensures same { packet_delay (L.Link.meaning self.new.below) self.new.size ≡ packet_delay (L.Link.meaning self.old.below) self.old.size }
        ensures asked { (sent : ℕ) → Padded self.old.size words sent → result ≡ L.Link.meaning self.old.below sent }
    {
        let words = in_size(words)?;
        self.below.delay(padded_words(words, self.size))
    }
}

/// How many words are sent for `words`.
fn padded_words(words: u32, size: u16) -> u32
    requires { words ≤ 65535 }
    ensures value { result ≡ padded size words }
    ensures least { Padded size words result }
{
    if size == 0 {
        return words;
    }
    words.next_multiple_of(u32::from(size))
}

/// Sends each message over `hops` hops, one after the other.
#[derive(Clone, Copy)]
pub struct Relay<L> {
    pub below: L,
    pub hops: u8,
}

impl<L: Link> Link for Relay<L> {
    ghost meaning = { λ layer. relay_delay (L.Link.meaning layer.below) layer.hops };

    ghost facts = { λ layer. relay_facts (L.Link.meaning layer.below) layer.hops (L.Link.facts layer.below) };

    fn delay(&mut self, words: u32) -> Option<u32> {
        let hop = self.below.delay(words)?;
        in_time(u64::from(self.hops) * u64::from(hop))
    }
}
