//! A link that counts what it is asked.

ghost use Rattle.std.specs.Prelude.{◌≡◌, ◌+◌, ◌-◌, ◌^◌, ◌≤◌, min, IfSome};

use links::Link;

/// Counts the questions to the link below, and means the same.
#[derive(Clone, Copy)]
pub struct Counted<L> {
    pub below: L,
    pub asked: u64,
}

/// Not asked yet.
impl<L> From<L> for Counted<L> {
    ghost from_gives = { λ below counted. counted ≡ record { below = below; asked = 0 } };

    fn from(below: L) -> Counted<L> {
        Counted { below, asked: 0 }
    }
}

impl<L: Link> Link for Counted<L> {
    ghost meaning = { λ link. L.Link.meaning link.below };

    ghost facts = { λ link. L.Link.facts link.below };

    // `value` and `same` are the trait's, and said again, since they do not follow from `counted`.
    fn delay(&mut self, words: u32) -> Option<u32>
        ensures value { result ≡ L.Link.meaning self.old.below words }
        ensures same { L.Link.meaning self.new.below ≡ L.Link.meaning self.old.below }
        ensures counted { self.new.asked ≡ min (self.old.asked + 1) (2 ^ 64 - 1) }
    {
        self.asked = self.asked.saturating_add(1);
        self.below.delay(words)
    }
}
