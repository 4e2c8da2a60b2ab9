//! The limits of every link.

ghost use Rattle.std.specs.Prelude.{◌≡◌, Some};
ghost use Rattle.links.specs.Meaning.{within_size, within_time};

/// The most words that a link carries.
pub const MOST_WORDS: u32 = 65_535;

/// The most ticks that a message takes.
pub const MOST_TICKS: u32 = 1_000_000;

/// `words`, or `None` where no link carries so many.
pub(crate) fn in_size(words: u32) -> Option<u32>
    ensures { result ≡ within_size words (Some words) }
{
    (words <= MOST_WORDS).then_some(words)
}

/// `ticks` as a delay, or `None` where it is too long.
pub(crate) fn in_time(ticks: u64) -> Option<u32>
    ensures { result ≡ within_time (Some ticks) }
{
    u32::try_from(ticks)
        .ok()
        .filter(|ticks| *ticks <= MOST_TICKS)
}
