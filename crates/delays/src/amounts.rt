//! Reading an amount of words.

ghost use Rattle.std.specs.Prelude.{◌≡◌, ◌^◌, ◌<◌};
ghost use Rattle.std.specs.Option.{SomeIff};
ghost use Rattle.std.specs.Str.Parse.{IsNumeral, digits_value};

/// The amount that `text` writes: one decimal digit or more, and nothing else, up to 4,294,967,295.
#[tactic(auto, using(crate::proofs::Decimal::numeral_utf8))]
pub fn read_amount(text: &[u8]) -> Option<u32>
    ensures { SomeIff result (IsNumeral 10 text.now × (digits_value 10 text.now < 2 ^ 32)) (digits_value 10 text.now) }
{
    // `parse` would take a plus.
    if text.starts_with(b"+") {
        return None;
    }
    std::str::from_utf8(text).ok()?.parse().ok()
}
