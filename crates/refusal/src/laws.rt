//! What `==` of refusals says, to code that is generic over `PartialEq` too.

ghost use Rattle.std.specs.Prelude.{◌≡◌, ◌↔◌, IsTrue};
ghost use Rattle.refusal.specs.Meaning.{meaning_of};

use crate::Refusal;

/// `==` decides equality: two refusals are equal exactly if they are the same case with the same value, and the number and the
/// value tell a refusal.
pub fn equality_decides()
    ensures decides { (x y : Refusal) → IsTrue (⟦<Refusal as PartialEq>⟧.eq x y) ↔ (x ≡ y) }
    ensures told { (x y : Refusal) → (x ≡ y) ↔ (((meaning_of x).number ≡ (meaning_of y).number) × ((meaning_of x).value ≡ (meaning_of y).value)) }
{}
