//! What a sender owes of the items that it sends.
ghost use Rattle.std.specs.Prelude.{ℕ};

/// A rule of items by their places, for contracts alone. An item's place is the number of items that were sent before it.
///
/// Whoever sends owes it, and whoever receives may rely on it. It holds of the item at each place, and at the place at
/// which the sender closed its end.
///
/// That the item at each place is the place's number, and that there are ten, for a `struct Counting`:
///
/// ```rust
/// impl PlaceRule<u64> for Counting {
///     ghost use Rattle.std.specs.Prelude.{◌≡◌};
///     ghost holds = { λ place item. item ≡ place };
///     ghost ended = { λ place. place ≡ 10 };
/// }
/// ```
pub trait PlaceRule<X> {
    /// What holds of the item at a place.
    ghost holds: { ℕ → X → Type 0 };

    /// Where the items may end: after so many of them.
    ghost ended: { ℕ → Type 0 };
}

/// The rule that allows every item at every place, and each end.
///
/// ```rust
/// let (fill, peek) = link_in::<u8, AnyPlace, LendingStore, H>(rt, 131_072)?;
/// ```
pub struct AnyPlace;

impl<X> PlaceRule<X> for AnyPlace {
    ghost holds = { λ _ _. Unit {0} };

    ghost ended = { λ _. Unit {0} };
}
