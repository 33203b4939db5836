//! A tally that can be merged with another.
ghost use Rattle.std.specs.Prelude.{◌≡◌};
ghost use Rattle.metrics.specs.Tallies.{SameWorth};

use crate::tally::Tally;

/// A tally that can be merged with another. Merging never refuses.
///
/// Its worth is the tally's, in a form of its own: `joinable_stands` promises that the two say the same.
pub trait Joinable: Tally {
    // A default sees no other member, so each impl says that these are the tally's.
    ghost Worth: { Type 0 };

    ghost worth: { Self → Worth };

    /// What two tallies are worth merged, the one merged into first.
    ghost joined: { Worth → Worth → Worth };

    /// Merges the other tally into this one.
    fn merge_fruits(&mut self, other: &Self)
        ensures { worth self.new ≡ joined (worth self.old) (worth other.now) };

    /// That this worth and the tally's say the same.
    fn joinable_stands()
        ensures { SameWorth Self.Tally.worth worth };
}
