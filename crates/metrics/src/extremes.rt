//! The smallest and the largest value.
ghost use Rattle.std.specs.Prelude.{◌≡◌, Some, None, Option};
ghost use Rattle.metrics.specs.Ends.{Ends, widened, reaching, least_of, greatest_of, Reaches};
ghost use Rattle.metrics.specs.Sameness.{same_ends};
ghost use Rattle.metrics.specs.Widening.{widening_laws};

use crate::exact::Exact;
use crate::joinable::Joinable;
use crate::tally::Tally;
use records::column_type::ColumnType;

/// The smallest and the largest of the values it was fed, as u64, or none.
#[derive(Clone, Copy, Debug, PartialEq)]
pub struct Extremes {
    ends: Option<(u64, u64)>,
}

impl Extremes {
    /// The smallest value, or none.
    pub fn least(&self) -> Option<u64>
        ensures { result ≡ least_of self.now.ends }
    {
        self.ends.map(|(least, _)| least)
    }

    /// The largest value, or none.
    pub fn greatest(&self) -> Option<u64>
        ensures { result ≡ greatest_of self.now.ends }
    {
        self.ends.map(|(_, greatest)| greatest)
    }
}

/// The ends of all values that lie within one pair of ends or the other.
fn wider(ends: Option<(u64, u64)>, other: Option<(u64, u64)>) -> Option<(u64, u64)>
    ensures { result ≡ widened ends other }
{
    ends.zip(other)
        .map(|((a, b), (c, d))| (a.min(c), b.max(d)))
        .or(ends)
        .or(other)
}

impl Tally for Extremes {
    ghost Worth = { Ends };

    ghost worth = { λ e. e.ends };

    ghost nothing = { None };

    ghost fed = { reaching };

    fn empty() -> Extremes {
        Extremes { ends: None }
    }

    fn feed(&mut self, _field_type: ColumnType, val: u64) {
        self.ends = wider(self.ends, Some((val, val)));
    }

    ghost same = { λ x y. same_ends x.ends y.ends };
}

impl Joinable for Extremes {
    ghost Worth = { Self.Tally.Worth };

    ghost worth = { Self.Tally.worth };

    ghost joined = { widened };

    fn merge_fruits(&mut self, other: &Extremes) {
        self.ends = wider(self.ends, other.ends);
    }

    fn joinable_stands() {}
}

impl Exact for Extremes {
    ghost Worth = { Self.Tally.Worth };

    ghost worth = { Self.Tally.worth };

    ghost nothing = { Self.Tally.nothing };

    ghost fed = { Self.Tally.fed };

    ghost joined = { Self.Joinable.joined };

    ghost laws = { widening_laws };

    fn exact_stands() {}
}

/// Extremes are worth two of the values they were fed, with every one between them, or none where they were fed none.
pub fn extremes_stand()
    ensures { Reaches }
{}
