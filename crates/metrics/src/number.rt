//! How many values there were.
ghost use Rattle.std.specs.Prelude.{◌≡◌, ◌==◌};
ghost use Rattle.std.specs.Ordering.{on};
ghost use Rattle.std.specs.Cmp.Rules.{comparing};
ghost use Rattle.std.proofs.Common.{rules};
ghost use Rattle.metrics.specs.Numbers.{Counted, capped, one_more, added, number_worth, Counts};
ghost use Rattle.metrics.specs.Counting.{number_laws};
ghost use Rattle.metrics.specs.Sameness.{same_number};

use crate::exact::Exact;
use crate::joinable::Joinable;
use crate::tally::Tally;
use records::column_type::ColumnType;

/// How many values it was fed, at most 2^64 − 1.
#[derive(Clone, Copy, Debug)]
pub struct Number {
    count: u64,
}

impl Number {
    /// How many values it was fed.
    pub fn count(&self) -> u64
        ensures { result ≡ (number_worth self.now).count }
    {
        self.count
    }

    /// This number with `more` values counted in.
    fn with(&self, more: u64) -> Number
        ensures { number_worth result ≡ added (number_worth self.now) (capped more) }
    {
        Number {
            count: self.count.saturating_add(more),
        }
    }
}

impl Tally for Number {
    ghost Worth = { Counted };

    ghost worth = { number_worth };

    ghost nothing = { capped 0 };

    ghost fed = { λ _ _. one_more };

    fn empty() -> Number {
        Number { count: 0 }
    }

    fn feed(&mut self, _field_type: ColumnType, _val: u64) {
        *self = self.with(1);
    }

    ghost same = { same_number };
}

// By hand, since a law speaks of all of ℕ: a derived `==` would tell counts apart that are capped to one worth.
impl PartialEq for Number {
    ghost eq = { on (λ n. (number_worth n).count) ◌==◌ };

    ghost laws = { Prim.search (comparing, rules) };

    fn eq(&self, other: &Number) -> bool {
        self.count == other.count
    }
}

impl Joinable for Number {
    ghost Worth = { Self.Tally.Worth };

    ghost worth = { Self.Tally.worth };

    ghost joined = { added };

    fn merge_fruits(&mut self, other: &Number) {
        *self = self.with(other.count);
    }

    fn joinable_stands() {}
}

impl Exact for Number {
    ghost Worth = { Self.Tally.Worth };

    ghost worth = { Self.Tally.worth };

    ghost nothing = { Self.Tally.nothing };

    ghost fed = { Self.Tally.fed };

    ghost joined = { Self.Joinable.joined };

    ghost laws = { number_laws };

    fn exact_stands() {}
}

/// A Number is worth how many values it was fed, at most 2^64 − 1.
pub fn number_stands()
    ensures { Counts }
{}
