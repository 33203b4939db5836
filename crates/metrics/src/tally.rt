//! A tally, and feeding it a column's values.
ghost use Rattle.std.specs.Prelude.{◌≡◌, ℕ, Decides};
ghost use Rattle.records.specs.declared.column_type.ColumnType.{ColumnType};
ghost use Rattle.metrics.specs.Tallies.{fed_all};

use records::column_type::ColumnType;

/// What is kept of the values fed into it. Two tallies of equal worth are the same tally, whatever they hold.
/// Feeding never refuses.
pub trait Tally: Copy + PartialEq {
    ghost Worth: { Type 0 };

    ghost worth: { Self → Worth };

    /// What the empty tally is worth.
    ghost nothing: { Worth };

    /// What a tally is worth once it is fed a value of a column of that type.
    ghost fed: { ColumnType → ℕ → Worth → Worth };

    /// The empty tally.
    fn empty() -> Self
        ensures { worth result ≡ nothing };

    /// Feeds it a value of a column of that type.
    fn feed(&mut self, field_type: ColumnType, val: u64)
        ensures { worth self.new ≡ fed field_type val (worth self.old) };

    /// `==` tells whether two tallies are worth the same.
    ghost same: { (x y : Self) → Decides (Self.eq x y) (worth x ≡ worth y) };
}

/// Feeds a tally each of the values, first to last.
pub fn feed_all<T: Tally>(tally: &mut T, field_type: ColumnType, vals: &[u64])
    ensures { T.Tally.worth tally.new ≡ fed_all T.Tally.fed field_type vals.now (T.Tally.worth tally.old) }
{
    for val in vals {
        tally.feed(field_type, *val);
    }
}

#[cfg(test)]
mod tests {
    use super::*;
    use crate::number::Number;

    // Generic code learns from `==` whether two tallies are worth the same.
    fn are_same<T: Tally>(tally: &T, other: &T) -> bool
        ensures { Decides result (T.Tally.worth tally.now ≡ T.Tally.worth other.now) }
    {
        *tally == *other
    }

    #[test]
    fn told_apart(rt: HostRuntime) {
        let mut number = Number::empty();
        assert!(rt; are_same(&number, &Number::empty()));
        number.feed(ColumnType::U64, 7);
        assert!(rt; !are_same(&number, &Number::empty()));
    }
}
