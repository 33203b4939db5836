//! A joinable tally that minds no order.
ghost use Rattle.std.specs.Prelude.{◌≡◌, ℕ, ◌++◌};
ghost use Rattle.records.specs.declared.column_type.ColumnType.{ColumnType};
ghost use Rattle.metrics.specs.Tallies.{Exactly, SameRules, ExactBelow, fed_all};

use crate::joinable::Joinable;
use crate::tally::{Tally, feed_all};
use records::column_type::ColumnType;

/// A joinable tally whose joining is associative and commutative, the empty one neutral, and feeding it a value is
/// joining an empty tally fed that value.
///
/// Its meaning is its own; `exact_stands` promises that it is that of the tally and of the joinable tally below.
pub trait Exact: Joinable {
    // A default sees no other member, so each impl says that these are those below.
    ghost Worth: { Type 0 };

    ghost worth: { Self → Worth };

    ghost nothing: { Worth };

    ghost fed: { ColumnType → ℕ → Worth → Worth };

    ghost joined: { Worth → Worth → Worth };

    /// That worth, feeding and joining are those of the traits below.
    fn exact_stands()
        ensures { SameRules Self.Tally.worth Self.Tally.nothing Self.Tally.fed Self.Joinable.worth Self.Joinable.joined worth nothing fed joined };

    ghost laws: { Exactly nothing fed joined };
}

/// That the laws hold in the words of the traits below: a tally's worths can be joined, as the joinable tally joins
/// them, with the laws of an exact one.
pub fn exact_below_stands<T: Exact>()
    ensures { ExactBelow T.Tally.worth T.Tally.nothing T.Tally.fed T.Joinable.worth T.Joinable.joined }
{
    T::exact_stands();
}

/// A tally of two lists of values, fed to two tallies that are then merged: worth what one tally is worth that was fed
/// both lists, in either order.
pub fn feed_apart<T: Exact>(field_type: ColumnType, xs: &[u64], ys: &[u64]) -> T
    ensures together { T.Tally.worth result ≡ fed_all T.Tally.fed field_type (xs.now ++ ys.now) T.Tally.nothing }
    ensures turned { T.Tally.worth result ≡ fed_all T.Tally.fed field_type (ys.now ++ xs.now) T.Tally.nothing }
{
    let mut tally = T::empty();
    feed_all(&mut tally, field_type, xs);
    let mut other = T::empty();
    feed_all(&mut other, field_type, ys);
    tally.merge_fruits(&other);
    exact_below_stands::<T>();
    tally
}
