//! How the order of a column's values follows the order of their numbers.
ghost use Rattle.numbers.specs.Orders.{Ordered, Undone, ExactEnds};

/// The lower of two values of a column stands for no larger number.
pub fn column_order_stands()
    ensures { Ordered }
{}

/// On a F64 column, turning values into numbers and numbers into values undo each other.
pub fn float_mapping_stands()
    ensures { Undone }
{}

/// On a column of whole numbers, a value is at or above a turned range end exactly if its number is not below the end.
pub fn range_ends_stand()
    ensures { ExactEnds }
{}
