//! Worked cases of grids and tilings.
ghost use Rattle.buckets.specs.Cases.{WorkedCases};

/// Slots on grids with intervals 10 and 0.1 and with an offset of 5, and tilings, overlaps and ends of ranges on a column
/// of whole numbers.
pub fn worked_cases_stand()
    ensures { WorkedCases }
{}
