//! The laws of the model.
ghost use Rattle.stack.specs.Levels.{ReadingLaws};
ghost use Rattle.stack.specs.Overruns.{OverrunStays};

/// Readings add up over namings, what a tally is fed composes, a naming counts as the product of how often its steps
/// occur, and more namings never remove a row.
pub fn readings_stand()
    ensures { ReadingLaws }
{}

/// More deliveries never undo an overrun.
pub fn overruns_stand()
    ensures { OverrunStays }
{}
