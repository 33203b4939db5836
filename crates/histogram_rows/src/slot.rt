//! Slots, apart from what is done with them, so that specs can name them.

/// What a row is for: a bucket of the level above, and the position of a slot below it. Slots are in order by bucket and
/// then by position.
#[derive(Clone, Copy, PartialEq, Eq, PartialOrd, Ord)]
pub(crate) struct Slot {
    pub(crate) bucket: u32,
    pub(crate) position: i64,
}
