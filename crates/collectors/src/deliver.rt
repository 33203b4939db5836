//! Sending a document on to the level below.
ghost use Rattle.std.specs.Prelude.{◌<◌, [], ◌∷◌};
ghost use Rattle.stack.specs.Overruns.{added};
ghost use Rattle.stack.specs.Calls.{Handled, Inside};
ghost use Rattle.collectors.specs.Calls.{carried_in};

use limits::agg_limits::AggregationLimits;
use records::fault::Fault;
use segments::segment::Segment;
use stack::cache::SubAggCache;

/// Lets a document wait for a row, handing over first where the cache is full.
// The segment, the limits and the slots are lent one by one, as to a level.
pub(crate) fn deliver<C: SubAggCache, S: Segment>(
    below: &mut C,
    seg: &S,
    limits: &mut AggregationLimits,
    slots: &mut [C::Fruit],
    row: u32,
    doc: u32,
) -> Result<(), Fault>
    requires { row < 512 }
    ensures { Handled result (carried_in C.stored C.waiting) C.plan C.made (S.means seg.now)
        (below.old, slots.old, limits.old) (below.new, slots.new, limits.new)
        (Inside (C.waiting below.old)) (λ E. added E row (doc ∷ [])) }
{
    if below.push(row, doc) {
        return Ok(());
    }
    below.hand_over(seg, limits, slots)?;
    // Its answer is true: an empty cache is never full, and the row is below 512.
    let _ = below.push(row, doc);
    Ok(())
}

/// Hands over where a block has left the cache full.
pub(crate) fn ease<C: SubAggCache, S: Segment>(
    below: &mut C,
    seg: &S,
    limits: &mut AggregationLimits,
    slots: &mut [C::Fruit],
) -> Result<(), Fault>
    ensures { Handled result (carried_in C.stored C.waiting) C.plan C.made (S.means seg.now)
        (below.old, slots.old, limits.old) (below.new, slots.new, limits.new)
        (Inside (C.waiting below.old)) (λ E. E) }
{
    if below.is_full() {
        below.hand_over(seg, limits, slots)?;
    }
    Ok(())
}
