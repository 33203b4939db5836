//! The pairs that wait, in 16 partitions.
ghost use Rattle.std.specs.Prelude.{◌≡◌, ◌≤◌, length};
ghost use Rattle.caches.specs.Grouping.{group_waits, group_len, AllHome};
ghost use Rattle.caches.specs.Groups.{group_record};

use crate::buffer::{Buffer, CAPACITY};
use crate::pairs::Pairs;
use limits::agg_limits::AggregationLimits;
use records::fault::Fault;
use segments::segment::Segment;
use stack::level::SegmentAggregationCollector;

const PARTITIONS: usize = 16;

/// At most 2,048 pairs of a bucket number below 512 and a document, in 16 partitions by bucket number modulo 16, and in
/// each in the order in which they came. Any partition has room for all of them.
#[derive(Clone, Copy)]
pub struct Partitions {
    partitions: [Pairs; PARTITIONS],
    // The sum of theirs, kept so that `is_full` does not add them up.
    len: usize,
    ghost few: { len ≤ 2048 },
    ghost total: { group_len partitions ≡ len },
    ghost home: { AllHome partitions },
    ghost sixteen: { length partitions ≡ 16 },
}

impl Buffer for Partitions {
    ghost waiting = { λ p. group_waits p.partitions };

    ghost pending = { λ p. p.len };

    fn new() -> Partitions {
        Partitions {
            partitions: [Pairs::new(); PARTITIONS],
            len: 0,
        }
    }

    fn is_full(&self) -> bool {
        self.len == CAPACITY
    }

    fn push(&mut self, bucket: u32, doc: u32) -> bool {
        if self.len == CAPACITY {
            return false;
        }
        // As a slice, since the prover does not take a borrowed element of an array that a struct with invariants holds.
        let partitions = self.partitions.as_mut_slice();
        if !partitions[bucket as usize % PARTITIONS].push(bucket, doc) {
            return false;
        }
        self.len += 1;
        true
    }

    fn clear(&mut self) {
        // Their lengths lie far apart, so an empty cache is left as it is.
        if self.len == 0 {
            return;
        }
        for partition in &mut self.partitions {
            partition.clear();
        }
        self.len = 0;
    }

    fn deliver<L: SegmentAggregationCollector, S: Segment>(
        &self,
        below: &mut L,
        seg: &S,
        limits: &mut AggregationLimits,
        slots: &mut [L::Fruit],
    ) -> Result<(), Fault> {
        for partition in &self.partitions {
            let (bucket_ids, docs) = partition.as_slices();
            below.collect_multiple(seg, limits, slots, bucket_ids, docs)?;
        }
        Ok(())
    }

    ghost waits = { λ p. group_record p.partitions p.len p.few p.total };
}
