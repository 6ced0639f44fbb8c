// How many blocks of each bucket live here, and how often one was placed here.
ghost use Rattle.std.specs.Prelude.{◌≡◌, ℕ, ◌≤◌, length, IfOk, replicate};
ghost use Rattle.std.specs.List.{slice_index_or};
ghost use Rattle.std.specs.Vec.{vec_capacity};
ghost use Rattle.heap_model.specs.Buckets.{bucket_of};
ghost use Rattle.vs_layer.specs.Counted.{one_more, one_less, once_more, CanGrow, IsSomeLeft};

use crate::{BUCKETS, DUE_SERVED};
use heap_model::{OutOfMemory, filled};
use lfh_buckets::bucket_of;
use std::alloc::Global;

/// For each bucket, how many of its blocks live here, and how often one was placed here, up to 2,040 times.
#[derive(Drop)]
pub(crate) struct Counts {
    pub(crate) live: Vec<u32>,
    pub(crate) served: Vec<u16>,
}

impl Counts {
    pub(crate) fn new(alloc: Global) -> Result<Counts, OutOfMemory>
        ensures live { IfOk result (λ c. c.live.items ≡ replicate 129 0) }
        ensures served { IfOk result (λ c. c.served.items ≡ replicate 129 0) }
        ensures full { IfOk result (λ c. (vec_capacity c.live ≡ length c.live.items) × (vec_capacity c.served ≡ length c.served.items)) }
    {
        Ok(Counts {
            live: filled(alloc, 0u32, BUCKETS)?,
            served: filled(alloc, 0u16, BUCKETS)?,
        })
    }

    /// A block of `n` bytes was placed.
    pub(crate) fn placed(&mut self, n: u64)
        requires live_for { length self.old.live.items ≡ 129 }
        requires served_for { length self.old.served.items ≡ 129 }
        requires room { CanGrow self.old.live.items }
        requires most { (b : ℕ) → slice_index_or self.old.served.items b 0 ≤ 2040 }
        ensures live { self.new.live.items ≡ one_more (bucket_of n) self.old.live.items }
        ensures served { self.new.served.items ≡ once_more (bucket_of n) self.old.served.items }
        ensures live_room { vec_capacity self.new.live ≡ vec_capacity self.old.live }
        ensures served_room { vec_capacity self.new.served ≡ vec_capacity self.old.served }
    {
        if let Some(bucket) = bucket_of(n) {
            let b = usize::from(bucket);
            self.live[b] += 1;
            self.served[b] = DUE_SERVED.min(self.served[b] + 1);
        }
    }

    /// A block of `n` bytes was dropped.
    pub(crate) fn dropped(&mut self, n: u64)
        requires live_for { length self.old.live.items ≡ 129 }
        requires some { IsSomeLeft (bucket_of n) self.old.live.items }
        ensures live { self.new.live.items ≡ one_less (bucket_of n) self.old.live.items }
        ensures served { self.new.served ≡ self.old.served }
        ensures live_room { vec_capacity self.new.live ≡ vec_capacity self.old.live }
    {
        if let Some(bucket) = bucket_of(n) {
            self.live[usize::from(bucket)] -= 1;
        }
    }

    /// A block of `old` bytes has `new` bytes now. This is no placement.
    pub(crate) fn resized(&mut self, old: u64, new: u64)
        requires live_for { length self.old.live.items ≡ 129 }
        requires room { CanGrow self.old.live.items }
        requires some { IsSomeLeft (bucket_of old) self.old.live.items }
        ensures live { self.new.live.items ≡ one_more (bucket_of new) (one_less (bucket_of old) self.old.live.items) }
        ensures served { self.new.served ≡ self.old.served }
        ensures live_room { vec_capacity self.new.live ≡ vec_capacity self.old.live }
    {
        self.dropped(old);
        if let Some(bucket) = bucket_of(new) {
            self.live[usize::from(bucket)] += 1;
        }
    }
}
