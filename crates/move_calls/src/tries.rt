//! A move to a place of at most 520,192 bytes: to the front end where the bucket of the size is active or due, else to the
//! variable-size layer or to the back end.
ghost use Rattle.std.specs.Prelude.{◌≡◌, ◌/◌, ◌≤◌, ℕ, List, true};
ghost use Rattle.heap_model.specs.declared.Flags.{Flags as AFlags};
ghost use Rattle.heap_model.specs.declared.Layer.TheVariants as layers;
ghost use Rattle.heap_model.specs.declared.What.TheVariants as whats;
ghost use Rattle.heap_model.specs.Buckets.{bucket_of as bucket_told};
ghost use Rattle.heap_model.specs.State.{Place};
ghost use Rattle.heap_gate.specs.Token.{is_out};
ghost use Rattle.move_parts.specs.Moves.{IsMoving, TellsVs, TellsBack, TellsLarge};
ghost use Rattle.move_calls.specs.Ends.{HasTriedIt};

use backend_fit::Back;
use call_parts::State;
use heap_gate::{Caller, Heap};
use large_blocks::Large;
use lfh_buckets::bucket_of;
use move_parts::{move_back, move_large_low, move_vs};
use move_to_front::{ToFront, move_back_to_front, move_large_to_front, move_vs_to_front};
use vs_layer::Vs;

/// Asks the front end first, for a size of this bucket.
fn ask_vs(
    heap: &Heap<State>,
    c: &mut Caller<State>,
    vs: &mut Vs,
    back: &mut Back,
    addr: u64,
    size: u64,
    n: u64,
    bucket: u8,
    zero: bool,
) -> Option<u64>
    requires bucket { bucket_told n ≡ Some bucket }
    requires table { (c.old.table ≡ heap.now.table) × (c.old.opening ≡ heap.now.opening) }
    requires moving { (flags : AFlags) × (p : Place) × (out : List ℕ) × (flags.zero ≡ zero) × IsMoving c.old addr size n flags p out × (p.layer ≡ layers.Vs) × (is_out whats.Vs out ≡ true) × TellsVs c.old vs.old × (is_out whats.Back out ≡ true) × TellsBack c.old back.old }
    ensures { (flags : AFlags) (p : Place) (out : List ℕ) → flags.zero ≡ zero → IsMoving c.old addr size n flags p out → p.layer ≡ layers.Vs → is_out whats.Vs out ≡ true → TellsVs c.old vs.old → is_out whats.Back out ≡ true → TellsBack c.old back.old → HasTriedIt c.old c.new addr size n flags p result × TellsVs c.new vs.new × TellsBack c.new back.new }
{
    match move_vs_to_front(heap, c, vs, back, addr, size, n, bucket, zero) {
        ToFront::Moved { addr: b } => Some(b),
        ToFront::NoFit => None,
        ToFront::Idle => move_vs(heap, c, vs, back, addr, size, n, zero),
    }
}

/// Moves a block of the variable-size layer, under both locks, which are held still. Where no range is there for the new one, it is as it was.
pub(crate) fn try_vs(
    heap: &Heap<State>,
    c: &mut Caller<State>,
    vs: &mut Vs,
    back: &mut Back,
    addr: u64,
    size: u64,
    n: u64,
    zero: bool,
) -> Option<u64>
    requires size { n ≤ 520192 }
    requires table { (c.old.table ≡ heap.now.table) × (c.old.opening ≡ heap.now.opening) }
    requires moving { (flags : AFlags) × (p : Place) × (out : List ℕ) × (flags.zero ≡ zero) × IsMoving c.old addr size n flags p out × (p.layer ≡ layers.Vs) × (is_out whats.Vs out ≡ true) × TellsVs c.old vs.old × (is_out whats.Back out ≡ true) × TellsBack c.old back.old }
    ensures { (flags : AFlags) (p : Place) (out : List ℕ) → flags.zero ≡ zero → IsMoving c.old addr size n flags p out → p.layer ≡ layers.Vs → is_out whats.Vs out ≡ true → TellsVs c.old vs.old → is_out whats.Back out ≡ true → TellsBack c.old back.old → HasTriedIt c.old c.new addr size n flags p result × TellsVs c.new vs.new × TellsBack c.new back.new }
{
    match bucket_of(n) {
        Some(bucket) => ask_vs(heap, c, vs, back, addr, size, n, bucket, zero),
        None => move_vs(heap, c, vs, back, addr, size, n, zero),
    }
}

/// Asks the front end first, for a size of this bucket.
fn ask_back(
    heap: &Heap<State>,
    c: &mut Caller<State>,
    vs: &mut Vs,
    back: &mut Back,
    first: u32,
    addr: u64,
    size: u64,
    n: u64,
    bucket: u8,
    zero: bool,
) -> Option<u64>
    requires bucket { bucket_told n ≡ Some bucket }
    requires page { first ≡ addr / 4096 }
    requires table { (c.old.table ≡ heap.now.table) × (c.old.opening ≡ heap.now.opening) }
    requires moving { (flags : AFlags) × (p : Place) × (out : List ℕ) × (flags.zero ≡ zero) × IsMoving c.old addr size n flags p out × (p.layer ≡ layers.Back) × (is_out whats.Vs out ≡ true) × TellsVs c.old vs.old × (is_out whats.Back out ≡ true) × TellsBack c.old back.old }
    ensures { (flags : AFlags) (p : Place) (out : List ℕ) → flags.zero ≡ zero → IsMoving c.old addr size n flags p out → p.layer ≡ layers.Back → is_out whats.Vs out ≡ true → TellsVs c.old vs.old → is_out whats.Back out ≡ true → TellsBack c.old back.old → HasTriedIt c.old c.new addr size n flags p result × TellsVs c.new vs.new × TellsBack c.new back.new }
{
    match move_back_to_front(heap, c, vs, back, first, addr, size, n, bucket, zero) {
        ToFront::Moved { addr: b } => Some(b),
        ToFront::NoFit => None,
        ToFront::Idle => move_back(heap, c, vs, back, first, addr, size, n, zero),
    }
}

/// As [`try_vs`], for a block of the back end, which begins at page `first`.
pub(crate) fn try_back(
    heap: &Heap<State>,
    c: &mut Caller<State>,
    vs: &mut Vs,
    back: &mut Back,
    first: u32,
    addr: u64,
    size: u64,
    n: u64,
    zero: bool,
) -> Option<u64>
    requires size { n ≤ 520192 }
    requires page { first ≡ addr / 4096 }
    requires table { (c.old.table ≡ heap.now.table) × (c.old.opening ≡ heap.now.opening) }
    requires moving { (flags : AFlags) × (p : Place) × (out : List ℕ) × (flags.zero ≡ zero) × IsMoving c.old addr size n flags p out × (p.layer ≡ layers.Back) × (is_out whats.Vs out ≡ true) × TellsVs c.old vs.old × (is_out whats.Back out ≡ true) × TellsBack c.old back.old }
    ensures { (flags : AFlags) (p : Place) (out : List ℕ) → flags.zero ≡ zero → IsMoving c.old addr size n flags p out → p.layer ≡ layers.Back → is_out whats.Vs out ≡ true → TellsVs c.old vs.old → is_out whats.Back out ≡ true → TellsBack c.old back.old → HasTriedIt c.old c.new addr size n flags p result × TellsVs c.new vs.new × TellsBack c.new back.new }
{
    match bucket_of(n) {
        Some(bucket) => ask_back(heap, c, vs, back, first, addr, size, n, bucket, zero),
        None => move_back(heap, c, vs, back, first, addr, size, n, zero),
    }
}

/// Asks the front end first, for a size of this bucket.
fn ask_large(
    heap: &Heap<State>,
    c: &mut Caller<State>,
    vs: &mut Vs,
    back: &mut Back,
    large: &mut Large,
    addr: u64,
    size: u64,
    n: u64,
    bucket: u8,
    zero: bool,
) -> Option<u64>
    requires bucket { bucket_told n ≡ Some bucket }
    requires table { (c.old.table ≡ heap.now.table) × (c.old.opening ≡ heap.now.opening) }
    requires moving { (flags : AFlags) × (p : Place) × (out : List ℕ) × (flags.zero ≡ zero) × IsMoving c.old addr size n flags p out × (p.layer ≡ layers.Large) × (is_out whats.Vs out ≡ true) × TellsVs c.old vs.old × (is_out whats.Back out ≡ true) × TellsBack c.old back.old × (is_out whats.Large out ≡ true) × TellsLarge c.old large.old }
    ensures { (flags : AFlags) (p : Place) (out : List ℕ) → flags.zero ≡ zero → IsMoving c.old addr size n flags p out → p.layer ≡ layers.Large → is_out whats.Vs out ≡ true → TellsVs c.old vs.old → is_out whats.Back out ≡ true → TellsBack c.old back.old → is_out whats.Large out ≡ true → TellsLarge c.old large.old → HasTriedIt c.old c.new addr size n flags p result × TellsVs c.new vs.new × TellsBack c.new back.new × TellsLarge c.new large.new }
{
    match move_large_to_front(heap, c, vs, back, large, addr, size, n, bucket, zero) {
        ToFront::Moved { addr: b } => Some(b),
        ToFront::NoFit => None,
        ToFront::Idle => move_large_low(heap, c, vs, back, large, addr, size, n, zero),
    }
}

/// As [`try_vs`], for a block of the large area, under its lock too.
pub(crate) fn try_large(
    heap: &Heap<State>,
    c: &mut Caller<State>,
    vs: &mut Vs,
    back: &mut Back,
    large: &mut Large,
    addr: u64,
    size: u64,
    n: u64,
    zero: bool,
) -> Option<u64>
    requires size { n ≤ 520192 }
    requires table { (c.old.table ≡ heap.now.table) × (c.old.opening ≡ heap.now.opening) }
    requires moving { (flags : AFlags) × (p : Place) × (out : List ℕ) × (flags.zero ≡ zero) × IsMoving c.old addr size n flags p out × (p.layer ≡ layers.Large) × (is_out whats.Vs out ≡ true) × TellsVs c.old vs.old × (is_out whats.Back out ≡ true) × TellsBack c.old back.old × (is_out whats.Large out ≡ true) × TellsLarge c.old large.old }
    ensures { (flags : AFlags) (p : Place) (out : List ℕ) → flags.zero ≡ zero → IsMoving c.old addr size n flags p out → p.layer ≡ layers.Large → is_out whats.Vs out ≡ true → TellsVs c.old vs.old → is_out whats.Back out ≡ true → TellsBack c.old back.old → is_out whats.Large out ≡ true → TellsLarge c.old large.old → HasTriedIt c.old c.new addr size n flags p result × TellsVs c.new vs.new × TellsBack c.new back.new × TellsLarge c.new large.new }
{
    match bucket_of(n) {
        Some(bucket) => ask_large(heap, c, vs, back, large, addr, size, n, bucket, zero),
        None => move_large_low(heap, c, vs, back, large, addr, size, n, zero),
    }
}
