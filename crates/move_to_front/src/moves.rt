//! A block behind the front end that moves to a new one of it.
ghost use Rattle.std.specs.Prelude.{◌≡◌, ◌/◌, ◌≤◌, ℕ, List, Some, true};
ghost use Rattle.heap_model.specs.declared.Flags.{Flags as AFlags};
ghost use Rattle.heap_model.specs.declared.Layer.TheVariants as layers;
ghost use Rattle.heap_model.specs.declared.What.TheVariants as whats;
ghost use Rattle.heap_model.specs.Buckets.{bucket_of};
ghost use Rattle.heap_model.specs.State.{Place};
ghost use Rattle.heap_gate.specs.Token.{is_out};
ghost use Rattle.move_parts.specs.Moves.{IsMoving, TellsVs, TellsBack, TellsLarge};
ghost use Rattle.move_to_front.specs.Moved.{MovesOver, MovesOverLarge};

use crate::finish::{front_back, front_large, front_vs};
use crate::hold::hold_new;
use crate::late::{late_back, late_large, late_vs};
use backend_fit::Back;
use call_parts::State;
use heap_gate::{Caller, Heap};
use large_blocks::Large;
use move_front::Front;
use vs_layer::Vs;

/// What comes of a move to the front end.
#[derive(Clone, Copy, Debug, PartialEq, Eq)]
pub enum ToFront {
    /// The block is at this address now: one of the front end, or of the variable-size layer where the front end has none.
    Moved { addr: u64 },
    /// The bucket is neither active nor due: the variable-size layer serves the size. Nothing has changed.
    Idle,
    /// Neither has room for the size. The old block is as it was.
    NoFit,
}

/// Moves a block of the variable-size layer to a new one of a bucket of the front end, and zeroes the words that it gains where `zero` is
/// asked. Where the front end has no block for it, and no room for a subsegment, it goes to a new place of the variable-size layer.
/// Both locks are held still.
pub fn move_vs_to_front(
    heap: &Heap<State>,
    c: &mut Caller<State>,
    vs: &mut Vs,
    back: &mut Back,
    addr: u64,
    size: u64,
    n: u64,
    bucket: u8,
    zero: bool,
) -> ToFront
    requires size { n ≤ 16368 }
    requires bucket { bucket_of n ≡ Some bucket }
    requires table { (c.old.table ≡ heap.now.table) × (c.old.opening ≡ heap.now.opening) }
    requires moving { (flags : AFlags) × (p : Place) × (out : List ℕ) × IsMoving c.old addr size n flags p out × (p.layer ≡ layers.Vs) × (is_out whats.Vs out ≡ true) × TellsVs c.old vs.old × (is_out whats.Back out ≡ true) × TellsBack c.old back.old }
    ensures { (flags : AFlags) (p : Place) (out : List ℕ) → flags.zero ≡ zero → IsMoving c.old addr size n flags p out → p.layer ≡ layers.Vs → is_out whats.Vs out ≡ true → TellsVs c.old vs.old → is_out whats.Back out ≡ true → TellsBack c.old back.old → MovesOver c.old c.new addr size n flags p vs.old vs.new back.old back.new result }
{
    match hold_new(heap, c, vs, back, n, bucket) {
        Front::Held { addr: b } => {
            front_vs(heap, c, vs, back, addr, size, b, n, zero);
            ToFront::Moved { addr: b }
        }
        Front::NoRoom => match late_vs(heap, c, vs, back, addr, size, n, bucket, zero) {
            Some(b) => ToFront::Moved { addr: b },
            None => ToFront::NoFit,
        },
        Front::Idle => ToFront::Idle,
    }
}

/// As [`move_vs_to_front`], for a block of the back end, which begins at page `first`.
pub fn move_back_to_front(
    heap: &Heap<State>,
    c: &mut Caller<State>,
    vs: &mut Vs,
    back: &mut Back,
    first: u32,
    addr: u64,
    size: u64,
    n: u64,
    bucket: u8,
    zero: bool,
) -> ToFront
    requires size { n ≤ 16368 }
    requires bucket { bucket_of n ≡ Some bucket }
    requires page { first ≡ addr / 4096 }
    requires table { (c.old.table ≡ heap.now.table) × (c.old.opening ≡ heap.now.opening) }
    requires moving { (flags : AFlags) × (p : Place) × (out : List ℕ) × IsMoving c.old addr size n flags p out × (p.layer ≡ layers.Back) × (is_out whats.Vs out ≡ true) × TellsVs c.old vs.old × (is_out whats.Back out ≡ true) × TellsBack c.old back.old }
    ensures { (flags : AFlags) (p : Place) (out : List ℕ) → flags.zero ≡ zero → IsMoving c.old addr size n flags p out → p.layer ≡ layers.Back → is_out whats.Vs out ≡ true → TellsVs c.old vs.old → is_out whats.Back out ≡ true → TellsBack c.old back.old → MovesOver c.old c.new addr size n flags p vs.old vs.new back.old back.new result }
{
    match hold_new(heap, c, vs, back, n, bucket) {
        Front::Held { addr: b } => {
            front_back(heap, c, back, first, addr, size, b, n, zero);
            ToFront::Moved { addr: b }
        }
        Front::NoRoom => match late_back(heap, c, vs, back, first, addr, size, n, bucket, zero) {
            Some(b) => ToFront::Moved { addr: b },
            None => ToFront::NoFit,
        },
        Front::Idle => ToFront::Idle,
    }
}

/// As [`move_vs_to_front`], for a block of the large area, whose lock is held too.
pub fn move_large_to_front(
    heap: &Heap<State>,
    c: &mut Caller<State>,
    vs: &mut Vs,
    back: &mut Back,
    large: &mut Large,
    addr: u64,
    size: u64,
    n: u64,
    bucket: u8,
    zero: bool,
) -> ToFront
    requires size { n ≤ 16368 }
    requires bucket { bucket_of n ≡ Some bucket }
    requires table { (c.old.table ≡ heap.now.table) × (c.old.opening ≡ heap.now.opening) }
    requires moving { (flags : AFlags) × (p : Place) × (out : List ℕ) × IsMoving c.old addr size n flags p out × (p.layer ≡ layers.Large) × (is_out whats.Vs out ≡ true) × TellsVs c.old vs.old × (is_out whats.Back out ≡ true) × TellsBack c.old back.old × (is_out whats.Large out ≡ true) × TellsLarge c.old large.old }
    ensures { (flags : AFlags) (p : Place) (out : List ℕ) → flags.zero ≡ zero → IsMoving c.old addr size n flags p out → p.layer ≡ layers.Large → is_out whats.Vs out ≡ true → TellsVs c.old vs.old → is_out whats.Back out ≡ true → TellsBack c.old back.old → is_out whats.Large out ≡ true → TellsLarge c.old large.old → MovesOverLarge c.old c.new addr size n flags p vs.old vs.new back.old back.new large.old large.new result }
{
    match hold_new(heap, c, vs, back, n, bucket) {
        Front::Held { addr: b } => {
            front_large(heap, c, large, addr, size, b, n, zero);
            ToFront::Moved { addr: b }
        }
        Front::NoRoom => match late_large(heap, c, vs, back, large, addr, size, n, bucket, zero) {
            Some(b) => ToFront::Moved { addr: b },
            None => ToFront::NoFit,
        },
        Front::Idle => ToFront::Idle,
    }
}
