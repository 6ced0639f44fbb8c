//! Which layer the block at an address would be of.
ghost use Rattle.std.specs.Prelude.{◌≡◌, ◌*◌, ◌/◌, ◌%◌, ◌+◌, ◌<◌, ◌≤◌, [], ◌∷◌, None, OnOk, IfOk, IfErr, IfSome, IfNone};
ghost use Rattle.heap_model.specs.declared.Act.TheVariants.{TakeLock, GiveLock};
ghost use Rattle.heap_model.specs.declared.What.TheVariants as whats;
ghost use Rattle.call_parts.specs.Entries.{HasAdded};
ghost use Rattle.vs_layer.specs.Kept.{block_at};
ghost use Rattle.vs_calls.specs.Blocks.{HasVs};
ghost use Rattle.paged_calls.specs.Parts.{HasBoth};
ghost use Rattle.lfh_buckets.specs.Blocks.{IsBucket};
ghost use Rattle.block_steps.specs.Blocks.{MayAsk};
ghost use Rattle.heap_gate.specs.Token.{Always, now};
ghost use Rattle.address_calls.specs.Answers.{MeetsOn};
ghost use Rattle.address_calls.specs.Finds.{Looks, IsFree, IsFound, IsFront, FrontBy, FindsFront};
ghost use Rattle.address_calls.specs.Tagged.{KnowsTag, FindsAtOnce};

use backend_fit::Back;
use call_parts::{State, give_back, give_vs, take_back, take_large, take_vs};
use heap_gate::{Caller, Heap};
use heap_model::{Busy, GRANULE_BYTES, PAGE_BYTES, SEGMENT_PAGES};
use large_blocks::Large;
use lfh_claims::{Tag, tag_of};
use vs_layer::Vs;

/// Where a block would be that begins at an address, with the state of each layer whose lock was taken for it.
#[derive(Drop)]
pub enum Found {
    /// In a subsegment of the front end, which the tag names.
    Front(Tag),
    /// In the variable-size layer, which has a live block there.
    Vs(Vs),
    /// In the back end, or nowhere.
    Back(Vs, Back),
    /// In the large area.
    Large(Large),
    /// No block begins at such an address.
    Nowhere,
}

/// The tag of the subsegment that has the page of an address, with no lock. It is `None` where no block can begin there, where no
/// subsegment has the page, or where its maker has still to store the tag.
pub(crate) fn find_front(heap: &Heap<State>, c: &mut Caller<State>, addr: u64) -> Option<Tag>
    requires table { (c.old.table ≡ heap.now.table) × (c.old.opening ≡ heap.now.opening) }
    requires serving { IsFree c.old }
    ensures added { HasAdded c.old c.new [] }
    ensures free { IsFree c.new }
    ensures front { IfSome result (IsFront c.new addr) }
    ensures none { IfNone result (KnowsTag c.old addr → KnowsTag c.new addr) }
{
    let limits = heap.limits();
    let page = addr / PAGE_BYTES;
    if page >= u64::from(SEGMENT_PAGES * limits.segments) || addr % GRANULE_BYTES != 0 {
        return None;
    }
    c.check();
    let told = tag_of(heap, c, page as u32);
    c.check();
    told
}

/// Finds out which layer the block at an address would be of, and takes the locks that this layer's parts ask. Each lock is tried
/// once: where another caller has one, those that were taken are given back. Where the caller knows the tag of the page, it takes
/// none.
pub fn look_up(heap: &Heap<State>, c: &mut Caller<State>, addr: u64) -> Result<Found, Busy>
    requires table { (c.old.table ≡ heap.now.table) × (c.old.opening ≡ heap.now.opening) }
    requires serving { IsFree c.old }
    ensures looks { OnOk result (Looks c.old c.new) }
    ensures found { IfOk result (λ found. IsFound c.new addr found) }
    ensures front { IfOk result (λ found. FindsFront c.old c.new found) }
    ensures tagged { KnowsTag c.old addr → FindsAtOnce c.old c.new result }
    ensures busy { IfErr result (λ b. MeetsOn c.old c.new addr b) }
{
    let limits = heap.limits();
    let pages = u64::from(SEGMENT_PAGES * limits.segments);
    let page = addr / PAGE_BYTES;
    if addr % GRANULE_BYTES != 0 {
        return Ok(Found::Nowhere);
    }
    if page >= pages + u64::from(limits.large_pages) {
        return Ok(Found::Nowhere);
    }
    if page < pages {
        look_in_segments(heap, c, addr, page as u32)
    } else {
        look_in_large(heap, c, addr)
    }
}

/// Takes the lock of the large area, which alone can have a block behind the segments.
fn look_in_large(heap: &Heap<State>, c: &mut Caller<State>, addr: u64) -> Result<Found, Busy>
    requires table { c.old.table ≡ heap.now.table }
    requires serving { IsFree c.old }
    requires behind { 256 * c.old.opening.limits.segments ≤ addr / 4096 }
    requires inside { addr / 4096 < 256 * c.old.opening.limits.segments + c.old.opening.limits.large_pages }
    ensures looks { OnOk result (Looks c.old c.new) }
    ensures found { IfOk result (λ found. IsFound c.new addr found) }
    ensures front { IfOk result (λ found. FindsFront c.old c.new found) }
    ensures tagged { KnowsTag c.old addr → FindsAtOnce c.old c.new result }
    ensures busy { IfErr result (λ b. MeetsOn c.old c.new addr b) }
{
    match take_large(heap, c) {
        Ok(large) => Ok(Found::Large(large)),
        Err(busy) => Err(busy),
    }
}

/// Reads the tag of the page, and looks under the locks where there is none.
fn look_in_segments(
    heap: &Heap<State>,
    c: &mut Caller<State>,
    addr: u64,
    page: u32,
) -> Result<Found, Busy>
    requires table { (c.old.table ≡ heap.now.table) × (c.old.opening ≡ heap.now.opening) }
    requires serving { IsFree c.old }
    requires aligned { addr % 16 ≡ 0 }
    requires below { addr / 4096 < 256 * c.old.opening.limits.segments }
    requires page { page ≡ addr / 4096 }
    ensures looks { OnOk result (Looks c.old c.new) }
    ensures found { IfOk result (λ found. IsFound c.new addr found) }
    ensures front { IfOk result (λ found. FindsFront c.old c.new found) }
    ensures tagged { KnowsTag c.old addr → FindsAtOnce c.old c.new result }
    ensures busy { IfErr result (λ b. MeetsOn c.old c.new addr b) }
{
    c.check();
    match tag_of(heap, c, page) {
        Some(tag) => {
            c.check();
            Ok(Found::Front(tag))
        }
        None => {
            c.check();
            look_under_vs(heap, c, addr, page)
        }
    }
}

/// Looks for the block in the variable-size layer, and where it is not there in the others.
fn look_under_vs(
    heap: &Heap<State>,
    c: &mut Caller<State>,
    addr: u64,
    page: u32,
) -> Result<Found, Busy>
    requires table { (c.old.table ≡ heap.now.table) × (c.old.opening ≡ heap.now.opening) }
    requires serving { IsFree c.old }
    requires aligned { addr % 16 ≡ 0 }
    requires below { addr / 4096 < 256 * c.old.opening.limits.segments }
    requires page { page ≡ addr / 4096 }
    ensures looks { OnOk result (Looks c.old c.new) }
    ensures found { IfOk result (λ found. IsFound c.new addr found) }
    ensures front { IfOk result (λ found. FrontBy (TakeLock whats.Vs ∷ TakeLock whats.Back ∷ GiveLock whats.Back ∷ GiveLock whats.Vs ∷ []) c.old c.new found) }
    ensures busy { IfErr result (λ b. MeetsOn c.old c.new addr b) }
{
    let vs = match take_vs(heap, c) {
        Ok(vs) => vs,
        Err(busy) => return Err(busy),
    };
    match vs.find(addr) {
        Some(_size) => Ok(Found::Vs(vs)),
        None => look_under_both(heap, c, vs, addr, page),
    }
}

/// Looks under the lock of the back end too, or gives the other back.
fn look_under_both(
    heap: &Heap<State>,
    c: &mut Caller<State>,
    vs: Vs,
    addr: u64,
    page: u32,
) -> Result<Found, Busy>
    requires table { (c.old.table ≡ heap.now.table) × (c.old.opening ≡ heap.now.opening) }
    requires vs { HasVs c.old vs }
    requires not_vs { block_at vs addr ≡ None }
    requires aligned { addr % 16 ≡ 0 }
    requires below { addr / 4096 < 256 * c.old.opening.limits.segments }
    requires page { page ≡ addr / 4096 }
    ensures looks { OnOk result (Looks c.old c.new) }
    ensures found { IfOk result (λ found. IsFound c.new addr found) }
    ensures front { IfOk result (λ found. FrontBy (TakeLock whats.Back ∷ GiveLock whats.Back ∷ GiveLock whats.Vs ∷ []) c.old c.new found) }
    ensures busy { IfErr result (λ b. MeetsOn c.old c.new addr b) }
{
    c.check();
    match take_back(heap, c) {
        Ok(back) => Ok(split(heap, c, vs, back, addr, page)),
        Err(busy) => {
            give_vs(heap, c, vs);
            Err(busy)
        }
    }
}

/// Reads the tag again. Each caller that makes a subsegment stores its tags before it gives the lock of the back end back, so that
/// under this lock a page without a tag is one without a subsegment. Where there is one, both locks are given back.
fn split(
    heap: &Heap<State>,
    c: &mut Caller<State>,
    vs: Vs,
    back: Back,
    addr: u64,
    page: u32,
) -> Found
    requires table { (c.old.table ≡ heap.now.table) × (c.old.opening ≡ heap.now.opening) }
    requires both { HasBoth c.old vs back }
    requires not_vs { block_at vs addr ≡ None }
    requires aligned { addr % 16 ≡ 0 }
    requires below { addr / 4096 < 256 * c.old.opening.limits.segments }
    requires page { page ≡ addr / 4096 }
    ensures looks { Looks c.old c.new }
    ensures found { IsFound c.new addr result }
    ensures front { FrontBy (GiveLock whats.Back ∷ GiveLock whats.Vs ∷ []) c.old c.new result }
{
    c.check();
    match tag_of(heap, c, page) {
        Some(tag) => {
            c.check();
            go_out(heap, c, vs, back, addr, tag);
            Found::Front(tag)
        }
        None => {
            c.check();
            Found::Back(vs, back)
        }
    }
}

/// Gives both locks back. Where the caller may ask for a block it still may then, as long as it is inside.
fn go_out(heap: &Heap<State>, c: &mut Caller<State>, vs: Vs, back: Back, addr: u64, tag: Tag)
    requires table { c.old.table ≡ heap.now.table }
    requires both { HasBoth c.old vs back }
    requires below { addr / 4096 < 256 * c.old.opening.limits.segments }
    requires bucket { IsBucket tag.bucket }
    requires may { Always c.old (λ s. MayAsk (now s c.old) c.old.number tag.head tag.bucket tag.slot addr) }
    ensures looks { Looks c.old c.new }
    ensures front { IsFront c.new addr tag }
    ensures added { HasAdded c.old c.new (GiveLock whats.Back ∷ GiveLock whats.Vs ∷ []) }
{
    c.check();
    give_back(heap, c, back);
    c.check();
    give_vs(heap, c, vs);
    c.check();
}
