//! Steps that make callers' seats, and that tell one seat of another.
ghost use Rattle.std.specs.Prelude.{◌≡◌, ℕ, ◌<◌, [], length};
ghost use mathlib.Core.Option.{none};
ghost use Rattle.atomic_table.specs.Table.{step};
ghost use Rattle.claim_rule.specs.declared.views.Role.TheVariants.{Caller as IsCaller, Root as IsRoot};
ghost use Rattle.claim_rule.specs.declared.views.Lead.{Lead};
ghost use Rattle.claim_rule.specs.Rule.{dealing, dealt, relay, told, taken_in};
ghost use Rattle.claim_rule.specs.Plays.{heard_all, numbered, agreed};

use claim_rule::{Agrees, Assigned, Deals, Hears, MADE, Numbers, Relays, TakesIn, Tells};
use heap_model::Stands;
use step_parts::{Seating, Table};

// Counts one more caller.
pub(crate) fn count<T: Stands>(top: &Table<T>, place: &mut Seating<T>)
    requires table { (place.old.table_id ≡ top.now.table_id) × (0 < top.now.table_id.words) }
    requires root { (q : Lead) × (place.old.me.0.role ≡ IsRoot q) × (place.old.me.0.opening ≡ top.now.key) × (q.counted < top.now.key.limits.callers) }
    ensures table { place.new.table_id ≡ place.old.table_id }
    ensures told { (n : ℕ) × numbered (step top.now.table_id.slots 0 1 0 none) place.old.me n place.new.me }
{
    top.fetch_add::<Numbers>(place, MADE, 1);
}

// The seat of the next caller, which is made with the slot and the stream of A.
pub(crate) fn deal<T: Stands, A: Assigned>(
    top: &Table<T>,
    place: &mut Seating<T>,
    _slot: u32,
    _stream: u64,
) -> Seating<T>
    requires table { (place.old.table_id ≡ top.now.table_id) × (0 < top.now.table_id.words) }
    requires root { (q : Lead) × (place.old.me.0.role ≡ IsRoot q) × (length q.roll < q.counted) × (A.assignment.slot < top.now.key.limits.slots) }
    ensures root { (place.new.table_id ≡ place.old.table_id) × (place.new.me ≡ (dealing A.assignment place.old.me.0, place.old.me.1)) }
    ensures seat { (result.table_id ≡ place.old.table_id) × (result.me ≡ (dealt A.assignment place.old.me.0, [])) }
{
    top.split_seat::<Deals<A>>(place)
}

pub(crate) fn relayed<T: Stands>(top: &Table<T>, place: &mut Seating<T>) -> Seating<T>
    requires table { (place.old.table_id ≡ top.now.table_id) × (0 < top.now.table_id.words) }
    ensures same { (place.new.table_id ≡ place.old.table_id) × (place.new.me ≡ (place.old.me.0, place.old.me.1)) }
    ensures seat { (result.table_id ≡ place.old.table_id) × (result.me ≡ (relay place.old.me.0, [])) }
{
    top.split_seat::<Relays>(place)
}

pub(crate) fn tell<T: Stands>(top: &Table<T>, place: &mut Seating<T>, other: Seating<T>)
    requires table { (place.old.table_id ≡ top.now.table_id) × (other.table_id ≡ top.now.table_id) × (other.me.1 ≡ []) × (0 < top.now.table_id.words) }
    requires caller { (n : ℕ) × (place.old.me.0.role ≡ IsCaller n) }
    ensures { (place.new.table_id ≡ place.old.table_id) × (place.new.me ≡ (told place.old.me.0 other.me.0, place.old.me.1)) }
{
    top.join_seat::<Tells>(place, other);
}

pub(crate) fn agree<T: Stands>(top: &Table<T>, place: &mut Seating<T>)
    requires table { (place.old.table_id ≡ top.now.table_id) × (0 < top.now.table_id.words) }
    requires caller { (n : ℕ) × (place.old.me.0.role ≡ IsCaller n) }
    ensures table { place.new.table_id ≡ place.old.table_id }
    ensures told { (n : ℕ) × agreed (step top.now.table_id.slots 0 0 0 none) place.old.me n place.new.me }
{
    top.load::<Agrees>(place, MADE);
}

pub(crate) fn take_in<T: Stands>(top: &Table<T>, place: &mut Seating<T>, other: Seating<T>)
    requires table { (place.old.table_id ≡ top.now.table_id) × (other.table_id ≡ top.now.table_id) × (other.me.1 ≡ []) × (0 < top.now.table_id.words) }
    requires root { (q : Lead) × (place.old.me.0.role ≡ IsRoot q) × (q.last ≡ 0) }
    requires caller { (n : ℕ) × (other.me.0.role ≡ IsCaller n) }
    ensures { (place.new.table_id ≡ place.old.table_id) × (place.new.me ≡ (taken_in place.old.me.0 other.me.0, place.old.me.1)) }
{
    top.join_seat::<TakesIn>(place, other);
}

pub(crate) fn hear<T: Stands>(top: &Table<T>, place: &mut Seating<T>)
    requires table { (place.old.table_id ≡ top.now.table_id) × (0 < top.now.table_id.words) }
    requires root { (q : Lead) × (place.old.me.0.role ≡ IsRoot q) }
    ensures table { place.new.table_id ≡ place.old.table_id }
    ensures told { (n : ℕ) × heard_all (step top.now.table_id.slots 0 0 0 none) place.old.me n place.new.me }
{
    top.load::<Hears>(place, MADE);
}
