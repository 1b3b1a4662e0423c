// What a client does with an item and its records: the set of a close validated, decoded, and written back into all slots of the desk; the
// item read from a desk so filled; and all N records of an item made. The sources lie in their slots and stay there, so that every other
// fragment can be made from them in place, by way of one scratch fragment.
#![tactic(auto)]

ghost use Rattle.std.specs.Prelude.{◌≡◌, true, ◌++◌, ◌+◌, ◌*◌, ◌≤◌, ◌<◌, length};
ghost use Rattle.octets.specs.Bytes.{part, put};
ghost use Rattle.terms.specs.Terms.{plan_ok, record_length, slots_of, slot_at};
ghost use Rattle.fragments.specs.Fragments.{Sources};
ghost use Rattle.fragments.specs.Inside.{points_of};
ghost use Rattle.rounds.specs.Rounds.{told};
ghost use Rattle.recover.specs.Inside.{Usable};
ghost use Rattle.recover.specs.Recover.{validates, slot_filled, refilled, sound, decoded, collected, repaired};
ghost use Rattle.recover.specs.Records.{stamp_for, records_for};

use fragments::Basis;
use rounds::Close;
use terms::{Accepted, Clients, Slots, Time, Timestamp};

// Validation, each fragment computed into scratch and hashed once: its hash is its entry of the cross checksum in slot a.
fn valid(p: Accepted, desk: &[u8], b: Basis, a: usize, scratch: &mut [u8]) -> bool
    requires { (Sources desk.now (slots_of p.plan) (points_of b)) × (length scratch.old ≡ p.plan.f) × (slot_at (slots_of p.plan) a + (slots_of p.plan).head ≤ length desk.now) }
    ensures { result ≡ validates p.plan desk.now (points_of b) a }
{
    let slots = terms::slots_of(p);
    let at = a * slots.size + 40;
    for i in 0..slots.n {
        fragments::regenerate(desk, slots, b, i as u8, scratch);
        if !record::entry_ok(p.plan, i, scratch, desk, at + 32 * i) {
            return false;
        }
    }
    true
}

// Slot k gets the head of slot a, and a fragment.
fn write_slot(desk: &mut [u8], slots: Slots, a: usize, k: usize, fragment: &[u8])
    requires { (length fragment.now ≡ slots.fragment) × (slots.size ≡ slots.head + slots.fragment)
        × (slot_at slots k + slots.size ≤ length desk.old) × (slot_at slots a + slots.size ≤ length desk.old) }
    ensures { desk.new ≡ put desk.old (slot_at slots k) (part desk.old (slot_at slots a) slots.head ++ fragment.now) }
{
    let h = slots.head;
    let r = slots.size;
    let f = slots.fragment;
    let at = k * r;
    octets::copy(fragment, 0, f, desk, at + h);
    octets::within(desk, a * r, h, at);
}

// Where a set lies: the slots of the desk, and the one of its lead.
#[derive(Clone, Copy)]
pub struct Led {
    pub slots: Slots,
    pub lead: usize,
}

// Slot k gets its record of a set; the slot of a source stays.
#[tactic(auto, using(crate::proofs::Laws::filled_stays, crate::proofs::Laws::filled_writes))]
fn fill_slot(desk: &mut [u8], set: Led, b: Basis, k: usize, scratch: &mut [u8])
    requires { (Sources desk.old set.slots (points_of b)) × (length scratch.old ≡ set.slots.fragment)
        × (set.slots.size ≡ set.slots.head + set.slots.fragment) × (k < 16)
        × (slot_at set.slots k + set.slots.size ≤ length desk.old) × (slot_at set.slots set.lead + set.slots.size ≤ length desk.old) }
    ensures { desk.new ≡ slot_filled desk.old set.slots (points_of b) set.lead k }
{
    let slots = set.slots;
    let a = set.lead;
    if b.has(k as u8) {
        return;
    }
    fragments::regenerate(&desk[..], slots, b, k as u8, scratch);
    write_slot(desk, slots, a, k, scratch);
}

// All slots, in place.
fn refill(desk: &mut [u8], slots: Slots, b: Basis, a: usize, scratch: &mut [u8])
    requires { (Sources desk.old slots (points_of b)) × (length scratch.old ≡ slots.fragment) × (slots.size ≡ slots.head + slots.fragment) × (slots.n ≤ 16)
        × (slots.n * slots.size ≤ length desk.old) × (a < slots.n) }
    ensures { desk.new ≡ refilled desk.old slots (points_of b) a slots.n }
{
    let set = Led { slots, lead: a };
    for k in 0..slots.n {
        fill_slot(desk, set, b, k, scratch);
    }
}

// Whether the set of slot a validates, with room of its own for one fragment.
fn validated(p: Accepted, desk: &[u8], qs: &[u8], a: usize) -> bool
    requires { (Sources desk.now (slots_of p.plan) qs.now) × (slot_at (slots_of p.plan) a + (slots_of p.plan).head ≤ length desk.now) × (length qs.now ≤ 16) }
    ensures { result ≡ validates p.plan desk.now qs.now a }
{
    let f = p.plan.f as usize;
    let b = fragments::basis_of(qs);
    let mut scratch = [0u8; 1024];
    valid(p, desk, b, a, &mut scratch[..f])
}

// The desk filled with all records of the set of slot a, with room of its own for one fragment. Never inlined: put into its caller, that room would lie
// under validation too, which comes before it and is the deepest there is (docs/HOSTS.md, "Stack").
#[inline(never)]
fn mend(desk: &mut [u8], slots: Slots, qs: &[u8], a: usize)
    requires { (Sources desk.old slots qs.now) × (slots.fragment ≤ 1024) × (slots.size ≡ slots.head + slots.fragment) × (slots.n ≤ 16)
        × (slots.n * slots.size ≤ length desk.old) × (a < slots.n) × (length qs.now ≤ 16) }
    ensures { desk.new ≡ refilled desk.old slots qs.now a slots.n }
{
    let f = slots.fragment;
    let b = fragments::basis_of(qs);
    let mut scratch = [0u8; 1024];
    refill(desk, slots, b, a, &mut scratch[..f]);
}

// Validation: the clients of the plan are trusted, or the cross checksum agrees.
pub fn validate(p: Accepted, c: Close, a: usize, desk: &[u8]) -> bool
    requires { Usable p.plan c a desk.now }
    ensures { result ≡ sound p.plan (told c) a desk.now }
{
    let k = p.plan.clients;
    match k {
        Clients::Crash => true,
        Clients::Byzantine => {
            let m = p.plan.m as usize;
            let set = c.set;
            let nodes = set.nodes;
            validated(p, desk, &nodes[..m], a)
        }
    }
}

// The item, from the m lowest-numbered of the set.
pub fn decode(p: Accepted, c: Close, a: usize, desk: &[u8], item: &mut [u8])
    requires { (Usable p.plan c a desk.now) × (length item.old ≡ p.plan.m * p.plan.f) }
    ensures { item.new ≡ decoded p.plan (told c) desk.now item.old }
{
    let slots = terms::slots_of(p);
    let m = p.plan.m as usize;
    let set = c.set;
    let nodes = set.nodes;
    fragments::decode(desk, slots, &nodes[..m], m, item);
}

// All N records of the set, in place.
pub fn repair(p: Accepted, c: Close, a: usize, desk: &mut [u8])
    requires { Usable p.plan c a desk.old }
    ensures { desk.new ≡ repaired p.plan (told c) a desk.old }
{
    let slots = terms::slots_of(p);
    let m = p.plan.m as usize;
    let set = c.set;
    let nodes = set.nodes;
    mend(desk, slots, &nodes[..m], a);
}

// The item from the desk's first m slots, after a repair round.
pub fn collect(p: Accepted, desk: &[u8], item: &mut [u8])
    requires { (length desk.now ≡ p.plan.n * record_length p.plan) × (length item.old ≡ p.plan.m * p.plan.f) }
    ensures { item.new ≡ collected p.plan desk.now item.old }
{
    let slots = terms::slots_of(p);
    fragments::collect(desk, slots, p.plan.m as usize, item);
}

// All N records of an item at a time, into the desk, by way of a cross checksum; their timestamp.
// A longer room than 512 bytes may be lent, here and in session: an array of 512 would ask more.
pub fn write_records(
    p: Accepted,
    at: Time,
    item: &[u8],
    desk: &mut [u8],
    cross: &mut [u8],
) -> Timestamp
    requires { (length item.now ≡ p.plan.m * p.plan.f) × (length desk.old ≡ p.plan.n * record_length p.plan) × (512 ≤ length cross.old) }
    ensures { (result ≡ stamp_for p.plan at.0 item.now) × (desk.new ≡ records_for p.plan at.0 item.now) }
{
    let slots = terms::slots_of(p);
    fragments::encode(item, p.plan.m as usize, desk, slots);
    record::cross(p, &desk[..], cross, 0);
    let t = record::stamp_of(p, at, &cross[..], 0);
    record::fill(p, t, &cross[..], 0, desk);
    t
}
