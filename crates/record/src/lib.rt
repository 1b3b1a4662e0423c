// Records where they lie, and all N of them in a desk. Document 01, "Records, books, frames", "Fragments". A fragment is hashed inside its
// record: a part of the lent slice that starts in the record's middle is handed on to the hash, and nothing is copied.
#![tactic(auto)]

ghost use Rattle.std.specs.Prelude.{◌≡◌, true, [], ℕ, ◌+◌, ◌-◌, ◌*◌, ◌≤◌, ◌<◌, length, drop};
ghost use Rattle.octets.specs.Bytes.{part, put, be, alike};
ghost use Rattle.sha256.specs.Sha256.{sha256};
ghost use Rattle.terms.specs.Terms.{plan_ok, record_length, fragment_at};
ghost use Rattle.terms.specs.Stamp.{stamp_number, stamp_at};
ghost use Rattle.record.specs.Record.{stamp_of, cross_of, prefix_of, fragment_hash, hashes_ok, time_zero};
ghost use Rattle.record.specs.Desk.{slot_of, fragment_in, cross_made, desk_of, stamp_made};

use lanes::{Batch, Messages, Rows};
use terms::{Accepted, Hash, Plan, Slots, Time, Timestamp};

// What is hashed before the fragments of nodes 0 to 15: for each the first `size` of 16 bytes.
#[derive(Clone, Copy)]
pub struct PrefixRows {
    pub bytes: [u8; 256],
    pub size: usize,
}

// What is hashed before the fragment of each node: nothing, under every plan.
pub fn prefixes(p: Plan) -> PrefixRows
    ensures { (result.size ≤ 16) × ((k : ℕ) → k < 16 → part result.bytes (16 * k) result.size ≡ prefix_of p k) }
{
    PrefixRows {
        bytes: [0; 256],
        size: 0,
    }
}

// Whether the entry at `at` is the hash of a node's fragment.
pub fn entry_ok(p: Plan, node: usize, fragment: &[u8], s: &[u8], at: usize) -> bool
    requires { (length fragment.now ≤ 1024) × (at + 32 ≤ length s.now) × (node < 16) }
    ensures { result ≡ alike (fragment_hash p node fragment.now) (part s.now at 32) }
{
    let x = prefixes(p);
    let from = 16 * node;
    let end = from + x.size;
    sha256::matches(&x.bytes[from..end], fragment, s, at)
}

// Whether the verifier of the record at `at` is the hash of its cross checksum, where the two and the time are `head` bytes.
fn verifier_ok(s: &[u8], at: usize, head: usize) -> bool
    requires { (40 ≤ head) × (head ≤ 552) × (at + head ≤ length s.now) }
    ensures { result ≡ alike (sha256 (part s.now (at + 40) (head - 40))) (part s.now (at + 8) 32) }
{
    let from = at + 40;
    let end = at + head;
    let d = sha256::digest(&s[from..end]);
    octets::same(&d, 0, s, at + 8, 32)
}

// Refusal 6: the two hash checks, for a node, of the record at `at`.
pub fn hashes_ok(p: Accepted, node: u64, s: &[u8], at: usize) -> bool
    requires { (at + record_length p.plan ≤ length s.now) × (node < p.plan.n) }
    ensures { result ≡ hashes_ok p.plan node (part s.now at (record_length p.plan)) }
{
    let slots = terms::slots_of(p);
    let head = slots.head;
    let from = at + head;
    let end = at + slots.size;
    let cross = at + 40;
    let entry = cross + 32 * (node as usize);
    if !verifier_ok(s, at, head) {
        return false;
    }
    entry_ok(p.plan, node as usize, &s[from..end], s, entry)
}

// Refusal 5: whether the time at `at`, where a record or a bound starts, is 0.
pub fn time_zero(s: &[u8], at: usize) -> bool
    requires { at + 8 ≤ length s.now }
    ensures { result ≡ time_zero (drop at s.now) }
{
    octets::get(s, at, 8) == 0
}

// The cross checksum of the N fragments in the slots of a desk, into out at `at`.
pub fn cross(p: Accepted, desk: &[u8], out: &mut [u8], at: usize)
    requires { (length desk.now ≡ p.plan.n * record_length p.plan) × (at + 32 * p.plan.n ≤ length out.old) }
    ensures { out.new ≡ put out.old at (cross_made p.plan (fragment_in p.plan desk.now) p.plan.n) }
{
    let slots = terms::slots_of(p);
    let x = prefixes(p.plan);
    let batch = Batch {
        heads: Rows {
            first: 0,
            stride: 16,
            size: x.size,
        },
        bodies: Rows {
            first: slots.head,
            stride: slots.size,
            size: slots.fragment,
        },
        n: slots.n,
    };
    let all = Messages {
        heads: &x.bytes,
        bodies: desk,
        batch,
    };
    lanes::digests(&all, out, at, 32);
}

// Writing: the timestamp of a time and the cross checksum at `at`, whose hash is its verifier.
pub fn stamp_of(p: Accepted, time: Time, cross: &[u8], at: usize) -> Timestamp
    requires { at + 32 * p.plan.n ≤ length cross.now }
    ensures { (result ≡ stamp_at (stamp_made time.0 (part cross.now at (32 * p.plan.n))) 0)
        × (be 40 (stamp_number result) ≡ stamp_made time.0 (part cross.now at (32 * p.plan.n))) }
{
    let end = at + 32 * (p.plan.n as usize);
    let d = sha256::digest(&cross[at..end]);
    let a = octets::get(&d, 0, 8);
    let b = octets::get(&d, 8, 8);
    let c = octets::get(&d, 16, 8);
    let e = octets::get(&d, 24, 8);
    Timestamp {
        time,
        verifier: Hash(a, b, c, e),
    }
}

// Each slot gets the head of slot a; its fragment stays.
// What holds of the slots of a plan stands in the clauses, here and in recover: a strip (`crosscheck`) is of `Slots` too, and has a size that is not the sum
// of its parts, and the runs of primitives may be any number.
fn heads(desk: &mut [u8], slots: Slots, a: usize)
    requires { (slots.size ≡ slots.head + slots.fragment) × (length desk.old ≡ slots.n * slots.size) × (a < slots.n) }
    ensures { desk.new ≡ desk_of (part desk.old (a * slots.size) slots.head) [] (λ k. part desk.old (fragment_at slots k) slots.fragment) slots.n }
{
    for k in 0..slots.n {
        octets::within(desk, a * slots.size, slots.head, k * slots.size);
    }
}

// Repair: every slot gets the timestamp and the cross checksum of slot a, beside the fragment that it holds.
// Here and in the crates above the length of a desk or an item stands in the clauses: lent to be written, a type of it and the plan would have to promise
// in each contract that its plan stays, a clause for a clause.
pub fn spread(p: Accepted, desk: &mut [u8], a: usize)
    requires { (length desk.old ≡ p.plan.n * record_length p.plan) × (a < p.plan.n) }
    ensures { desk.new ≡ desk_of (stamp_of (slot_of p.plan desk.old a)) (cross_of p.plan (slot_of p.plan desk.old a)) (fragment_in p.plan desk.old) p.plan.n }
{
    let slots = terms::slots_of(p);
    heads(desk, slots, a);
}

// Writing: every slot gets this timestamp and the cross checksum at `at` of another buffer, beside the fragment that it holds.
pub fn fill(p: Accepted, t: Timestamp, cross: &[u8], at: usize, desk: &mut [u8])
    requires { (length desk.old ≡ p.plan.n * record_length p.plan) × (at + 32 * p.plan.n ≤ length cross.now) }
    ensures { desk.new ≡ desk_of (be 40 (stamp_number t)) (part cross.now at (32 * p.plan.n)) (fragment_in p.plan desk.old) p.plan.n }
{
    let n = p.plan.n as usize;
    terms::put_stamp(desk, 0, t);
    octets::copy(cross, at, 32 * n, desk, 40);
    spread(p, desk, 0);
}
