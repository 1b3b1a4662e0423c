// A cross checksum compared with the fragments that it should be of. Document 01, "The client", validation: regenerate all N fragments and
// compare. Up to eight fragments are made and hashed side by side, 192 bytes of each at a time, so that the stack holds eight rows of 192 bytes
// and not eight fragments; each is hashed once.
#![tactic(auto)]

ghost use Rattle.std.specs.Prelude.{◌≡◌, true, ℕ, ◌+◌, ◌-◌, ◌*◌, ◌/◌, ◌^◌, ◌≤◌, ◌<◌, length};
ghost use Rattle.octets.specs.Bytes.{part, alike};
ghost use Rattle.sha256.specs.Sha256.{after, ended, bytes_of};
ghost use Rattle.lanes.specs.Lanes.{lane_of, EachLane};
ghost use Rattle.terms.specs.Terms.{plan_ok, slots_of};
ghost use Rattle.fragments.specs.Fragments.{Sources, regenerated};
ghost use Rattle.fragments.specs.Inside.{strip_of, points_of};
ghost use Rattle.record.specs.Record.{fragment_hash};
ghost use Rattle.record.specs.Desk.{row, cross_made};
ghost use Rattle.crosscheck.specs.Inside.{entries_of, message_of_entry, head_in, batch_in, Rowed, Fits, Taken, LastFrom};

pub mod group;

use fragments::Basis;
pub use group::Group;
use lanes::{Batch, Messages, Rows};
use terms::{Accepted, Plan, Slots};

// A stretch of what is hashed for an entry, which is `head` bytes and then the fragment: where it begins, how long it is, and how many blocks it
// gives.
#[derive(Clone, Copy)]
pub struct Stretch {
    pub head: usize,
    pub from: usize,
    pub size: usize,
    pub blocks: usize,
}

// The bytes of a stretch that stand before the fragment: all such, or none.
fn head_in(y: Stretch) -> usize
    ensures { result ≡ head_in y }
{
    if y.from == 0 { y.head } else { 0 }
}

// What a stretch has of every fragment, where k bytes of it stand before the fragment.
fn strip(slots: Slots, y: Stretch, k: usize) -> Slots
    requires { (k ≤ y.size) × (y.head ≤ y.from + k) × (slots.head + (y.from + k) < 2 ^ 64) }
    ensures { result ≡ strip_of slots (y.from + k - y.head) (y.size - k) }
{
    Slots {
        n: slots.n,
        head: slots.head + (y.from + k - y.head),
        fragment: y.size - k,
        size: slots.size,
    }
}

// The strip t of each fragment of a group, in rows of 192 bytes.
fn rows(t: Slots, g: Group, out: &mut [u8; 1536])
    requires { (Sources g.desk.now t (points_of g.basis)) × (t.fragment ≤ 192) }
    ensures { Rowed g.entry.desk.now t (points_of g.entry.basis) g.entry.first g.entry.n out.new }
{
    for l in 0..g.n {
        let i = g.first + l;
        let a = 192 * l;
        let e = a + t.fragment;
        fragments::regenerate(g.desk, t, g.basis, i as u8, &mut out[a..e]);
    }
}

// A stretch of what is hashed for the entries of a group: k bytes that stand before each fragment, and n bytes of it in its row.
fn batch(g: Group, k: usize, n: usize) -> Batch
    ensures { result ≡ batch_in g.entry k n }
{
    let heads = Rows {
        first: 16 * g.first,
        stride: 16,
        size: k,
    };
    let bodies = Rows {
        first: 0,
        stride: 192,
        size: n,
    };
    Batch {
        heads,
        bodies,
        n: g.n,
    }
}

// A stretch of every fragment of a group, regenerated into rows and taken into the hashes.
fn take_in(h: &mut [u32; 64], heads: &[u8; 256], g: Group, y: Stretch, scratch: &mut [u8; 1536])
    requires { Fits g y }
    ensures { EachLane (λ l. after (lane_of h.old l) y.blocks (ended y.from (part (message_of_entry heads.now y.head g.entry (g.entry.first + l)) y.from y.size)))
        g.entry.n h.old h.new }
{
    let k = head_in(y);
    let t = strip(g.slots, y, k);
    rows(t, g, scratch);
    let m = Messages {
        heads,
        bodies: &scratch[..],
        batch: batch(g, k, t.fragment),
    };
    lanes::absorb(h, &m, y.from, y.blocks);
}

// All stretches of 192 bytes but the last, which may be shorter; where the last begins.
fn whole_stretches(
    h: &mut [u32; 64],
    heads: &[u8; 256],
    head: usize,
    g: Group,
    scratch: &mut [u8; 1536],
) -> usize
    requires { (head ≤ 16) × (Taken heads.now head g 0 h.old) }
    ensures { (LastFrom (head + g.entry.slots.fragment) result) × (Taken heads.now head g.entry (result / 64) h.new) }
{
    let whole = (head + g.slots.fragment - 1) / 192;
    for k in 0..whole {
        let y = Stretch {
            head,
            from: 192 * k,
            size: 192,
            blocks: 3,
        };
        take_in(h, heads, g, y, scratch);
    }
    192 * whole
}

// The hashes of the fragments of a group, stretch by stretch: no more than 192 bytes of each are at hand.
fn hash_all(p: Plan, g: Group, h: &mut [u32; 64], scratch: &mut [u8; 1536])
    ensures { (l : ℕ) → l < g.entry.n
        → bytes_of (lane_of h.new l) ≡ fragment_hash p (g.entry.first + l) (regenerated g.entry.desk.now g.entry.slots (points_of g.entry.basis) (g.entry.first + l)) }
{
    let x = record::prefixes(p);
    let heads = x.bytes;
    lanes::start(h, g.n);
    let from = whole_stretches(h, &heads, x.size, g, scratch);
    let left = x.size + g.slots.fragment - from;
    let y = Stretch {
        head: x.size,
        from,
        size: left,
        blocks: (left + 72) / 64,
    };
    take_in(h, &heads, g, y, scratch);
}

// Whether the hashes of the first n lanes are the entries from `at` on.
fn are_entries(h: &[u32; 64], n: usize, s: &[u8], at: usize) -> bool
    requires { (n ≤ 8) × (at + 32 * n ≤ length s.now) }
    ensures { result ≡ alike (row (λ l. bytes_of (lane_of h.now l)) n) (part s.now at (32 * n)) }
{
    for l in 0..n {
        let d = lanes::hash_of(h, l);
        if !octets::same(&d, 0, s, at + 32 * l, 32) {
            return false;
        }
    }
    true
}

// Whether the hashes of a group, made side by side, are their entries of the cross checksum at `at`.
fn together(p: Plan, g: Group, at: usize, scratch: &mut [u8; 1536]) -> bool
    requires { at + 32 * (g.first + g.n) ≤ length g.desk.now }
    ensures { result ≡ alike (entries_of p g.entry) (part g.entry.desk.now (at + 32 * g.entry.first) (32 * g.entry.n)) }
{
    let mut h = [0u32; 64];
    hash_all(p, g, &mut h, scratch);
    are_entries(&h, g.n, g.desk, at + 32 * g.first)
}

// The same of a group of one.
fn alone(p: Plan, g: Group, at: usize, scratch: &mut [u8; 1536]) -> bool
    requires { (g.n ≡ 1) × (at + 32 * (g.first + g.n) ≤ length g.desk.now) }
    ensures { result ≡ alike (entries_of p g.entry) (part g.entry.desk.now (at + 32 * g.entry.first) (32 * g.entry.n)) }
{
    let f = g.slots.fragment;
    let i = g.first;
    fragments::regenerate(g.desk, g.slots, g.basis, i as u8, &mut scratch[..f]);
    record::entry_ok(p, i, &scratch[..f], g.desk, at + 32 * i)
}

// The same of a group that may be one fragment.
fn some_agree(p: Plan, g: Group, at: usize, scratch: &mut [u8; 1536]) -> bool
    requires { at + 32 * (g.first + g.n) ≤ length g.desk.now }
    ensures { result ≡ alike (entries_of p g.entry) (part g.entry.desk.now (at + 32 * g.entry.first) (32 * g.entry.n)) }
{
    if g.n == 1 {
        alone(p, g, at, scratch)
    } else {
        together(p, g, at, scratch)
    }
}

// All entries, some at a time. A `while`: each turn takes as many as `at_once` says.
fn all_agree(p: Accepted, desk: &[u8], b: Basis, at: usize, scratch: &mut [u8; 1536]) -> bool
    requires { (Sources desk.now (slots_of p.plan) (points_of b)) × (at + 32 * p.plan.n ≤ length desk.now) }
    ensures { result ≡ alike (cross_made p.plan (regenerated desk.now (slots_of p.plan) (points_of b)) p.plan.n) (part desk.now at (32 * p.plan.n)) }
{
    let slots = terms::slots_of(p);
    let n = slots.n;
    let mut i: usize = 0;
    while i < n {
        let g = Group {
            desk,
            slots,
            basis: b,
            first: i,
            n: lanes::at_once(n - i),
        };
        if !some_agree(p.plan, g, at, scratch) {
            return false;
        }
        i += g.n;
    }
    true
}

// Whether the cross checksum at `at` of a desk is that of the N fragments that are regenerated from the basis.
pub fn agrees(p: Accepted, desk: &[u8], b: Basis, at: usize) -> bool
    requires { (Sources desk.now (slots_of p.plan) (points_of b)) × (at + 32 * p.plan.n ≤ length desk.now) }
    ensures { result ≡ alike (cross_made p.plan (regenerated desk.now (slots_of p.plan) (points_of b)) p.plan.n) (part desk.now at (32 * p.plan.n)) }
{
    let mut scratch = [0u8; 1536];
    all_agree(p, desk, b, at, &mut scratch)
}
