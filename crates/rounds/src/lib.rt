// What a round decides, on an array of marks and the slots of a desk: document 01, "The client". Node i lies in slot i; a slot starts
// with its head, the timestamp and the cross checksum.
#![tactic(auto)]

ghost use Rattle.std.specs.Prelude.{◌≡◌, true, ◌+◌, ◌*◌, ◌≤◌, ◌<◌, length};
ghost use Rattle.octets.specs.Bytes.{part, num};
ghost use Rattle.rounds.specs.Rounds.{bit_of, heard_at, heard_count, ahead_of, lead_of, LeadIn, joins_of, set_of, add_of, listed, told, close_of, rest_unheard, none_first, under_of, slot_fits, slots_fit};

use terms::{Member, Slots, Thresholds, Timestamp, Verdict};

// A node's mark. Later requests add to it.
#[derive(Clone, Copy, PartialEq, Eq)]
pub enum Heard {
    Unheard,
    First,
    Record,
}

// Node numbers, rising: the first `size` of the array. A value that is copied, of fixed memory: a Vec lies in a heap.
#[derive(Clone, Copy, PartialEq, Eq)]
pub struct Set {
    pub nodes: [u8; 16],
    pub size: usize,
}

// The close of a read round: the candidate, its timestamp, its set and what that decides. For the first triple the timestamp is zero,
// the set empty and the verdict Complete, since the first triple always has COMPLETE replies.
#[derive(Clone, Copy, PartialEq, Eq)]
pub struct Close {
    // The node whose record it is: the lowest-numbered that bears the greatest timestamp among those marked record. None where no node is
    // marked record: the first triple.
    pub lead: Option<usize>,
    pub stamp: Timestamp,
    pub set: Set,
    pub verdict: Verdict,
}

// 1 where a node is heard.
pub fn bit(h: Heard) -> u64
    ensures { (result ≡ bit_of h) × (result ≤ 1) }
{
    (h != Heard::Unheard) as u64
}

// Whether node i is heard.
// The number of a node, below 16 or below N here and below, comes from a `for` or from the ladder of a call: a type for it would be opened at each index.
pub fn has_heard(marks: [Heard; 16], i: usize) -> bool
    requires { i < 16 }
    ensures { result ≡ heard_at marks i }
{
    bit(marks[i]) == 1
}

// How many of the marks are heard. A sum over all sixteen, which compiles to one pass of vectors; a chain that filters and counts tests each by itself.
pub fn count(marks: [Heard; 16]) -> u64
    ensures { (result ≡ heard_count marks) × (result ≤ 16) }
{
    let mut n = 0;
    for i in 0..16 {
        n += bit(marks[i]);
    }
    n
}

// A desk that is lent, with the slots of the records in it: it has room for all, and each begins with a timestamp.
#[derive(Clone, Copy)]
struct Desk<'a> {
    bytes: &'a [u8],
    slots: Slots,
    ghost holds: { slots.n * slots.size ≤ length bytes.now },
    ghost few: { slots.n ≤ 16 },
    ghost stamped: { 40 ≤ slots.size },
}

impl Desk<'_> {
    // The record of node i against the best so far: only a greater timestamp takes its place.
    fn ahead(&self, best: Option<usize>, i: usize) -> Option<usize>
        requires { (i < self.now.slots.n) × LeadIn best self.now.slots.n }
        ensures { result ≡ ahead_of self.now.bytes.now self.now.slots best i }
    {
        let r = self.slots.size;
        match best {
            Some(b) if !octets::less(self.bytes, b * r, self.bytes, i * r, 40) => best,
            _ => Some(i),
        }
    }

    // The candidate: the first triple (None) where no node is marked record, else the record of the lowest-numbered node that bears the
    // greatest timestamp.
    fn leading(&self, marks: [Heard; 16]) -> Option<usize>
        ensures { result ≡ lead_of marks self.now.bytes.now self.now.slots self.now.slots.n }
    {
        let mut best = None;
        for i in 0..self.slots.n {
            if marks[i] == Heard::Record {
                best = self.ahead(best, i);
            }
        }
        best
    }

    // Whether node i is of the set: a record, with the timestamp and the cross checksum that node a has.
    fn joins(&self, a: usize, i: usize, h: Heard) -> bool
        requires { (i < self.now.slots.n) × (a < self.now.slots.n) × (self.now.slots.head ≤ self.now.slots.size) }
        ensures { result ≡ joins_of self.now.bytes.now self.now.slots a i h }
    {
        let r = self.slots.size;
        h == Heard::Record && octets::same(self.bytes, i * r, self.bytes, a * r, self.slots.head)
    }

    // The nodes of the candidate's set, rising.
    fn members(&self, marks: [Heard; 16], a: usize) -> Set
        requires { (a < self.now.slots.n) × (self.now.slots.head ≤ self.now.slots.size) }
        ensures { (listed result ≡ set_of marks self.now.bytes.now self.now.slots a self.now.slots.n) × (result.size ≤ self.now.slots.n) }
    {
        let mut set = NO_NODES;
        for i in 0..self.slots.n {
            if self.joins(a, i, marks[i]) {
                set = set.with(i);
            }
        }
        set
    }

    // Whether slot i, where it is marked record, holds a time of 1 or more and a timestamp below the bound.
    fn fits(&self, b: Option<Timestamp>, i: usize, h: Heard) -> bool
        requires { i < self.now.slots.n }
        ensures { result ≡ slot_fits self.now.bytes.now self.now.slots b i h }
    {
        let at = i * self.slots.size;
        h != Heard::Record || octets::get(self.bytes, at, 8) >= 1 && under(b, self.bytes, at)
    }
}

const NO_NODES: Set = Set {
    nodes: [0; 16],
    size: 0,
};

impl Set {
    // The set with node i.
    fn with(mut self, i: usize) -> Set
        requires { (self.size < 16) × (i < 16) }
        ensures { result ≡ add_of self i true }
    {
        self.nodes[self.size] = i as u8;
        self.size += 1;
        self
    }
}

// The close of a read round, as one value.
pub fn closing(
    marks: [Heard; 16],
    desk: &[u8],
    slots: Slots,
    member: Member,
    t: Thresholds,
) -> Close
    requires { (slots.n * slots.size ≤ length desk.now) × (40 ≤ slots.head) × (slots.head ≤ slots.size) × (slots.n ≤ 16) }
    ensures { (told result ≡ close_of marks desk.now slots member t) × (length result.set.nodes ≡ 16) × (result.set.size ≤ slots.n) }
{
    let d = Desk { bytes: desk, slots };
    let lead = d.leading(marks);
    match lead {
        None => Close {
            lead,
            stamp: terms::zero_stamp(),
            set: NO_NODES,
            verdict: Verdict::Complete,
        },
        Some(a) => {
            let set = d.members(marks, a);
            Close {
                lead,
                stamp: terms::stamp_at(desk, a * slots.size),
                set,
                verdict: terms::decide(member, t.complete, t.incomplete, set.size as u64),
            }
        }
    }
}

// ---- the ranges of marks and slots: refusal 9

// Whether the marks from n on are unheard.
pub fn rest_unheard(marks: [Heard; 16], n: usize) -> bool
    requires { n ≤ 16 }
    ensures { result ≡ rest_unheard marks n }
{
    marks[n..].iter().all(|h| *h == Heard::Unheard)
}

// Whether no mark is "first triple".
pub fn none_first(marks: [Heard; 16]) -> bool
    ensures { result ≡ none_first marks }
{
    marks.iter().all(|h| *h != Heard::First)
}

// Whether the timestamp at `at` is strictly below the bound of a read round: none in the first, else the last candidate's timestamp.
pub fn under(b: Option<Timestamp>, s: &[u8], at: usize) -> bool
    requires { at + 40 ≤ length s.now }
    ensures { result ≡ under_of b (num (part s.now at 40)) }
{
    match b {
        None => true,
        Some(u) => terms::stamp_at(s, at).less(u),
    }
}

// Whether each slot marked record fits.
pub fn slots_fit(marks: [Heard; 16], desk: &[u8], slots: Slots, b: Option<Timestamp>) -> bool
    requires { (slots.n * slots.size ≤ length desk.now) × (40 ≤ slots.size) × (slots.n ≤ 16) }
    ensures { result ≡ slots_fit marks desk.now slots b slots.n }
{
    let d = Desk { bytes: desk, slots };
    (0..slots.n).all(|i| d.fits(b, i, marks[i]))
}
