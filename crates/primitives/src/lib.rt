// The hash and the fragment code for a host's tests and timings: numbers and byte slices only, and no `requires`. Each call answers 0,
// or 2 where what it is lent does not fit together, and then changes nothing.
#![tactic(auto)]

ghost use Rattle.std.specs.Prelude.{◌++◌, ◌≡◌, ◌+◌, ◌<◌, ◌≤◌, length, get_or, drop};
ghost use Rattle.sha256.specs.Sha256.{sha256};
ghost use Rattle.lanes.specs.Lanes.{hashed_into};
ghost use Rattle.terms.specs.Terms.{runs_of};
ghost use Rattle.fragments.specs.Fragments.{encoded, laid};
ghost use Rattle.primitives.specs.Calls.{Told, hash_fits, runs_fit, hashes_fit, messages, encode_fits, apart, named, decode_fits};

use lanes::{Batch, Messages, Rows};

// Whether p and s bytes together are below the limit of FIPS 180-4, section 1, and `out` is the length of a hash.
fn hash_fits(p: usize, s: usize, out: usize) -> bool
    ensures { result ≡ hash_fits p s out }
{
    let most: usize = 2305843009213693952;
    if p >= most {
        return false;
    }
    if s >= most - p {
        return false;
    }
    out == 32
}

// The hash of p and then s into out: FIPS 180-4.
// C calls this, so the answer is a number.
pub fn primitives_sha256(p: &[u8], s: &[u8], out: &mut [u8]) -> u32
    ensures { Told
        (hash_fits (length p.now) (length s.now) (length out.old))
        (sha256 (p.now ++ s.now))
        result
        out.old
        out.new }
{
    if !hash_fits(p.len(), s.len(), out.len()) {
        return 2;
    }
    sha256::digest_into(p, s, out, 0);
    0
}

// Whether `bytes` is the length of `count` runs of f bytes, both within the ranges of a plan.
fn runs_fit(count: usize, f: usize, bytes: usize) -> bool
    ensures { result ≡ runs_fit count f bytes }
{
    if count < 1 {
        return false;
    }
    if count > 16 {
        return false;
    }
    if f < 1 {
        return false;
    }
    if f > 1024 {
        return false;
    }
    bytes == count * f
}

// Whether there are `count` messages, each h bytes of heads and then f bytes of s, and out is the length of their hashes.
fn hashes_fit(count: usize, h: usize, f: usize, heads: usize, s: usize, out: usize) -> bool
    ensures { result ≡ hashes_fit count h f heads s out }
{
    if !runs_fit(count, f, s) {
        return false;
    }
    if !runs_fit(count, 32, out) {
        return false;
    }
    if h > 16 {
        return false;
    }
    heads == count * h
}

// The hashes of `count` messages side by side, each h bytes of heads and then f bytes of s, one after another into out.
pub fn primitives_hashes(
    heads: &[u8],
    h: usize,
    s: &[u8],
    f: usize,
    count: usize,
    out: &mut [u8],
) -> u32
    ensures { Told
        (hashes_fit count h f (length heads.now) (length s.now) (length out.old))
        (hashed_into heads.now s.now (messages h f count) 0 32 count out.old)
        result
        out.old
        out.new }
{
    if !hashes_fit(count, h, f, heads.len(), s.len(), out.len()) {
        return 2;
    }
    let batch = Batch {
        heads: Rows {
            first: 0,
            stride: h,
            size: h,
        },
        bodies: Rows {
            first: 0,
            stride: f,
            size: f,
        },
        n: count,
    };
    let all = Messages {
        heads,
        bodies: s,
        batch,
    };
    lanes::digests(&all, out, 0, 32);
    0
}

// Whether the lengths of an item and a desk are those of m runs and n fragments.
fn encode_fits(n: usize, m: usize, f: usize, item: usize, desk: usize) -> bool
    ensures { result ≡ encode_fits n m f item desk }
{
    if m > n {
        return false;
    }
    if !runs_fit(m, f, item) {
        return false;
    }
    runs_fit(n, f, desk)
}

// All n fragments of an item of m runs of f bytes, one after another, into desk.
// C calls this, so the answer is a number.
pub fn primitives_encode(item: &[u8], n: usize, m: usize, f: usize, desk: &mut [u8]) -> u32
    ensures { Told
        (encode_fits n m f (length item.now) (length desk.old))
        (encoded m item.now (runs_of n f) n desk.old)
        result
        desk.old
        desk.new }
{
    if !encode_fits(n, m, f, item.len(), desk.len()) {
        return 2;
    }
    let slots = terms::runs_of(n, f);
    fragments::encode(item, m, desk, slots);
    0
}

// Whether the fragment of node k of the list lies within a desk of so many bytes, and no later node is the same.
fn is_apart(nodes: &[u8], k: usize, f: usize, desk: usize) -> bool
    requires { (k < length nodes.now) × (f ≤ 1024) }
    ensures { result ≡ apart f desk (get_or nodes.now k 0) (drop (k + 1) nodes.now) }
{
    let p = nodes[k];
    if p > 15 {
        return false;
    }
    if (p as usize) * f + f > desk {
        return false;
    }
    let rest = k + 1;
    !fragments::is_among(&nodes[rest..], p)
}

// Whether the nodes are distinct, and the fragment of each lies within a desk of so many bytes.
fn are_named(nodes: &[u8], f: usize, desk: usize) -> bool
    requires { f ≤ 1024 }
    ensures { result ≡ named f desk nodes.now }
{
    for k in 0..nodes.len() {
        if !is_apart(nodes, k, f, desk) {
            return false;
        }
    }
    true
}

// Whether m nodes are named whose fragments lie within the desk, and the item has the length of m runs.
fn decode_fits(m: usize, f: usize, nodes: &[u8], desk: usize, item: usize) -> bool
    ensures { result ≡ decode_fits m f nodes.now desk item }
{
    if nodes.len() != m {
        return false;
    }
    if !runs_fit(m, f, item) {
        return false;
    }
    are_named(nodes, f, desk)
}

// The item, from the fragments of the m nodes named, that of node p in desk at p * f.
// C calls this, so the answer is a number.
pub fn primitives_decode(desk: &[u8], nodes: &[u8], m: usize, f: usize, item: &mut [u8]) -> u32
    ensures { Told
        (decode_fits m f nodes.now (length desk.now) (length item.old))
        (laid desk.now (runs_of 16 f) nodes.now (runs_of m f) m item.old)
        result
        item.old
        item.new }
{
    if !decode_fits(m, f, nodes, desk.len(), item.len()) {
        return 2;
    }
    let slots = terms::runs_of(16, f);
    fragments::decode(desk, slots, nodes, m, item);
    0
}
