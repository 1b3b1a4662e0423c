// SHA-256 of several messages of one length, side by side: up to eight lanes, word i of the state, or of the block, of lane l at 8 * i + l. What is
// done in a lane is what `sha256` does with one message, by its functions; the loops over the lanes do many steps of each in a turn and call
// nothing, so that a compiler makes vector instructions of them.
#![tactic(auto)]

ghost use Rattle.std.specs.Prelude.{◌≡◌, ◌++◌, List, ℕ, ◌+◌, ◌*◌, ◌/◌, ◌%◌, ◌^◌, ◌<◌, ◌≤◌, length, get_or, set, drop};
ghost use Rattle.octets.specs.Bytes.{put};
ghost use Rattle.sha256.specs.Sha256.{K, H0, words, ended, after, round_of, added_of, bytes_of, sha256};
ghost use Rattle.lanes.specs.Lanes.{message_of, Lying, Spaced, hashed_into, lane_of, EachLane};
ghost use Rattle.lanes.specs.Inside.{with_lane, rounds_at, next_in, rows_from, batch_from, stored_into, Rolled, AllRolled, Loaded, AllLoaded, Standing, Rounded, Blocked};

pub mod messages;

pub use messages::Messages;
use sha256::{RoundConstants, State};

// Parts of one size, at a first place and then at every stride.
#[derive(Clone, Copy)]
pub struct Rows {
    pub first: usize,
    pub stride: usize,
    pub size: usize,
}

// Messages: of each a row of a lent slice, after a short row of another.
#[derive(Clone, Copy)]
pub struct Batch {
    pub heads: Rows,
    pub bodies: Rows,
    pub n: usize,
}

// The state of lane l.
// Here and below a lane, a number of lanes or a round is a bound of a fixed array, had from the `for` it is called in: a type for it would be made at each
// turn and opened at each index, a line for a clause.
fn lane(s: &[u32; 64], l: usize) -> State
    requires { l < 8 }
    ensures { result ≡ lane_of s.now l }
{
    State {
        a: s[l],
        b: s[l + 8],
        c: s[l + 16],
        d: s[l + 24],
        e: s[l + 32],
        f: s[l + 40],
        g: s[l + 48],
        h: s[l + 56],
    }
}

// r as the state of lane l.
fn put_lane(s: &mut [u32; 64], l: usize, r: State)
    requires { l < 8 }
    ensures { s.new ≡ with_lane s.old l r }
{
    s[l] = r.a;
    s[l + 8] = r.b;
    s[l + 16] = r.c;
    s[l + 24] = r.d;
    s[l + 32] = r.e;
    s[l + 40] = r.f;
    s[l + 48] = r.g;
    s[l + 56] = r.h;
}

// Round t of lane l, by the words at hand.
fn lane_round(s: State, k: &RoundConstants, w: &[u32; 128], t: usize, l: usize) -> State
    requires { (t < 64) × (l < 8) }
    ensures { result ≡ round_of s (get_or K t 0) (get_or w.now (8 * (t % 16) + l) 0) }
{
    sha256::plain_round(s, k.words[t], w[8 * (t % 16) + l])
}

// Four rounds of lane l, from round t on.
fn four(s: State, k: &RoundConstants, w: &[u32; 128], t: usize, l: usize) -> State
    requires { (t + 4 ≤ 64) × (l < 8) }
    ensures { result ≡ rounds_at w.now l t 4 s }
{
    let s1 = lane_round(s, k, w, t, l);
    let s2 = lane_round(s1, k, w, t + 1, l);
    let s3 = lane_round(s2, k, w, t + 2, l);
    lane_round(s3, k, w, t + 3, l)
}

// Four rounds of every lane, from round t on.
fn turn(s: &mut [u32; 64], k: &RoundConstants, w: &[u32; 128], t: usize, n: usize)
    requires { (t + 4 ≤ 64) × (n ≤ 8) }
    ensures { EachLane (λ l. rounds_at w.now l t 4 (lane_of s.old l)) n s.old s.new }
{
    for l in 0..n {
        let r = four(lane(s, l), k, w, t, l);
        put_lane(s, l, r);
    }
}

// The word of the schedule that stands 16 after word i of lane l, in its place.
fn lane_step(w: &mut [u32; 128], i: usize, l: usize)
    requires { (i < 16) × (l < 8) }
    ensures { w.new ≡ set w.old (8 * i + l) (next_in w.old i l) }
{
    w[8 * i + l] = sha256::add4(
        sha256::small1(w[8 * ((i + 14) % 16) + l]),
        w[8 * ((i + 9) % 16) + l],
        sha256::small0(w[8 * ((i + 1) % 16) + l]),
        w[8 * i + l],
    );
}

// The next sixteen words of lane l, in the places of those before.
fn roll_lane(w: &mut [u32; 128], l: usize)
    requires { l < 8 }
    ensures { Rolled l w.old w.new }
{
    lane_step(w, 0, l);
    lane_step(w, 1, l);
    lane_step(w, 2, l);
    lane_step(w, 3, l);
    lane_step(w, 4, l);
    lane_step(w, 5, l);
    lane_step(w, 6, l);
    lane_step(w, 7, l);
    lane_step(w, 8, l);
    lane_step(w, 9, l);
    lane_step(w, 10, l);
    lane_step(w, 11, l);
    lane_step(w, 12, l);
    lane_step(w, 13, l);
    lane_step(w, 14, l);
    lane_step(w, 15, l);
}

// The next sixteen words of every lane.
fn roll(w: &mut [u32; 128], n: usize)
    requires { n ≤ 8 }
    ensures { AllRolled n w.old w.new }
{
    for l in 0..n {
        roll_lane(w, l);
    }
}

// The words for round t, where all rounds before are done.
fn words_for(w: &mut [u32; 128], t: usize, n: usize)
    requires { (t < 64) × (n ≤ 8) }
    ensures { Standing t n w.old w.new }
{
    if t == 0 {
        return;
    }
    if t % 16 == 0 {
        roll(w, n);
    }
}

// The 64 rounds of every lane.
fn all_rounds(s: &mut [u32; 64], k: &RoundConstants, w: &mut [u32; 128], n: usize)
    requires { n ≤ 8 }
    ensures { Rounded 64 n s.old w.old s.new w.new }
{
    for i in 0..16 {
        words_for(w, 4 * i, n);
        turn(s, k, w, 4 * i, n);
    }
}

// 6.2.2, step 4, of every lane.
fn add_lanes(h: &mut [u32; 64], s: &[u32; 64], n: usize)
    requires { n ≤ 8 }
    ensures { EachLane (λ l. added_of (lane_of h.old l) (lane_of s.now l)) n h.old h.new }
{
    for l in 0..n {
        let r = sha256::added(lane(h, l), lane(s, l));
        put_lane(h, l, r);
    }
}

// 6.2.2: one block of every lane.
fn block(h: &mut [u32; 64], w: &mut [u32; 128], k: &RoundConstants, n: usize)
    requires { n ≤ 8 }
    ensures { Blocked n h.old w.old h.new w.new }
{
    let mut s = *h;
    all_rounds(&mut s, k, w, n);
    add_lanes(h, &s, n);
}

// The 16 words that `word` gives as those of lane l.
fn load_lane<F: Fn(usize) -> u32>(w: &mut [u32; 128], l: usize, word: F)
    requires lane { l < 8 }
    requires words { (i : ℕ) → i < 16 → F.pre word i }
    ensures { (m : List ℕ) → ((i x : ℕ) → i < 16 → F.post word i x → x ≡ get_or m i 0) → Loaded m l w.old w.new }
{
    for i in 0..16 {
        w[8 * i + l] = word(i);
    }
}

// Block b of p and then s, padded, of which `before` bytes were taken in already, as the words of lane l. A block that lies whole in s is read there and
// not loaded first: 16 hashes of 1 KiB run at 467 MB/s in place of 440.
fn load_block(p: &[u8], s: &[u8], before: usize, b: usize, w: &mut [u32; 128], l: usize)
    requires { (before + (length p.now + length s.now) < 2 ^ 61) × (before % 64 ≡ 0) × (b < (length p.now + length s.now + 72) / 64) × (l < 8) }
    ensures { Loaded (words 16 (drop (64 * b) (ended before (p.now ++ s.now)))) l w.old w.new }
{
    let at = 64 * b;
    if at >= p.len() && at - p.len() + 64 <= s.len() {
        let from = at - p.len();
        load_lane(w, l, move |i| {
            let j = from + 4 * i;
            sha256::word(s[j], s[j + 1], s[j + 2], s[j + 3])
        });
        return;
    }
    let m = sha256::load(p, s, before, b);
    load_lane(w, l, |i| m[i]);
}

// Where row i begins.
fn row_at(r: Rows, i: usize) -> usize
    requires { r.first + i * r.stride < 2 ^ 64 }
    ensures { result ≡ r.first + i * r.stride }
{
    r.first + i * r.stride
}

// Block b of message l, padded, as the words of lane l.
// `before` and its bounds, here and below, are not in `Messages`: the same messages are taken in from several places on, one for each call of `absorb`.
fn load_at(m: &Messages, before: usize, b: usize, w: &mut [u32; 128], l: usize)
    requires { (before + (m.now.batch.heads.size + m.now.batch.bodies.size) < 2 ^ 61) × (before % 64 ≡ 0)
        × (b < (m.now.batch.heads.size + m.now.batch.bodies.size + 72) / 64) × (l < m.now.batch.n) × (m.now.batch.n ≤ 8) }
    ensures { Loaded (words 16 (drop (64 * b) (ended before (message_of m.now.heads.now m.now.bodies.now m.now.batch l)))) l w.old w.new }
{
    let x = m.batch;
    let c = row_at(x.heads, l);
    let d = c + x.heads.size;
    let a = row_at(x.bodies, l);
    let e = a + x.bodies.size;
    load_block(&m.heads[c..d], &m.bodies[a..e], before, b, w, l);
}

// Block b of every message, padded.
fn load_all(m: &Messages, before: usize, b: usize, w: &mut [u32; 128])
    requires { (before + (m.now.batch.heads.size + m.now.batch.bodies.size) < 2 ^ 61) × (before % 64 ≡ 0)
        × (b < (m.now.batch.heads.size + m.now.batch.bodies.size + 72) / 64) × (m.now.batch.n ≤ 8) }
    ensures { AllLoaded (λ l. words 16 (drop (64 * b) (ended before (message_of m.now.heads.now m.now.bodies.now m.now.batch l)))) m.now.batch.n w.new }
{
    for l in 0..m.batch.n {
        load_at(m, before, b, w, l);
    }
}

// The first hash value in every lane.
pub fn start(h: &mut [u32; 64], n: usize)
    requires { n ≤ 8 }
    ensures { EachLane (λ l. H0) n h.old h.new }
{
    for l in 0..n {
        put_lane(h, l, sha256::initial());
    }
}

// So many blocks of every message, padded, of which `before` bytes were taken in already.
pub fn absorb(h: &mut [u32; 64], m: &Messages, before: usize, blocks: usize)
    requires { (before + (m.now.batch.heads.size + m.now.batch.bodies.size) < 2 ^ 61) × (before % 64 ≡ 0)
        × (blocks ≤ (m.now.batch.heads.size + m.now.batch.bodies.size + 72) / 64) × (m.now.batch.n ≤ 8) }
    ensures { EachLane (λ l. after (lane_of h.old l) blocks (ended before (message_of m.now.heads.now m.now.bodies.now m.now.batch l))) m.now.batch.n h.old h.new }
{
    let k = sha256::constants();
    let mut w = [0u32; 128];
    for b in 0..blocks {
        load_all(m, before, b, &mut w);
        block(h, &mut w, &k, m.batch.n);
    }
}

// The hash of lane l.
pub fn hash_of(h: &[u32; 64], l: usize) -> [u8; 32]
    requires { l < 8 }
    ensures { result ≡ bytes_of (lane_of h.now l) }
{
    sha256::bytes_of(lane(h, l))
}

// The hash of message i, into out at `at`.
fn one(m: &Messages, i: usize, out: &mut [u8], at: usize)
    requires { (i < m.now.batch.n) × (at + 32 ≤ length out.old) }
    ensures { out.new ≡ put out.old at (sha256 (message_of m.now.heads.now m.now.bodies.now m.now.batch i)) }
{
    let x = m.batch;
    let c = row_at(x.heads, i);
    let d = c + x.heads.size;
    let a = row_at(x.bodies, i);
    let e = a + x.bodies.size;
    sha256::digest_into(&m.heads[c..d], &m.bodies[a..e], out, at);
}

// The hash of lane l, into out at `at`.
fn store(h: &[u32; 64], l: usize, out: &mut [u8], at: usize)
    requires { (l < 8) × (at + 32 ≤ length out.old) }
    ensures { out.new ≡ put out.old at (bytes_of (lane_of h.now l)) }
{
    let d = hash_of(h, l);
    octets::copy(&d, 0, 32, out, at);
}

// The hashes of the first n lanes, into out at `at` and then at every stride.
fn store_all(h: &[u32; 64], n: usize, out: &mut [u8], at: usize, stride: usize)
    requires { (n ≤ 8) × (Spaced at stride n out.old) }
    ensures { out.new ≡ stored_into h.now at stride n out.old }
{
    for l in 0..n {
        store(h, l, out, at + l * stride);
    }
}

// The hashes of up to eight messages, into out at `at` and then at every stride.
// The room at every stride, here and below, changes with each group: a value of it would be made anew for each call.
fn group(m: &Messages, out: &mut [u8], at: usize, stride: usize)
    requires { (m.now.batch.n ≤ 8) × (Spaced at stride m.now.batch.n out.old) }
    ensures { out.new ≡ hashed_into m.now.heads.now m.now.bodies.now m.now.batch at stride m.now.batch.n out.old }
{
    let x = m.batch;
    let blocks = (x.heads.size + x.bodies.size + 72) / 64;
    let mut h = [0u32; 64];
    start(&mut h, x.n);
    absorb(&mut h, m, 0, blocks);
    store_all(&h, x.n, out, at, stride);
}

// How many of so many that are left are taken at once: eight, then four, then one.
pub fn at_once(left: usize) -> usize
    requires { 0 < left }
    ensures { (0 < result) × (result ≤ left) × (result ≤ 8) }
{
    if left >= 8 {
        return 8;
    }
    if left >= 4 {
        return 4;
    }
    1
}

// Rows from row i on.
fn rows_from(r: Rows, i: usize) -> Rows
    requires { r.first + i * r.stride < 2 ^ 64 }
    ensures { result ≡ rows_from r i }
{
    Rows {
        first: row_at(r, i),
        stride: r.stride,
        size: r.size,
    }
}

// The hashes of `some` messages, from message i on.
fn some_from(m: &Messages, i: usize, some: usize, out: &mut [u8], at: usize, stride: usize)
    requires { (Spaced at stride m.now.batch.n out.old) × (i + some ≤ m.now.batch.n) × (some ≤ 8) × (0 < some) }
    ensures { out.new ≡ hashed_into m.now.heads.now m.now.bodies.now (batch_from m.now.batch i some) (at + i * stride) stride some out.old }
{
    let to = at + i * stride;
    if some == 1 {
        one(m, i, out, to);
    } else {
        let batch = Batch {
            heads: rows_from(m.batch.heads, i),
            bodies: rows_from(m.batch.bodies, i),
            n: some,
        };
        let y = Messages {
            heads: m.heads,
            bodies: m.bodies,
            batch,
        };
        group(&y, out, to, stride);
    }
}

// The hashes of all messages, into out at `at` and then at every stride. A `while`: each turn takes as many as `at_once` says.
pub fn digests(m: &Messages, out: &mut [u8], at: usize, stride: usize)
    requires { Spaced at stride m.now.batch.n out.old }
    ensures { out.new ≡ hashed_into m.now.heads.now m.now.bodies.now m.now.batch at stride m.now.batch.n out.old }
{
    let n = m.batch.n;
    let mut i: usize = 0;
    while i < n {
        let some = at_once(n - i);
        some_from(m, i, some, out, at, stride);
        i += some;
    }
}
