// SHA-256 of FIPS 180-4, of a slice, or of a short prefix and a slice that are not copied together. What `lanes` does with several messages side by
// side is made of the same functions: of a word, of a round, of a block's words.
#![tactic(auto)]

ghost use Rattle.std.specs.Prelude.{◌≡◌, ℕ, ◌+◌, ◌-◌, ◌%◌, ◌^◌, ◌*◌, ◌<◌, ◌≤◌, ◌/◌, List, ◌++◌, length, get_or, drop, set};
ghost use Rattle.octets.specs.Bytes.{part, put, alike};
ghost use Rattle.sha256.specs.Sha256.{K, Ch, Maj, Σ0, Σ1, σ0, σ1, moved_by, round_of, rounds_of, schedule_of, next_word, added_of, compress_of, words, ended, H0, bytes_of, sha256};
ghost use Rattle.sha256.specs.declared.State.{State};
ghost use Rattle.sha256.specs.Inside.{Turned};

pub mod table;

pub use table::{RoundConstants, constants};

// The eight working variables, or the eight words of a hash value: 6.2.2, step 2.
#[derive(Clone, Copy)]
pub struct State {
    pub a: u32,
    pub b: u32,
    pub c: u32,
    pub d: u32,
    pub e: u32,
    pub f: u32,
    pub g: u32,
    pub h: u32,
}

// 4.1.2: the six functions of words. Ch and Maj are worked out with fewer operations than the standard writes them with: what y and z
// share need not be looked at.
fn ch(x: u32, y: u32, z: u32) -> u32
    ensures { result ≡ Ch x y z }
{
    z ^ (x & (y ^ z))
}

fn maj(x: u32, y: u32, z: u32) -> u32
    ensures { result ≡ Maj x y z }
{
    y ^ ((x ^ y) & (y ^ z))
}

fn big0(x: u32) -> u32
    ensures { result ≡ Σ0 x }
{
    x.rotate_right(2) ^ x.rotate_right(13) ^ x.rotate_right(22)
}

fn big1(x: u32) -> u32
    ensures { result ≡ Σ1 x }
{
    x.rotate_right(6) ^ x.rotate_right(11) ^ x.rotate_right(25)
}

// The two big sigmas once more, each rotation on top of the one before: of a single message that is two copies of a word fewer, and fewer words at
// hand at a time: 252 MB/s of 64 KiB where the two above have 224. Side by side, where vectors rotate, the two above have 1112 and these 1050.
fn turned0(x: u32) -> u32
    ensures { result ≡ Σ0 x }
{
    let y = x ^ x.rotate_right(9);
    let z = x ^ y.rotate_right(11);
    z.rotate_right(2)
}

fn turned1(x: u32) -> u32
    ensures { result ≡ Σ1 x }
{
    let y = x ^ x.rotate_right(14);
    let z = x ^ y.rotate_right(5);
    z.rotate_right(6)
}

pub fn small0(x: u32) -> u32
    ensures { result ≡ σ0 x }
{
    x.rotate_right(7) ^ x.rotate_right(18) ^ x >> 3
}

pub fn small1(x: u32) -> u32
    ensures { result ≡ σ1 x }
{
    x.rotate_right(17) ^ x.rotate_right(19) ^ x >> 10
}

// 3.2: sums of words, modulo 2^32.
pub fn add4(a: u32, b: u32, c: u32, d: u32) -> u32
    ensures { result ≡ (a + b + c + d) % 2 ^ 32 }
{
    a.wrapping_add(b).wrapping_add(c).wrapping_add(d)
}

fn add5(a: u32, b: u32, c: u32, d: u32, e: u32) -> u32
    ensures { result ≡ (a + b + c + d + e) % 2 ^ 32 }
{
    add4(a, b, c, d).wrapping_add(e)
}

// One round, 6.2.2, step 3, once its two sums are made.
fn moved(s: State, t1: u32, t2: u32) -> State
    ensures { result ≡ moved_by s t1 t2 }
{
    State {
        a: t1.wrapping_add(t2),
        b: s.a,
        c: s.b,
        d: s.c,
        e: s.d.wrapping_add(t1),
        f: s.e,
        g: s.f,
        h: s.g,
    }
}

// One round of a single message.
fn round(s: State, k: u32, w: u32) -> State
    ensures { result ≡ round_of s k w }
{
    let t1 = add5(s.h, turned1(s.e), ch(s.e, s.f, s.g), k, w);
    let t2 = turned0(s.a).wrapping_add(maj(s.a, s.b, s.c));
    moved(s, t1, t2)
}

// One round of one of several messages.
pub fn plain_round(s: State, k: u32, w: u32) -> State
    ensures { result ≡ round_of s k w }
{
    let t1 = add5(s.h, big1(s.e), ch(s.e, s.f, s.g), k, w);
    let t2 = big0(s.a).wrapping_add(maj(s.a, s.b, s.c));
    moved(s, t1, t2)
}

// Round t.
// A round t is below 64 by the `for` that it is called in, here and above: a type for it would be made at each turn.
fn at(s: State, k: &RoundConstants, w: &[u32; 64], t: usize) -> State
    requires { t < 64 }
    ensures { result ≡ round_of s (get_or K t 0) (get_or w.now t 0) }
{
    round(s, k.words[t], w[t])
}

// 6.2.2, step 1: one more word of the message schedule.
fn step(w: &mut [u32; 64], t: usize)
    requires { (16 ≤ t) × (t < 64) }
    ensures { w.new ≡ set w.old t (next_word w.old t) }
{
    w[t] = add4(small1(w[t - 2]), w[t - 7], small0(w[t - 15]), w[t - 16]);
}

// Round t, and then the word that is wanted 16 rounds later.
fn round_and_word(s: State, k: &RoundConstants, w: &mut [u32; 64], t: usize) -> State
    requires { t < 48 }
    ensures { Turned 1 t w.old s w.new result }
{
    let r = at(s, k, w, t);
    step(w, t + 16);
    r
}

// Eight rounds from t on, after each the word that is wanted 16 rounds later.
fn rounds_and_words(s: State, k: &RoundConstants, w: &mut [u32; 64], t: usize) -> State
    requires { t + 8 ≤ 48 }
    ensures { Turned 8 t w.old s w.new result }
{
    let s1 = round_and_word(s, k, w, t);
    let s2 = round_and_word(s1, k, w, t + 1);
    let s3 = round_and_word(s2, k, w, t + 2);
    let s4 = round_and_word(s3, k, w, t + 3);
    let s5 = round_and_word(s4, k, w, t + 4);
    let s6 = round_and_word(s5, k, w, t + 5);
    let s7 = round_and_word(s6, k, w, t + 6);
    round_and_word(s7, k, w, t + 7)
}

// Eight rounds from t on, whose words are there.
fn rounds_alone(s: State, k: &RoundConstants, w: &[u32; 64], t: usize) -> State
    requires { t + 8 ≤ 64 }
    ensures { (s₀ : State) → s ≡ rounds_of w.now t s₀ → result ≡ rounds_of w.now (t + 8) s₀ }
{
    let s1 = at(s, k, w, t);
    let s2 = at(s1, k, w, t + 1);
    let s3 = at(s2, k, w, t + 2);
    let s4 = at(s3, k, w, t + 3);
    let s5 = at(s4, k, w, t + 4);
    let s6 = at(s5, k, w, t + 5);
    let s7 = at(s6, k, w, t + 6);
    at(s7, k, w, t + 7)
}

// The message schedule and the 64 rounds, 6.2.2, steps 1 to 3; w is where the schedule is made.
fn rounds(s0: State, m: &[u32; 16], k: &RoundConstants, w: &mut [u32; 64]) -> State
    ensures { result ≡ rounds_of (schedule_of 48 m.now) 64 s0 }
{
    w[..16].copy_from_slice(m);
    let mut s = s0;
    for i in 0..6 {
        s = rounds_and_words(s, k, w, 8 * i);
    }
    for i in 6..8 {
        s = rounds_alone(s, k, w, 8 * i);
    }
    s
}

// 6.2.2, step 4.
pub fn added(x: State, y: State) -> State
    ensures { result ≡ added_of x y }
{
    State {
        a: x.a.wrapping_add(y.a),
        b: x.b.wrapping_add(y.b),
        c: x.c.wrapping_add(y.c),
        d: x.d.wrapping_add(y.d),
        e: x.e.wrapping_add(y.e),
        f: x.f.wrapping_add(y.f),
        g: x.g.wrapping_add(y.g),
        h: x.h.wrapping_add(y.h),
    }
}

// 6.2.2: one block.
fn compress(h: State, m: &[u32; 16], k: &RoundConstants, w: &mut [u32; 64]) -> State
    ensures { result ≡ compress_of h m.now }
{
    let r = rounds(h, m, k, w);
    added(h, r)
}

// 5.2.1: four bytes as a word.
pub fn word(a: u8, b: u8, c: u8, d: u8) -> u32
    ensures { result ≡ a * 2 ^ 24 + b * 2 ^ 16 + c * 2 ^ 8 + d }
{
    u32::from_be_bytes([a, b, c, d])
}

// Byte i of a padded message, 5.1.1, from byte `before` on, where it is p and then s that lies there.
// Bounds of the length of p and s, here and below: most calls hash two parts that lie apart, and a type of the two would be made at each such call.
fn padded(p: &[u8], s: &[u8], before: usize, i: usize) -> u8
    requires { (before + (length p.now + length s.now) < 2 ^ 61) × (before % 64 ≡ 0) × (i < (length p.now + length s.now + 72) / 64 * 64) }
    ensures { result ≡ get_or (ended before (p.now ++ s.now)) i 0 }
{
    if i < p.len() {
        return p[i];
    }
    let n = p.len() + s.len();
    if i < n {
        return s[i - p.len()];
    }
    if i == n {
        return 128;
    }
    let end = (n + 72) / 64 * 64;
    if i + 8 < end {
        return 0;
    }
    let bits = 8 * ((before + n) as u64);
    ((bits >> 8 * (end - 1 - i)) % 256) as u8
}

// The 16 words from `at` on, of the bytes that `byte` gives.
fn block_of<F: Fn(usize) -> u8>(at: usize, byte: F) -> [u32; 16]
    requires room { at + 64 < 2 ^ 64 }
    requires bytes { (j : ℕ) → at ≤ j → j < at + 64 → F.pre byte j }
    ensures { (bs : List ℕ) → ((j x : ℕ) → at ≤ j → j < at + 64 → F.post byte j x → x ≡ get_or bs (j - at) 0) → result ≡ words 16 bs }
{
    let mut w = [0u32; 16];
    for i in 0..16 {
        let j = at + 4 * i;
        w[i] = word(byte(j), byte(j + 1), byte(j + 2), byte(j + 3));
    }
    w
}

// Block k of the padded message from byte `before` on.
pub fn load(p: &[u8], s: &[u8], before: usize, k: usize) -> [u32; 16]
    requires { (before + (length p.now + length s.now) < 2 ^ 61) × (before % 64 ≡ 0) × (k < (length p.now + length s.now + 72) / 64) }
    ensures { result ≡ words 16 (drop (64 * k) (ended before (p.now ++ s.now))) }
{
    let at = 64 * k;
    if at >= p.len() && at - p.len() + 64 <= s.len() {
        return block_of(at - p.len(), move |j| s[j]);
    }
    block_of(at, move |j| padded(p, s, before, j))
}

// 5.3.3: the first hash value.
pub fn initial() -> State
    ensures { result ≡ H0 }
{
    State {
        a: 0x6a09_e667,
        b: 0xbb67_ae85,
        c: 0x3c6e_f372,
        d: 0xa54f_f53a,
        e: 0x510e_527f,
        f: 0x9b05_688c,
        g: 0x1f83_d9ab,
        h: 0x5be0_cd19,
    }
}

// The eight words of a hash value as 32 bytes.
pub fn bytes_of(s: State) -> [u8; 32]
    ensures { result ≡ bytes_of s }
{
    let words = [s.a, s.b, s.c, s.d, s.e, s.f, s.g, s.h];
    let mut bytes = [0u8; 32];
    for i in 0..8 {
        bytes[4 * i..4 * i + 4].copy_from_slice(&words[i].to_be_bytes());
    }
    bytes
}

// The hash of p and then s.
pub fn digest_after(p: &[u8], s: &[u8]) -> [u8; 32]
    requires { length p.now + length s.now < 2 ^ 61 }
    ensures { result ≡ sha256 (p.now ++ s.now) }
{
    let n = (p.len() + s.len() + 72) / 64;
    let c = constants();
    let mut w = [0u32; 64];
    let mut h = initial();
    for k in 0..n {
        let m = load(p, s, 0, k);
        h = compress(h, &m, &c, &mut w);
    }
    bytes_of(h)
}

// The hash of s.
pub fn digest(s: &[u8]) -> [u8; 32]
    requires { length s.now < 2 ^ 61 }
    ensures { result ≡ sha256 s.now }
{
    digest_after(&s[..0], s)
}

// The hash of p and then s, written into out at `at`.
pub fn digest_into(p: &[u8], s: &[u8], out: &mut [u8], at: usize)
    requires { (length p.now + length s.now < 2 ^ 61) × (at + 32 ≤ length out.old) }
    ensures { out.new ≡ put out.old at (sha256 (p.now ++ s.now)) }
{
    let d = digest_after(p, s);
    octets::copy(&d, 0, 32, out, at);
}

// Whether the 32 bytes of t at `at` are the hash of p and then s.
pub fn matches(p: &[u8], s: &[u8], t: &[u8], at: usize) -> bool
    requires { (length p.now + length s.now < 2 ^ 61) × (at + 32 ≤ length t.now) }
    ensures { result ≡ alike (sha256 (p.now ++ s.now)) (part t.now at 32) }
{
    let d = digest_after(p, s);
    octets::same(&d, 0, t, at, 32)
}
