// Strips of bytes, each times a weight of its own, added up: the product's rule done to whole strips at once. Bit by bit of the weights, from
// the highest: the sum so far is doubled, then every source is added whose weight has this bit. No source is copied. The doubling waits for the
// next pass that adds; each pass is a plain loop over strips, which the compiler makes into vector instructions.
ghost use Rattle.std.specs.Prelude.{◌≡◌, ℕ, ◌+◌, ◌≤◌, ◌<◌, length, get_or};
ghost use Rattle.std.specs.Int.Bits.{bit_xor};
ghost use Rattle.field.specs.Field.{xtime, mul};
ghost use Rattle.field.specs.Sums.{weighted, Within};
ghost use Rattle.field.specs.Inside.{number, Next, with_bit, pair};

use crate::double;

// What a pass multiplies by.
#[derive(Clone, Copy, PartialEq, Eq)]
enum Factor {
    Zero,
    One,
    Two,
    Four,
}

// g times a. By tests and not by a `match`: of a test that stays the same through a loop the compiler makes a loop for each answer, a `match` it
// leaves inside, byte by byte (encode at N16 m8 F1024: 52 MB/s where these tests have 975).
fn scaled(g: Factor, a: u8) -> u8
    ensures { result ≡ mul (number g) a }
{
    if g == Factor::Zero {
        return 0;
    }
    if g == Factor::One {
        return a;
    }
    if g == Factor::Two {
        double(a)
    } else {
        double(double(a))
    }
}

// Each byte of acc times g.
fn scale(g: Factor, acc: &mut [u8])
    ensures { (i : ℕ) → i < length acc.old → get_or acc.new i 0 ≡ mul (number g) (get_or acc.old i 0) }
{
    for x in acc.iter_mut() {
        *x = scaled(g, *x);
    }
}

// Each byte of acc times g, and what `added` gives for its place added.
fn scale_add<F: Fn(usize) -> u8>(g: Factor, acc: &mut [u8], added: F)
    requires { (i : ℕ) → i < length acc.old → F.pre added i }
    ensures { (i : ℕ) → i < length acc.old
        → (x : ℕ) × F.post added i x × (get_or acc.new i 0 ≡ bit_xor (mul (number g) (get_or acc.old i 0)) x) }
{
    for i in 0..acc.len() {
        acc[i] = scaled(g, acc[i]) ^ added(i);
    }
}

// The first weight from `from` on that has bit b, or where there is none the number of weights.
fn next(w: &[u8], b: usize, from: usize) -> usize
    requires { b < 8 }
    ensures { Next b w.now from result }
{
    for k in from..w.len() {
        if (w[k] >> b) % 2 == 1 {
            return k;
        }
    }
    w.len()
}

// Each byte of acc times g, and source i added, and source j where there is one.
fn fold(g: Factor, acc: &mut [u8], src: &[u8], at: &[usize], i: usize, j: usize)
    requires { (i < length at.now) × (Within (length acc.old) at.now src.now) }
    ensures { (k : ℕ) → k < length acc.old
        → get_or acc.new k 0 ≡ bit_xor (mul (number g) (get_or acc.old k 0)) (pair at.now src.now k i j) }
{
    let p = at[i];
    if j < at.len() {
        let q = at[j];
        scale_add(g, acc, move |k| src[p + k] ^ src[q + k]);
    } else {
        scale_add(g, acc, move |k| src[p + k]);
    }
}

// The turn of bit b: acc times g, and every source added whose weight has the bit, two a pass, the factor with the first. What acc is still to
// be multiplied by comes back: 1, or g where no source was added. A `while`: i and j are found by `next` and not counted.
fn turn(g: Factor, acc: &mut [u8], src: &[u8], at: &[usize], w: &[u8], b: usize) -> Factor
    requires { (b < 8) × (length at.now ≡ length w.now) × (Within (length acc.old) at.now src.now) }
    ensures { (k : ℕ) → k < length acc.old → mul (number result) (get_or acc.new k 0)
        ≡ bit_xor (mul (number g) (get_or acc.old k 0)) (with_bit b w.now at.now src.now k 0) }
{
    let m = w.len();
    let mut by = g;
    let mut i = next(w, b, 0);
    while i < m {
        let j = next(w, b, i + 1);
        fold(by, acc, src, at, i, j);
        by = Factor::One;
        i = next(w, b, j + 1);
    }
    by
}

// Twice what acc is still to be multiplied by; where that would be 8, acc is multiplied by 4 first.
fn twice(owed: Factor, acc: &mut [u8]) -> Factor
    ensures { (k : ℕ) → k < length acc.old
        → mul (number result) (get_or acc.new k 0) ≡ xtime (mul (number owed) (get_or acc.old k 0)) }
{
    match owed {
        Factor::Zero => Factor::Zero,
        Factor::One => Factor::Two,
        Factor::Two => Factor::Four,
        Factor::Four => {
            scale(Factor::Four, acc);
            Factor::Two
        }
    }
}

// The sum of the sources that lie at the places `at` of src, each times its weight, as the whole of out. What out held is lost with the first
// source, by the factor 0.
// `at` and `w` stay two slices: the weights are made as one row of 16 bytes, a vector of the processor, and the specs speak of two lists.
pub fn combine(src: &[u8], at: &[usize], w: &[u8], out: &mut [u8])
    requires { (length at.now ≡ length w.now) × (Within (length out.old) at.now src.now) }
    ensures { (i : ℕ) → i < length out.old
        → get_or out.new i 0 ≡ weighted w.now at.now src.now i }
{
    let mut owed = Factor::Zero;
    for b in (0..8).rev() {
        let g = twice(owed, out);
        owed = turn(g, out, src, at, w, b);
    }
    scale(owed, out);
}
