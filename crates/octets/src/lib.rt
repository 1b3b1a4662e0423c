// Bytes at a place of a lent slice: numbers, copies, moves and comparisons. Document 01, "Records, books, frames": all numbers are
// big-endian. Every contract gives the whole slice at exit by `put`, so that no byte outside the place changes.
#![tactic(auto)]

ghost use Rattle.std.specs.Prelude.{◌≡◌, ◌+◌, ◌≤◌, ◌<◌, ◌^◌, ltb, length};
ghost use Rattle.octets.specs.Bytes.{part, put, num, be, alike};

// The big-endian number of the n bytes at `at`, n at most 8. The third fact is for those who write the number again.
// At most 8 bytes are a u64: a clause says it, where a type of such a number would be made at each call.
pub fn get(b: &[u8], at: usize, n: usize) -> u64
    requires { (at + n ≤ length b.now) × (n ≤ 8) }
    ensures { (result ≡ num (part b.now at n)) × (result < 256 ^ n) × (be n result ≡ part b.now at n) }
{
    let mut x: u64 = 0;
    for i in 0..n {
        x = x * 256 + b[at + i] as u64;
    }
    x
}

// x as n bytes, big-endian, at `at`: the last first. What x has beyond n bytes is left out.
pub fn put_num(b: &mut [u8], at: usize, n: usize, x: u64)
    requires { at + n ≤ length b.old }
    ensures { b.new ≡ put b.old at (be n x) }
{
    let mut y = x;
    for i in (0..n).rev() {
        b[at + i] = (y % 256) as u8;
        y = y / 256;
    }
}

// The big-endian number of the 8 bytes at `at`, as `get` gives it. Beside `get` for speed: it compiles to one load and one byte swap, where a loop
// of 8 turns stays eight loads.
pub fn word(b: &[u8], at: usize) -> u64
    requires { at + 8 ≤ length b.now }
    ensures { (result ≡ num (part b.now at 8)) × (result < 256 ^ 8) × (be 8 result ≡ part b.now at 8) }
{
    u64::from_be_bytes([
        b[at],
        b[at + 1],
        b[at + 2],
        b[at + 3],
        b[at + 4],
        b[at + 5],
        b[at + 6],
        b[at + 7],
    ])
}

// x as 8 bytes, big-endian, at `at`, as `put_num` lays it out. Beside `put_num` for speed: it compiles to one byte swap and one store, several in a
// row too, where `put_num` becomes byte stores or vector shifts.
pub fn put_word(b: &mut [u8], at: usize, x: u64)
    requires { at + 8 ≤ length b.old }
    ensures { b.new ≡ put b.old at (be 8 x) }
{
    b[at..at + 8].copy_from_slice(&x.to_be_bytes());
}

// n bytes of src from `from` into dst at `at`. Byte by byte, which compiles to vectors: the library's `copy_from_slice` of a length that is not a constant calls
// memmove, and an archive for C would need that name from outside beside memcpy and memset.
pub fn copy(src: &[u8], from: usize, n: usize, dst: &mut [u8], at: usize)
    requires { (from + n ≤ length src.now) × (at + n ≤ length dst.old) }
    ensures { dst.new ≡ put dst.old at (part src.now from n) }
{
    for i in 0..n {
        dst[at + i] = src[from + i];
    }
}

// The n bytes from `at` on, moved up by `by`: the last first.
pub fn up(b: &mut [u8], at: usize, n: usize, by: usize)
    requires { at + n + by ≤ length b.old }
    ensures { b.new ≡ put b.old (at + by) (part b.old at n) }
{
    within(b, at, n, at + by);
}

// The n bytes from `at + by` on, moved down by `by`: the first first.
pub fn down(b: &mut [u8], at: usize, n: usize, by: usize)
    requires { at + n + by ≤ length b.old }
    ensures { b.new ≡ put b.old at (part b.old (at + by) n) }
{
    within(b, at + by, n, at);
}

// n bytes of b from `from` on, copied to `at` in b, whichever comes first and however they overlap.
pub fn within(b: &mut [u8], from: usize, n: usize, at: usize)
    requires { (from + n ≤ length b.old) × (at + n ≤ length b.old) }
    ensures { b.new ≡ put b.old at (part b.old from n) }
{
    b.copy_within(from..from + n, at);
}

// Whether the n bytes of a from i are below the n bytes of b from j, as big-endian numbers. By hand: with `<` of slices a node looks for a record in
// 0.51 µs where it takes 0.41.
pub fn less(a: &[u8], i: usize, b: &[u8], j: usize, n: usize) -> bool
    requires { (i + n ≤ length a.now) × (j + n ≤ length b.now) }
    ensures { result ≡ ltb (num (part a.now i n)) (num (part b.now j n)) }
{
    for k in 0..n {
        let x = a[i + k];
        let y = b[j + k];
        if x != y {
            return x < y;
        }
    }
    false
}

// Whether the n bytes of a from i are those of b from j.
pub fn same(a: &[u8], i: usize, b: &[u8], j: usize, n: usize) -> bool
    requires { (i + n ≤ length a.now) × (j + n ≤ length b.now) }
    ensures { result ≡ alike (part a.now i n) (part b.now j n) }
{
    a[i..i + n] == b[j..j + n]
}
