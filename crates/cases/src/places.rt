// Bytes at a place of a buffer. These ask nothing of their caller: where the bytes would not lie within the buffer, a number is 0, a part is all
// of it, and nothing is copied.

// The n bytes at `at`, if they lie within.
fn within(s: &[u8], at: usize, n: usize) -> Option<&[u8]> {
    s.get(at..)?.get(..n)
}

// The number of n bytes at `at`.
pub fn number_at(s: &[u8], at: usize, n: usize) -> u64 {
    if n > 8 || s.len() < at || s.len() - at < n {
        return 0;
    }
    octets::get(s, at, n)
}

// The n bytes at `at`.
pub fn part(s: &[u8], at: usize, n: usize) -> &[u8] {
    within(s, at, n).unwrap_or(s)
}

// The bytes at `at`, as many as out has.
pub fn take(s: &[u8], at: usize, out: &mut [u8]) {
    let n = out.len();
    if s.len() < at || s.len() - at < n {
        return;
    }
    out.copy_from_slice(&s[at..at + n]);
}

// The bytes of x, put at `at`.
pub fn put(s: &mut [u8], at: usize, x: &[u8]) {
    let n = x.len();
    if s.len() < at || s.len() - at < n {
        return;
    }
    s[at..at + n].copy_from_slice(x);
}

// How many bytes there are up to the last that is not x.
pub fn used(s: &[u8], x: u8) -> usize {
    match s.iter().rposition(|c| *c != x) {
        Some(last) => last + 1,
        None => 0,
    }
}
