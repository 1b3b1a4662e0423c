// The field of FIPS 197, section 4.2, on bytes: a byte is a polynomial of degree below 8 with coefficients 0 and 1, bit i that of x^i. Two
// bytes are added by exclusive or; everything else here is made of one step, doubling. `sums` does that step to whole strips of bytes.
#![tactic(auto)]

ghost use Rattle.std.specs.Prelude.{◌≡◌, ℕ, ◌<◌, get_or};
ghost use Rattle.field.specs.Field.{xtime, mul, inv};

pub mod sums;

// {02} times a, the standard's xtime (4.2.1): each bit moves up by one place. A bit that moves out at the top is an x^8, which is
// x^4 + x^3 + x + 1 modulo the field's polynomial x^8 + x^4 + x^3 + x + 1, so {1b} is added in its place.
pub fn double(a: u8) -> u8
    ensures { result ≡ xtime a }
{
    (a << 1) ^ (0x1b * ((a >> 7) % 2))
}

// The product (4.2.1): a doubled again and again is a times {01}, {02}, {04}, .., {80}; the sum of those of which b has the bit is a times b.
// The standard's example, {57} times {13}, where {13} is {01} + {02} + {10} and the bits above add nothing:
//
//     times   by doubling       bit of {13}   sum so far
//     {01}             {57}     1             {57}
//     {02}    {57} ->  {ae}     1             {57} + {ae} = {f9}
//     {04}    {ae} ->  {47}     0             {f9}
//     {08}    {47} ->  {8e}     0             {f9}
//     {10}    {8e} ->  {07}     1             {f9} + {07} = {fe}
pub fn product(a: u8, b: u8) -> u8
    ensures { result ≡ mul a b }
{
    let mut sum: u8 = 0;
    let mut doubled = a;
    for i in 0u32..8 {
        // This multiple of a belongs to the sum where bit i of b is 1; the next one is twice this one.
        sum ^= doubled * ((b >> i) % 2);
        doubled = double(doubled);
    }
    sum
}

// The inverse of a byte above 0, the one whose product with it is {01}: a to the power 254, since a to the power 255 is {01}. 254 is
// 2 + 4 + 8 + 16 + 32 + 64 + 128, so it is the product of the squares that follow one another. Of {00} it is {00}.
pub fn inverse(a: u8) -> u8
    ensures { result ≡ inv a }
{
    let a2 = product(a, a);
    let a4 = product(a2, a2);
    let a8 = product(a4, a4);
    let a16 = product(a8, a8);
    let a32 = product(a16, a16);
    let a64 = product(a32, a32);
    let a128 = product(a64, a64);
    let low = product(product(a2, a4), product(a8, a16));
    let high = product(product(a32, a64), a128);
    product(low, high)
}

// Each byte of a row replaced by its inverse, side by side: a row is as wide as a vector of the processor.
pub fn invert(row: &mut [u8; 16])
    ensures { (k : ℕ) → k < 16 → get_or row.new k 0 ≡ inv (get_or row.old k 0) }
{
    for x in row.iter_mut() {
        *x = inverse(*x);
    }
}
