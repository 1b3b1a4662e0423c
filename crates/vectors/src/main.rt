// The published vectors, run: SHA-256 of FIPS 180-4's examples, the worked examples of FIPS 197 sections 4.1 and 4.2, and document 01's
// columns with m = 2, encoded and brought back from their last two fragments. What this writes is held to the file `stdout`.
#![tactic(auto)]

ghost use Rattle.std.specs.Prelude.{◌≡◌, ◌<◌, ◌^◌, length};

use lanes::{Batch, Messages, Rows};
use std::io;

// Of thirteen hashes of p and then s side by side, a group of eight, one of four and a single one: how many are what a hash alone is, up to the first that is not.
fn alike(p: &[u8], s: &[u8]) -> u64
    requires p_len_bound { length p.now < 2 ^ 60 }
    requires s_len_bound { length s.now < 2 ^ 60 }
{
    let batch = Batch {
        heads: Rows {
            first: 0,
            stride: 0,
            size: p.len(),
        },
        bodies: Rows {
            first: 0,
            stride: 0,
            size: s.len(),
        },
        n: 13,
    };
    let d = sha256::digest_after(p, s);
    let mut out = [0u8; 416];
    let all = Messages {
        heads: p,
        bodies: s,
        batch,
    };
    lanes::digests(&all, &mut out, 0, 32);
    for i in 0..13 {
        if !octets::same(&d, 0, &out, 32 * i, 32) {
            return i as u64;
        }
    }
    13
}

// A line: the name, the hash in hexadecimal, and how many side by side came to the same.
fn hash(rt: &HostRuntime, name: &str, p: &[u8], s: &[u8]) -> io::Result<()>
    requires p_len_bound { length p.now < 2 ^ 60 }
    requires s_len_bound { length s.now < 2 ^ 60 }
{
    let same = alike(p, s);
    let d = sha256::digest_after(p, s);
    print!(rt; "SHA-256 {name} ")?;
    print!(rt; "{:016x}", octets::get(&d, 0, 8))?;
    print!(rt; "{:016x}", octets::get(&d, 8, 8))?;
    print!(rt; "{:016x}", octets::get(&d, 16, 8))?;
    print!(rt; "{:016x}", octets::get(&d, 24, 8))?;
    println!(rt; " side by side {same}")
}

// A million times the byte 'a'. The ensures gives only the length, which lending the array as a slice needs.
fn million() -> [u8; 1000000]
    ensures { 1000000 ≡ length result }
{
    [97u8; 1000000]
}

fn hex(rt: &HostRuntime, x: u8) -> io::Result<()> {
    print!(rt; "{x:02x}")
}

// A line: two bytes, the sign of an operation between them, and its result.
fn equation(rt: &HostRuntime, a: u8, sign: &str, b: u8, c: u8) -> io::Result<()> {
    hex(rt, a)?;
    print!(rt; "{sign}")?;
    hex(rt, b)?;
    print!(rt; " = ")?;
    hex(rt, c)?;
    print!(rt; "\n")
}

fn product(rt: &HostRuntime, a: u8, b: u8) -> io::Result<()> {
    equation(rt, a, " * ", b, field::product(a, b))
}

// A line: the fragments 0 to 4 of the column a b, then the column as decoded from fragments 3 and 4.
fn column(rt: &HostRuntime, a: u8, b: u8) -> io::Result<()> {
    let item = [a, b];
    let mut desk = [0u8; 5];
    let mut back = [0u8; 2];
    let sources = [3u8, 4];
    let slots = terms::runs_of(5, 1);
    fragments::encode(&item, 2, &mut desk, slots);
    fragments::decode(&desk, slots, &sources, 2, &mut back);
    print!(rt; "column {:010x}", octets::get(&desk, 0, 5))?;
    println!(rt; " back {:04x}", octets::get(&back, 0, 2))
}

fn hashes(rt: &HostRuntime) -> io::Result<()> {
    hash(rt, "empty", b"", b"")?;
    hash(rt, "abc", b"", b"abc")?;
    hash(rt, "abc-after-ab", b"ab", b"c")?;
    hash(
        rt,
        "448-bits",
        b"",
        b"abcdbcdecdefdefgefghfghighijhijkijkljklmklmnlmnomnopnopq",
    )?;
    hash(
        rt,
        "896-bits",
        b"",
        b"abcdefghbcdefghicdefghijdefghijkefghijklfghijklmghijklmnhijklmnoijklmnopjklmnopqklmnopqrlmnopqrsmnopqrstnopqrstu",
    )?;
    let long = million();
    hash(rt, "million-a", b"", &long)?;
    hash(rt, "55-a-from-the-middle", b"", &long[3..58])
}

fn products(rt: &HostRuntime) -> io::Result<()> {
    equation(rt, 0x57, " + ", 0x83, 0x57 ^ 0x83)?;
    product(rt, 0x57, 0x83)?;
    product(rt, 0x57, 0x02)?;
    product(rt, 0x57, 0x04)?;
    product(rt, 0x57, 0x08)?;
    product(rt, 0x57, 0x10)?;
    product(rt, 0x57, 0x13)
}

fn main(rt: HostRuntime) -> io::Result<()> {
    hashes(&rt)?;
    products(&rt)?;
    column(&rt, 0x00, 0x80)?;
    column(&rt, 0x57, 0x57)
}
