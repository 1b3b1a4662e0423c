// The hash and the fragment code as C links them: libprimitives.a is this crate's archive, for the host tests and the timings. Each export is
// the function of `primitives` with the same name, calls it, and states its clauses again.
#![tactic(auto)]

ghost use Rattle.std.specs.Prelude.{◌++◌, length};
ghost use Rattle.sha256.specs.Sha256.{sha256};
ghost use Rattle.lanes.specs.Lanes.{hashed_into};
ghost use Rattle.terms.specs.Terms.{runs_of};
ghost use Rattle.fragments.specs.Fragments.{encoded, laid};
ghost use Rattle.primitives.specs.Calls.{Told, hash_fits, hashes_fit, messages, encode_fits, decode_fits};

// The hash of p and then s into out: FIPS 180-4.
#[unsafe(no_mangle)]
pub extern "C" fn primitives_sha256(p: &[u8], s: &[u8], out: &mut [u8]) -> u32
    ensures { Told
        (hash_fits (length p.now) (length s.now) (length out.old))
        (sha256 (p.now ++ s.now))
        result
        out.old
        out.new }
{
    primitives::primitives_sha256(p, s, out)
}

// The hashes of `count` messages side by side, each h bytes of heads and then f bytes of s, one after another into out.
#[unsafe(no_mangle)]
pub extern "C" fn primitives_hashes(
    heads: &[u8],
    h: usize,
    s: &[u8],
    f: usize,
    count: usize,
    out: &mut [u8],
) -> u32
    ensures { Told
        (hashes_fit count h f (length heads.now) (length s.now) (length out.old))
        (hashed_into heads.now s.now (messages h f count) 0 32 count out.old)
        result
        out.old
        out.new }
{
    primitives::primitives_hashes(heads, h, s, f, count, out)
}

// All n fragments of an item of m runs of f bytes, one after another, into desk.
#[unsafe(no_mangle)]
pub extern "C" fn primitives_encode(
    item: &[u8],
    n: usize,
    m: usize,
    f: usize,
    desk: &mut [u8],
) -> u32
    ensures { Told
        (encode_fits n m f (length item.now) (length desk.old))
        (encoded m item.now (runs_of n f) n desk.old)
        result
        desk.old
        desk.new }
{
    primitives::primitives_encode(item, n, m, f, desk)
}

// The item, from the fragments of the m nodes named, that of node p in desk at p * f.
#[unsafe(no_mangle)]
pub extern "C" fn primitives_decode(
    desk: &[u8],
    nodes: &[u8],
    m: usize,
    f: usize,
    item: &mut [u8],
) -> u32
    ensures { Told
        (decode_fits m f nodes.now (length desk.now) (length item.old))
        (laid desk.now (runs_of 16 f) nodes.now (runs_of m f) m item.old)
        result
        item.old
        item.new }
{
    primitives::primitives_decode(desk, nodes, m, f, item)
}
