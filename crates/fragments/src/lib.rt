// The fragments of an item: document 01, "Fragments". Sources and results lie in the slots of lent buffers, so that no fragment is copied
// to be used; a fragment that is among its sources is copied and not computed.
#![tactic(auto)]

ghost use Rattle.std.specs.Prelude.{◌≡◌, ℕ, ◌+◌, ◌*◌, ◌^◌, ◌≤◌, ◌<◌, length, get_or, take};
ghost use Rattle.field.specs.Field.{mul};
ghost use Rattle.terms.specs.Terms.{fragment_at, runs_of};
ghost use Rattle.fragments.specs.Fragments.{among, weight_of, value, tabulate, regenerated, Sources, Room, laid, encoded, from};
ghost use Rattle.fragments.specs.Basis.{distance_of, distances_of};
ghost use Rattle.fragments.specs.Inside.{points_of};

pub mod basis;

pub use basis::Basis;
use terms::Slots;

// The points of fragments 0 to 15.
const POINTS: [u8; 16] = [0, 1, 2, 3, 4, 5, 6, 7, 8, 9, 10, 11, 12, 13, 14, 15];

// Whether x is one of the points qs.
pub fn is_among(qs: &[u8], x: u8) -> bool
    ensures { result ≡ among x qs.now }
{
    qs.contains(&x)
}

// x + q, the distance of x from q, or 1 where q is p itself.
fn distance(x: u8, p: u8, q: u8) -> u8
    ensures { result ≡ distance_of x p q }
{
    if p == q { 1 } else { x ^ q }
}

// Each of a row times the distance of its x in `at` from q; the one whose own point is q stays.
fn times_distance(q: u8, at: &[u8; 16], points: &[u8; 16], row: &mut [u8; 16])
    ensures { (k : ℕ) → k < 16
        → get_or row.new k 0 ≡ mul (distance_of (get_or at.now k 0) (get_or points.now k 0) q) (get_or row.old k 0) }
{
    for k in 0..16 {
        row[k] = field::product(distance(at[k], points[k], q), row[k]);
    }
}

// Each of a row times the distances of its x in `at` from the first m points but its own.
// m is at most 16 here and below, as many as a row holds: it comes from a plan or from the points, and a type for it would be opened at each index.
fn times_distances(m: usize, at: &[u8; 16], points: &[u8; 16], row: &mut [u8; 16])
    requires { m ≤ 16 }
    ensures { (k : ℕ) → k < 16 → get_or row.new k 0
        ≡ mul (get_or row.old k 0) (distances_of (take m points.now) (get_or at.now k 0) (get_or points.now k 0)) }
{
    for q in &points[..m] {
        times_distance(*q, at, points, row);
    }
}

// The basis of the points qs.
pub fn basis_of(qs: &[u8]) -> Basis
    requires { length qs.now ≤ 16 }
    ensures { points_of result ≡ qs.now }
{
    let size = qs.len();
    let mut points = [0u8; 16];
    points[..size].copy_from_slice(qs);
    let mut scales = [1u8; 16];
    times_distances(size, &points, &points, &mut scales);
    field::invert(&mut scales);
    Basis {
        points,
        scales,
        size,
    }
}

// The weight of each point for the value at x.
fn weights(b: Basis, x: u8) -> [u8; 16]
    ensures { (k : ℕ) → k < b.size → get_or result k 0 ≡ weight_of (points_of b) x (get_or (points_of b) k 0) }
{
    let points = b.points;
    let at = [x; 16];
    let mut row = b.scales;
    times_distances(b.size, &at, &points, &mut row);
    row
}

// The place of the fragment of each point, in the slots s.
fn places(b: Basis, s: Slots) -> [usize; 16]
    requires { (k : ℕ) → k < b.size → fragment_at s (get_or (points_of b) k 0) < 2 ^ 64 }
    ensures { (k : ℕ) → k < b.size → get_or result k 0 ≡ fragment_at s (get_or (points_of b) k 0) }
{
    let first = s.head;
    let stride = s.size;
    let points = b.points;
    let m = b.size;
    let mut r = [0usize; 16];
    for k in 0..m {
        let p = points[k] as usize;
        r[k] = first + p * stride;
    }
    r
}

// The value at x, for each byte of out, through the fragments of the basis: the sources added up, each times its weight.
fn combine(src: &[u8], s: Slots, b: Basis, x: u8, out: &mut [u8])
    requires { (Sources src.now s (points_of b)) × (length out.old ≡ s.fragment) }
    ensures { out.new
        ≡ tabulate s.fragment (λ i. value (points_of b) (λ p. get_or src.now (fragment_at s p + i) 0) x) }
{
    let m = b.size;
    let w = weights(b, x);
    let at = places(b, s);
    field::sums::combine(src, &at[..m], &w[..m], out);
}

// Fragment x, from those of the basis in the slots s, as the whole of out.
// What `Sources` says of src, slots and basis, here and in recover, is one word of the specs; the three come from different calls.
pub fn regenerate(src: &[u8], s: Slots, b: Basis, x: u8, out: &mut [u8])
    requires { (Sources src.now s (points_of b)) × (length out.old ≡ s.fragment) }
    ensures { out.new ≡ regenerated src.now s (points_of b) x }
{
    if b.has(x) {
        octets::copy(src, s.head + (x as usize) * s.size, s.fragment, out, 0);
    } else {
        combine(src, s, b, x, out);
    }
}

// A fragment for each of the slots to, from those of the basis in the slots s.
fn lay(src: &[u8], s: Slots, b: Basis, out: &mut [u8], to: Slots)
    requires { (Sources src.now s (points_of b)) × (s.fragment ≡ to.fragment) × (to.n ≤ 16) × (Room to to.n out.old) }
    ensures { out.new ≡ laid src.now s (points_of b) to to.n out.old }
{
    for k in 0..to.n {
        let a = to.head + k * to.size;
        let e = a + to.fragment;
        regenerate(src, s, b, k as u8, &mut out[a..e]);
    }
}

// A fragment of an item of m runs for each of the slots to of desk.
pub fn encode(item: &[u8], m: usize, desk: &mut [u8], to: Slots)
    requires { (length item.now ≡ m * to.fragment) × (m ≤ 16) × (to.n ≤ 16) × (Room to to.n desk.old) }
    ensures { desk.new ≡ encoded m item.now to to.n desk.old }
{
    let points = POINTS;
    let runs = terms::runs_of(m, to.fragment);
    let b = basis_of(&points[..m]);
    lay(item, runs, b, desk, to);
}

// The m runs of an item, from the fragments of the points qs in the slots s of desk.
pub fn decode(desk: &[u8], s: Slots, qs: &[u8], m: usize, item: &mut [u8])
    requires { (Sources desk.now s qs.now) × (m ≤ 16) × (length item.old ≡ m * s.fragment) × (length qs.now ≤ 16) }
    ensures { item.new ≡ laid desk.now s qs.now (runs_of m s.fragment) m item.old }
{
    let runs = terms::runs_of(m, s.fragment);
    let b = basis_of(qs);
    lay(desk, s, b, item, runs);
}

// The item from the first m slots of desk, those of points 0 to m - 1.
pub fn collect(desk: &[u8], s: Slots, m: usize, item: &mut [u8])
    requires { (m ≤ 16) × (length item.old ≡ m * s.fragment) × (Room s m desk.now) }
    ensures { item.new ≡ laid desk.now s (from 0 m) (runs_of m s.fragment) m item.old }
{
    let points = POINTS;
    decode(desk, s, &points[..m], m, item);
}
