// The smallest plan for a wish, for site staff before any book is made.
ghost use Rattle.pasis.specs.Plans.{SmallestServes};

// The smallest N, and with it the smallest Q, that document 01 accepts for t, b, m and a member: one byte each. Order 1, 2, 20.
pub fn pasis_smallest_plan(member: u8, t: u64, b: u64, m: u64, counts: &mut [u8]) -> u32
    ensures { SmallestServes member t b m counts.old result counts.new }
{
    let w = packing::wish_of(member, t, b, m);
    let a = wish::smallest_plan(w);
    let k = answers::number(a);
    let outside = k == 1;
    if outside {
        return 1;
    }
    if counts.len() != 2 {
        return 2;
    }
    answers::put_counts(a, counts);
    k
}
