// The smallest plan for a wish. Document 02, Q-1: site staff know t, b, m and the member, and get the smallest N, and with it the smallest Q,
// that document 01 accepts. The contract says "smallest"; the code goes by the closed forms, which are proved to be it.
#![tactic(auto)]

ghost use Rattle.std.specs.Prelude.{◌≡◌, false, ◌≤◌};
ghost use Rattle.wish.specs.Wish.{outside, unmet, SmallestCall};
ghost use Rattle.wish.specs.Closed.{nodes_for, quorum_for};

use terms::{Member, Refusal};

// What site staff know: t nodes may be silent or worse, b of them may lie, and m fragments give the block.
#[derive(Clone, Copy, PartialEq, Eq)]
pub struct Wish {
    pub member: Member,
    pub t: u64,
    pub b: u64,
    pub m: u64,
}

// The counts of a plan that a wish leaves open.
#[derive(Clone, Copy, PartialEq, Eq)]
pub struct Counts {
    pub n: u64,
    pub q: u64,
}

// Whether b is above t, or m is 0: refusal 1.
fn is_outside(w: Wish) -> bool
    ensures { result ≡ outside w }
{
    w.t < w.b || w.m == 0
}

// The smallest N, by its closed form. No sum wraps: each number is at most 16.
fn nodes_for(w: Wish) -> u64
    requires { (w.t ≤ 16) × (w.b ≤ 16) × (w.m ≤ 16) }
    ensures { result ≡ nodes_for w }
{
    let rest = w.m + 2 * w.t + w.b;
    match w.member {
        Member::Repairable => rest.max(2 * w.t + 2 * w.b + 1),
        Member::NonRepair => rest.max(3 * w.t + 3 * w.b + 1),
    }
}

// The smallest Q for it.
fn quorum_for(w: Wish) -> u64
    requires { (w.t ≤ 16) × (w.b ≤ 16) × (w.m ≤ 16) }
    ensures { result ≡ quorum_for w }
{
    match w.member {
        Member::Repairable => (w.m + w.t).max(w.t + w.b + 1),
        Member::NonRepair => w.m.max(w.t + 2 * w.b + 1) - w.b,
    }
}

// Whether no N and Q up to 16 are accepted: refusal 20. What is above 16 is told before any sum is made of it.
fn is_unmet(w: Wish) -> bool
    requires { outside w ≡ false }
    ensures { result ≡ unmet w }
{
    if w.t > 16 || w.m > 16 {
        return true;
    }
    nodes_for(w) > 16
}

// The call: the smallest N, and with it the smallest Q, that document 01 accepts for a wish; or why there is none.
pub fn smallest_plan(w: Wish) -> Result<Counts, Refusal>
    ensures { SmallestCall w result }
{
    if is_outside(w) {
        return Err(Refusal::OutsidePlan);
    }
    if is_unmet(w) {
        return Err(Refusal::NoPlan);
    }
    let n = nodes_for(w);
    let q = quorum_for(w);
    Ok(Counts { n, q })
}
