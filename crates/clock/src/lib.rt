// The clock of a writer: document 02, Q-2. The time replies of a time round are kept by node; the new time is one above the k-th greatest of
// them, k = b + 1, so that b nodes that lie cannot use up the clock. Only the entries of nodes that are heard count.
#![tactic(auto)]

ghost use Rattle.std.specs.Prelude.{◌≡◌, eqb, leb, ltb};
ghost use Rattle.terms.specs.Ladder.{◌and◌};
ghost use Rattle.terms.specs.Stamp.{top};
ghost use Rattle.rounds.specs.Rounds.{bit_of};
ghost use Rattle.clock.specs.Clock.{zero_times, times_heard, or_more, kth_greatest};

use rounds::Heard;
use terms::Time;

// The times before any reply.
pub fn zero_times() -> [Time; 16]
    ensures { result ≡ zero_times }
{
    [Time(0); 16]
}

// How many of the time replies are v or more.
fn or_more(marks: &[Heard; 16], times: &[Time; 16], v: Time) -> u64
    ensures { result ≡ or_more v.0 (times_heard marks.now times.now) }
{
    marks
        .iter()
        .zip(times.iter())
        .filter(|(m, t)| **m != Heard::Unheard && t.0 >= v.0)
        .count() as u64
}

// Whether at least k of the time replies are v or more.
fn enough(marks: &[Heard; 16], times: &[Time; 16], v: Time, k: u64) -> bool
    ensures { result ≡ leb k (or_more v.0 (times_heard marks.now times.now)) }
{
    or_more(marks, times, v) >= k
}

// Whether a node is heard with a time above the best so far.
fn rises(h: Heard, t: Time, best: Time) -> bool
    ensures { result ≡ (eqb (bit_of h) 1 and ltb best.0 t.0) }
{
    h != Heard::Unheard && best.0 < t.0
}

// The k-th greatest of the time replies, equal values counted each: the greatest such that at least k of them are that or more; 0 where there are
// fewer than k. A loop over the best so far: a chain counts for every reply, where this counts for those alone that are above it.
pub fn kth_greatest(marks: [Heard; 16], times: [Time; 16], k: u64) -> Time
    ensures { result.0 ≡ kth_greatest k (times_heard marks times) }
{
    let mut best = Time(0);
    for i in 0..16 {
        let t = times[i];
        if rises(marks[i], t, best) && enough(&marks, &times, t, k) {
            best = t;
        }
    }
    best
}

// Whether a time has no next: 2^64-1.
pub fn spent(t: Time) -> bool
    ensures { result ≡ eqb t.0 top }
{
    t.0 == u64::MAX
}
