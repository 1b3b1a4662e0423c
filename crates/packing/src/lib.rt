// A plan and a session as bytes, for a host that holds them between calls. Reading takes any bytes: those that code no plan give one
// outside its rules, those that code no session one in no range, so that every call refuses them 1 and 9 by itself.
#![tactic(auto)]

ghost use Rattle.std.specs.Prelude.{◌≡◌, length};
ghost use Rattle.octets.specs.Bytes.{put};
ghost use Rattle.terms.specs.Stamp.{stamp_at};
ghost use Rattle.packing.specs.PlanBytes.{field, member_of, clients_of, plan_shaped, plan_at, plan_of, wish_of};
ghost use Rattle.packing.specs.SessionBytes.{session_length, bound_bytes, times_bytes, mark_bytes, round_bytes, ask_bytes, heard_bytes, session_bytes, operation_of, stage_of, heard_of, bound_shaped, bound_of, times_at, marks_shaped, marks_of, session_shaped, round_at, session_at, session_of};

use rounds::Heard;
use session::Session;
use standing::{Operation, Round, Stage};
use terms::{Ask, Clients, Member, Plan, Time, Timestamp};
use wish::Wish;

// The bytes of a plan.
const PLAN: usize = 11;

// The bytes of a session.
pub const SESSION: usize = 237;

// Where a session's marks begin.
const MARKS: usize = 221;

// A byte that codes no case is told before (plan_shaped, session_shaped, wish_of), so reading a case from its number cannot fail, as a TryFrom would.
#[tactic(auto, unfolding(crate::specs::PlanBytes::member_of))]
fn member_of(k: u64) -> Member
    ensures { result ≡ member_of k }
{
    match k {
        0 => Member::Repairable,
        _ => Member::NonRepair,
    }
}

#[tactic(auto, unfolding(crate::specs::PlanBytes::clients_of))]
fn clients_of(k: u64) -> Clients
    ensures { result ≡ clients_of k }
{
    match k {
        0 => Clients::Crash,
        _ => Clients::Byzantine,
    }
}

// A wish of a member byte, t, b and m.
#[tactic(auto, unfolding(crate::specs::PlanBytes::wish_of))]
pub fn wish_of(member: u8, t: u64, b: u64, m: u64) -> Wish
    ensures { result ≡ wish_of member t b m }
{
    if member > 1 {
        return NO_WISH;
    }
    Wish {
        member: member_of(member as u64),
        t,
        b,
        m,
    }
}

// A wish that the call refuses: m is 0.
const NO_WISH: Wish = Wish {
    member: Member::Repairable,
    t: 0,
    b: 0,
    m: 0,
};

// Whether some bytes code a plan.
#[tactic(auto, unfolding(crate::specs::PlanBytes::plan_shaped, terms::specs::Ladder::all))]
fn plan_shaped(x: &[u8; PLAN]) -> bool
    ensures { result ≡ plan_shaped x.now }
{
    octets::get(x, 7, 1) <= 1 && octets::get(x, 8, 1) <= 1
}

// The plan of 11 bytes.
#[tactic(auto, unfolding(crate::specs::PlanBytes::plan_at))]
fn plan_at(x: &[u8; PLAN]) -> Plan
    ensures { result ≡ plan_at x.now }
{
    Plan {
        n: octets::get(x, 0, 1),
        t: octets::get(x, 1, 1),
        b: octets::get(x, 2, 1),
        q: octets::get(x, 3, 1),
        m: octets::get(x, 4, 1),
        f: octets::get(x, 5, 2),
        member: member_of(octets::get(x, 7, 1)),
        clients: clients_of(octets::get(x, 8, 1)),
        w: octets::get(x, 9, 2),
    }
}

// A plan outside its rules: N is 0.
const NO_PLAN: Plan = Plan {
    n: 0,
    t: 0,
    b: 0,
    q: 0,
    m: 0,
    f: 0,
    member: Member::Repairable,
    clients: Clients::Crash,
    w: 0,
};

// Any bytes as a plan.
#[tactic(auto, unfolding(crate::specs::PlanBytes::plan_of))]
pub fn plan_of(x: &[u8]) -> Plan
    ensures { result ≡ plan_of x.now }
{
    match x.as_array::<PLAN>() {
        Some(b) if plan_shaped(b) => plan_at(b),
        _ => NO_PLAN,
    }
}

#[tactic(auto, unfolding(crate::specs::SessionBytes::operation_of))]
fn operation_of(k: u64) -> Operation
    ensures { result ≡ operation_of k }
{
    match k {
        0 => Operation::Write,
        _ => Operation::Read,
    }
}

#[tactic(auto, unfolding(crate::specs::SessionBytes::stage_of))]
fn stage_of(k: u64) -> Stage
    ensures { result ≡ stage_of k }
{
    match k {
        0 => Stage::Asking,
        1 => Stage::Storing,
        _ => Stage::Ended,
    }
}

#[tactic(auto, unfolding(crate::specs::SessionBytes::heard_of))]
fn heard_of(k: u8) -> Heard
    ensures { result ≡ heard_of k }
{
    match k {
        0 => Heard::Unheard,
        1 => Heard::First,
        _ => Heard::Record,
    }
}

// Whether the bytes of a bound code one: 0 and forty zeros, or 1 and a timestamp.
#[tactic(auto, unfolding(crate::specs::SessionBytes::bound_shaped))]
fn bound_shaped(x: &[u8; SESSION]) -> bool
    ensures { result ≡ bound_shaped (field x.now 4 1) (field x.now 5 40) }
{
    let k = octets::get(x, 4, 1);
    k == 1 || k == 0 && terms::stamp_at(x, 5).same(terms::zero_stamp())
}

#[tactic(auto, unfolding(crate::specs::SessionBytes::bound_of))]
fn bound_at(x: &[u8; SESSION]) -> Option<Timestamp>
    ensures { result ≡ bound_of (field x.now 4 1) (stamp_at x.now 5) }
{
    if octets::get(x, 4, 1) == 0 {
        return None;
    }
    Some(terms::stamp_at(x, 5))
}

// The 16 times of a session's bytes.
fn times_at(x: &[u8; SESSION]) -> [Time; 16]
    ensures { result ≡ times_at x.now 53 16 }
{
    std::array::from_fn(|i| Time(octets::word(x, 53 + 8 * i)))
}

// Whether each byte codes a mark.
fn marks_shaped(b: &[u8]) -> bool
    ensures { result ≡ marks_shaped b.now }
{
    b.iter().all(|k| *k <= 2)
}

// The marks of 16 bytes.
fn marks_of(b: &[u8]) -> [Heard; 16]
    requires { length b.now ≡ 16 }
    ensures { result ≡ marks_of b.now }
{
    let mut marks = [Heard::Unheard; 16];
    for (i, k) in b.iter().enumerate() {
        marks[i] = heard_of(*k);
    }
    marks
}

// Whether some bytes code a session.
#[tactic(auto, unfolding(crate::specs::SessionBytes::session_shaped, terms::specs::Ladder::all, octets::specs::Bytes::part))]
fn session_shaped(x: &[u8; SESSION]) -> bool
    ensures { result ≡ session_shaped x.now }
{
    octets::get(x, 0, 1) <= 1
        && octets::get(x, 1, 1) <= 2
        && bound_shaped(x)
        && marks_shaped(&x[MARKS..])
}

// The round of a session's bytes.
#[tactic(auto, unfolding(crate::specs::SessionBytes::round_at))]
fn round_at(x: &[u8; SESSION]) -> Round
    ensures { result ≡ round_at x.now }
{
    Round {
        stage: stage_of(octets::get(x, 1, 1)),
        number: octets::get(x, 2, 2),
        bound: bound_at(x),
    }
}

// The session of its bytes.
#[tactic(auto, unfolding(crate::specs::SessionBytes::session_at, octets::specs::Bytes::part))]
fn session_at(x: &[u8; SESSION]) -> Session
    ensures { result ≡ session_at x.now }
{
    Session {
        operation: operation_of(octets::get(x, 0, 1)),
        round: round_at(x),
        opening: Ask(octets::word(x, 45)),
        times: times_at(x),
        stamp: terms::stamp_at(x, 181),
        marks: marks_of(&x[MARKS..]),
    }
}

// Any bytes as a session. Two returns, since a session is large: where both ways meet before it is written, a call for a host takes a tenth more.
#[tactic(auto, unfolding(crate::specs::SessionBytes::session_of))]
pub fn session_of(x: &[u8]) -> Session
    ensures { result ≡ session_of x.now }
{
    if let Some(b) = x.as_array::<SESSION>() {
        if session_shaped(b) {
            return session_at(b);
        }
    }
    Session::none(Operation::Read)
}

// The bound, in its place: 0 and forty zeros, or 1 and the timestamp.
fn write_bound(x: &mut [u8; SESSION], b: Option<Timestamp>)
    ensures { x.new ≡ put x.old 4 (bound_bytes b) }
{
    octets::put_num(x, 4, 1, b.is_some() as u64);
    terms::put_stamp(x, 5, b.unwrap_or(terms::zero_stamp()));
}

// The times, in their place.
fn write_times(x: &mut [u8; SESSION], times: [Time; 16])
    ensures { x.new ≡ put x.old 53 (times_bytes times) }
{
    for (i, t) in times.iter().enumerate() {
        octets::put_word(x, 53 + 8 * i, t.0);
    }
}

// The marks, in their place.
fn write_marks(x: &mut [u8; SESSION], marks: [Heard; 16])
    ensures { x.new ≡ put x.old 221 (mark_bytes marks) }
{
    for (i, h) in marks.iter().enumerate() {
        x[MARKS + i] = *h as u8;
    }
}

// A round, in its place.
fn write_round(x: &mut [u8; SESSION], r: Round)
    ensures { x.new ≡ put x.old 1 (round_bytes r) }
{
    octets::put_num(x, 1, 1, r.stage as u64);
    octets::put_num(x, 2, 2, r.number);
    write_bound(x, r.bound);
}

// What a session asks with: the first 53 bytes.
fn write_asks(x: &mut [u8; SESSION], s: Session)
    ensures { x.new ≡ put x.old 0 (ask_bytes s) }
{
    octets::put_num(x, 0, 1, s.operation as u64);
    write_round(x, s.round);
    octets::put_word(x, 45, s.opening.0);
}

// What it has heard: the other 184.
fn write_heard(x: &mut [u8; SESSION], s: Session)
    ensures { x.new ≡ put x.old 53 (heard_bytes s) }
{
    write_times(x, s.times);
    terms::put_stamp(x, 181, s.stamp);
    write_marks(x, s.marks);
}

// A session as its bytes.
pub fn write_session(s: Session, x: &mut [u8])
    requires { length x.old ≡ session_length }
    ensures { x.new ≡ session_bytes s }
{
    let b = x.as_mut_array::<SESSION>().unwrap();
    write_asks(b, s);
    write_heard(b, s);
}
