// Where an operation stands: document 01, "The client". The operation, and the round that it is in: its stage, its number, its bound. What
// a round awaits and asks for, the rules of refusal 9 on it and on the marks heard in it, and how it gives way to the next. lengths.rt has
// the lengths of what a caller lends.
#![tactic(auto)]

pub mod lengths;

ghost use Rattle.std.specs.Prelude.{◌≡◌, true, not, ◌+◌, ◌*◌, ◌≤◌, ◌<◌, length, ltb, leb, eqb};
ghost use Rattle.octets.specs.Bytes.{over};
ghost use Rattle.terms.specs.Terms.{plan_ok, record_length, slots_of};
ghost use Rattle.terms.specs.Ladder.{◌or◌};
ghost use Rattle.frame.specs.Frame.{framed};
ghost use Rattle.rounds.specs.Rounds.{heard_count, none_first, slots_fit};
ghost use Rattle.standing.specs.Standing.{is_read, is_asking, is_storing, is_ended, read_in, same_operation, in_stage, next_round, replies, ask_in, awaits_in, bound_ok, round_rules, read_request};
ghost use Rattle.standing.specs.declared.Stage.TheVariants.{Storing, Ended};

use rounds::Heard;
use terms::{Accepted, Ask, Timestamp};

#[derive(Clone, Copy, PartialEq, Eq)]
pub enum Operation {
    Write,
    Read,
}

// Asking: a time or a read round. Storing: a write or a repair round.
#[derive(Clone, Copy, PartialEq, Eq)]
pub enum Stage {
    Asking,
    Storing,
    Ended,
}

// The round that an operation is in.
#[derive(Clone, Copy, PartialEq, Eq)]
pub struct Round {
    // What it does: it asks, it stores, or it is over and was the last.
    pub stage: Stage,
    // From 1: read rounds are counted, a write stays in round 1.
    pub number: u64,
    // A read round above 1 asks for records below this timestamp.
    pub bound: Option<Timestamp>,
}

pub fn reads(o: Operation) -> bool
    ensures { result ≡ is_read o }
{
    o == Operation::Read
}

// Whether a session's operation is the one that a call serves.
pub fn same_operation(op: Operation, o: Operation) -> bool
    ensures { result ≡ same_operation op o }
{
    op == o
}

// "round 1 to W, and 1 in a write"
fn counts(o: Operation, round: u64) -> bool
    ensures { result ≡ (is_read o or eqb round 1) }
{
    reads(o) || round == 1
}

// Whether a round with these marks is open: fewer than N-t nodes are heard. Else it is over.
pub fn is_open(p: Accepted, marks: [Heard; 16]) -> bool
    ensures { result ≡ ltb (heard_count marks) (replies p.plan) }
{
    rounds::count(marks) < p.plan.n - p.plan.t
}

// A read round's request: the latest record where there is no bound, else the one before it.
pub fn read_request(b: Option<Timestamp>, node: u64, ask: Ask, request: &mut [u8]) -> usize
    requires { framed 1 40 ≤ length request.old }
    ensures { (request.new ≡ over (read_request b node ask.0) request.old) × (result ≡ length (read_request b node ask.0)) }
{
    match b {
        None => frame::latest(request, node, ask),
        Some(u) => frame::previous(request, node, ask, u),
    }
}

impl Round {
    pub fn asking(self) -> bool
        ensures { result ≡ is_asking self.stage }
    {
        self.stage == Stage::Asking
    }

    pub fn storing(self) -> bool
        ensures { result ≡ is_storing self.stage }
    {
        self.stage == Stage::Storing
    }

    pub fn ended(self) -> bool
        ensures { result ≡ is_ended self.stage }
    {
        self.stage == Stage::Ended
    }

    // Whether it is a read round.
    pub fn reading(self, o: Operation) -> bool
        ensures { result ≡ read_in o self }
    {
        reads(o) && self.asking()
    }

    // The same round, the last.
    pub fn over(self) -> Round
        ensures { result ≡ in_stage self Ended }
    {
        Round {
            stage: Stage::Ended,
            ..self
        }
    }

    // The write or repair round that follows it.
    pub fn store(self) -> Round
        ensures { result ≡ in_stage self Storing }
    {
        Round {
            stage: Stage::Storing,
            ..self
        }
    }

    // The next read round, below t.
    pub fn next(self, t: Timestamp) -> Round
        requires { self.number < 65535 }
        ensures { result ≡ next_round self t }
    {
        Round {
            stage: Stage::Asking,
            number: self.number + 1,
            bound: Some(t),
        }
    }

    // The ask number of the round: one more in a write or repair round.
    #[tactic(auto, unfolding(crate::specs::Standing::ask_in))]
    pub fn asked(self, opening: Ask) -> Ask
        requires { (1 ≤ self.number) × (opening.0 + self.number ≤ 18446744073709551615) }
        ensures { result.0 ≡ ask_in opening.0 self }
    {
        if self.storing() {
            return Ask(opening.0 + self.number);
        }
        Ask(opening.0 + (self.number - 1))
    }

    // Whether the round awaits replies of kind k.
    #[tactic(auto, unfolding(crate::specs::Standing::awaits_in))]
    pub fn awaits_kind(self, o: Operation, k: u64) -> bool
        ensures { result ≡ awaits_in o self k }
    {
        if self.storing() {
            return k == frame::WRITE_REPLY;
        }
        if reads(o) {
            return k == frame::READ_REPLY;
        }
        k == frame::TIME_REPLY
    }

    // "A bound exactly when round is above 1, time 1 or more."
    fn bound_ok(self) -> bool
        ensures { result ≡ bound_ok self.bound self.number }
    {
        match self.bound {
            None => self.number <= 1,
            Some(u) => self.number > 1 && u.time.0 >= 1,
        }
    }

    // The rules of refusal 9 on the round.
    #[tactic(auto, unfolding(crate::specs::Standing::round_rules, terms::specs::Ladder::all))]
    pub fn stands(self, w: u64, o: Operation) -> bool
        ensures { result ≡ round_rules w o self }
    {
        self.number >= 1 && self.number <= w && counts(o, self.number) && self.bound_ok()
    }

    // "A timestamp being written of time 1 or more."
    pub fn stamp_ok(self, t: Timestamp) -> bool
        ensures { result ≡ (not (is_storing self.stage) or leb 1 t.time.0) }
    {
        !self.storing() || t.time.0 >= 1
    }

    // "No first triple mark in a time or write round."
    pub fn firsts_ok(self, o: Operation, marks: [Heard; 16]) -> bool
        ensures { result ≡ (read_in o self or none_first marks) }
    {
        self.reading(o) || rounds::none_first(marks)
    }

    // "in a read round each slot marked 'record' must hold a time of 1 or more and a timestamp below the bound, if there is one"
    pub fn slots_ok(self, o: Operation, marks: [Heard; 16], p: Accepted, desk: &[u8]) -> bool
        requires { length desk.now ≡ p.plan.n * record_length p.plan }
        ensures { result ≡ (not (read_in o self) or slots_fit marks desk.now (slots_of p.plan) self.bound p.plan.n) }
    {
        !self.reading(o) || rounds::slots_fit(marks, desk, terms::slots_of(p), self.bound)
    }
}
