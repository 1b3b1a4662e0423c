// The session of a client: document 01, "The client". A value handed in and handed back; its methods take a reply and return the next
// session with its answer. opening.rt has the opening, owed.rt the request owed to a node, reader.rt a reply to a reader, writer.rt one to
// a writer.
#![tactic(auto)]

pub mod opening;
pub mod owed;
mod reader;
mod reply;
mod writer;

ghost use Rattle.std.specs.Prelude.{◌≡◌, true, ◌+◌, ◌-◌, ◌*◌, ◌≤◌, ◌<◌, length};
ghost use Rattle.terms.specs.Terms.{plan_ok, record_length};
ghost use Rattle.terms.specs.Ladder.{first, ◌or◌};
ghost use Rattle.frame.specs.Frame.{write_reply_kind, framed, header_in};
ghost use Rattle.session.specs.Session.{round_open, marked_of, ended_of, next_of, storing_of};
ghost use Rattle.session.specs.Ranges.{standing_rules, open_rules, in_range};
ghost use Rattle.session.specs.Reply.{awaited, is_heard, awaited_ladder, reply_ladder, taken_number, Headed};

use frame::Header;
use reply::Reply;
use rounds::Heard;
use standing::{Operation, Round, lengths};
use terms::{Accepted, Ask, Plan, Refusal, Time, Timestamp};

// What a client knows between two replies. A field that is not in use is zero, or as its round left it, and no call looks at it.
#[derive(Clone, Copy)]
pub struct Session {
    pub operation: Operation,
    pub round: Round,
    // The ask number of round 1.
    pub opening: Ask,
    // For each node, the time that it replied in a time round; only those of nodes that are heard count.
    pub times: [Time; 16],
    // The timestamp being written, in a write or repair round.
    pub stamp: Timestamp,
    // For each node, what was heard of it in this round.
    pub marks: [Heard; 16],
}

// The answer to a reply that nothing refuses. Endings of a read bear the rounds used; those of a write bear 0.
#[derive(Clone, Copy, PartialEq, Eq)]
pub enum Answer {
    Open,
    Done(Timestamp, u64),
    NeverWritten(u64),
    Aborted(u64),
    RoundsSpent(u64),
    ClockSpent,
}

// The next session, with the answer; where the reply is refused, the session that was given.
#[derive(Clone, Copy)]
pub struct Took {
    pub session: Session,
    pub answer: Result<Answer, Refusal>,
}

impl Session {
    // Node i heard, with h.
    // The number of a node is below 16 here and below by the ladder of the call: a type for it would be opened at each index.
    fn marked(mut self, i: usize, h: Heard) -> Session
        requires { i < 16 }
        ensures { result ≡ marked_of self i h }
    {
        self.marks[i] = h;
        self
    }

    // The same session, ended.
    fn over(mut self) -> Session
        ensures { result ≡ ended_of self }
    {
        let now = self.round;
        let round = now.over();
        self.round = round;
        self
    }

    // The next read round, below t: all marks unheard.
    fn next(mut self, t: Timestamp) -> Session
        requires { self.round.number < 65535 }
        ensures { result ≡ next_of self t }
    {
        let now = self.round;
        let round = now.next(t);
        self.round = round;
        let marks = [Heard::Unheard; 16];
        self.marks = marks;
        self
    }

    // The write or repair round that stores t: all marks unheard.
    fn store(mut self, t: Timestamp) -> Session
        ensures { result ≡ storing_of self t }
    {
        let now = self.round;
        let round = now.store();
        self.round = round;
        self.stamp = t;
        let marks = [Heard::Unheard; 16];
        self.marks = marks;
        self
    }

    // The rules of refusal 9 that every session meets.
    fn stands(self, p: Accepted) -> bool
        ensures { result ≡ standing_rules p.plan self }
    {
        let now = self.round;
        let o = self.operation;
        if !now.stands(p.plan.w, o) {
            return false;
        }
        let marks = self.marks;
        if !rounds::rest_unheard(marks, p.plan.n as usize) {
            return false;
        }
        let a = self.opening;
        terms::opening_ok(p.plan, a)
    }

    // Whether the round is open, and not over.
    fn round_open(self, p: Accepted) -> bool
        ensures { result ≡ round_open p.plan self }
    {
        let marks = self.marks;
        standing::is_open(p, marks)
    }

    // The rules of refusal 9 that an open session meets.
    fn open_ok(self, p: Accepted, desk: &[u8]) -> bool
        requires { length desk.now ≡ p.plan.n * record_length p.plan }
        ensures { result ≡ open_rules p.plan self desk.now }
    {
        let now = self.round;
        let t = self.stamp;
        if !now.stamp_ok(t) {
            return false;
        }
        let o = self.operation;
        let marks = self.marks;
        if !now.firsts_ok(o, marks) {
            return false;
        }
        if !standing::is_open(p, marks) {
            return false;
        }
        now.slots_ok(o, marks, p, desk)
    }

    // Refusal 9: whether the session is in its ranges.
    fn ranges_ok(self, p: Accepted, desk: &[u8]) -> bool
        requires { length desk.now ≡ p.plan.n * record_length p.plan }
        ensures { result ≡ in_range p.plan self desk.now }
    {
        if !self.stands(p) {
            return false;
        }
        let now = self.round;
        if now.ended() {
            return true;
        }
        self.open_ok(p, desk)
    }

    // Refusal 10: whether ask number, kind and write timestamp are the ones awaited.
    fn awaits(self, f: Reply) -> bool
        requires { (1 ≤ self.round.number) × (self.opening.0 + self.round.number ≤ 18446744073709551615) }
        ensures { result ≡ awaited self f.entry.bytes.now }
    {
        let h = f.head;
        let now = self.round;
        let opening = self.opening;
        let ask = now.asked(opening);
        if !frame::answers(h, ask) {
            return false;
        }
        let o = self.operation;
        if !now.awaits_kind(o, h.kind) {
            return false;
        }
        if !now.storing() {
            return true;
        }
        let at = frame::head_bytes(h.version);
        let t = terms::stamp_at(f.bytes, at);
        let u = self.stamp;
        t.same(u)
    }

    // Refusal 11: whether node i is already heard.
    fn has_heard(self, i: usize) -> bool
        requires { i < 16 }
        ensures { result ≡ is_heard self i }
    {
        let marks = self.marks;
        rounds::has_heard(marks, i)
    }

    // What a good reply is refused for: 10, 11. Past them, its header.
    fn check_awaited(self, f: Reply) -> Result<Header, Refusal>
        requires { (1 ≤ self.round.number) × (self.opening.0 + self.round.number ≤ 18446744073709551615) }
        ensures { (taken_number result ≡ first (awaited_ladder self f.entry.bytes.now) (λ k. k) 0) × Headed result f.entry.bytes.now }
    {
        if !self.awaits(f) {
            return Err(Refusal::NotAwaited);
        }
        if self.has_heard(f.head.node as usize) {
            return Err(Refusal::AlreadyHeard);
        }
        Ok(f.head)
    }

    // What a reply to a client is refused for: 1, 2, 9, 14, 4, 10, 11, in this order. Past them, the header that was read at the door.
    fn check(
        self,
        op: Operation,
        p: Plan,
        frame: &[u8],
        desk: &[u8],
        item: usize,
    ) -> Result<Header, Refusal>
        ensures { (taken_number result ≡ first (reply_ladder op p self frame.now desk.now item) (λ k. k) 0) × Headed result frame.now }
    {
        if !terms::plan_ok(p) {
            return Err(Refusal::OutsidePlan);
        }
        let accepted = Accepted { plan: p };
        if !lengths::lengths_ok(accepted, desk.len(), item) {
            return Err(Refusal::WrongLength);
        }
        let o = self.operation;
        if !standing::same_operation(op, o) {
            return Err(Refusal::OutOfRange);
        }
        if !self.ranges_ok(accepted, desk) {
            return Err(Refusal::OutOfRange);
        }
        let now = self.round;
        if now.ended() {
            return Err(Refusal::HasEnded);
        }
        let Some(h) = frame::reply_at(accepted, frame) else {
            return Err(Refusal::WrongFrame);
        };
        self.check_awaited(Reply {
            plan: accepted,
            head: h,
            bytes: frame,
        })
    }
}
