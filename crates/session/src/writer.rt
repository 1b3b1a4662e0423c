// A reply to a writer. Document 01, "The client", writing, with document 02, Q-2: a time round, in which the session keeps each node's time;
// the reply that ends it fills the desk with all N records of the item lent with it; then a write round.
ghost use Rattle.std.specs.Prelude.{◌≡◌, true, List, ℕ, ◌*◌, ◌≤◌, ◌<◌, length};
ghost use Rattle.terms.specs.Ladder.{first};
ghost use Rattle.terms.specs.Terms.{plan_ok, record_length};
ghost use Rattle.terms.specs.Stamp.{time};
ghost use Rattle.frame.specs.Frame.{framed, body_of, header_in};
ghost use Rattle.standing.specs.declared.Operation.TheVariants.{Write};
ghost use Rattle.session.specs.Session.{said_of};
ghost use Rattle.session.specs.Reply.{reply_ladder};
ghost use Rattle.session.specs.Writer.{timed_of, kth_reply, leaves, time_turn, write_turn, accepted_write, WriteReplyCall};

use crate::reply::Reply;
use crate::{Answer, Session, Took};
use frame::Header;
use rounds::Heard;
use standing::Operation;
use terms::{Accepted, Plan, Time};

// The time that a time reply bears.
fn time_in(h: Header, reply: &[u8]) -> Time
    requires { framed h.version 8 ≤ length reply.now }
    ensures { result.0 ≡ time (body_of reply.now) }
{
    let at = frame::head_bytes(h.version);
    Time(octets::word(reply, at))
}

impl Session {
    // Node i heard, with a time.
    fn timed(mut self, i: usize, t: Time) -> Session
        requires { i < 16 }
        ensures { result ≡ timed_of self i t.0 }
    {
        self.times[i] = t;
        self.marks[i] = Heard::Record;
        self
    }

    // Q-2: the (b+1)-th greatest of the time replies.
    fn kth_reply(self, p: Accepted) -> Time
        ensures { result.0 ≡ kth_reply p.plan self }
    {
        let marks = self.marks;
        let times = self.times;
        clock::kth_greatest(marks, times, p.plan.b + 1)
    }

    // The time round, after a reply: open, or at N-t replies the write round opens, with all records made.
    fn time_turn(self, p: Accepted, desk: &mut [u8], item: &[u8], cross: &mut [u8]) -> Took
        requires { (length item.now ≡ p.plan.m * p.plan.f) × (length desk.old ≡ p.plan.n * record_length p.plan) × (512 ≤ length cross.old) }
        ensures { leaves (said_of result.answer) result.session desk.new ≡ time_turn p.plan self desk.old item.now }
    {
        if self.round_open(p) {
            return Took {
                session: self,
                answer: Ok(Answer::Open),
            };
        }
        let g = self.kth_reply(p);
        if clock::spent(g) {
            let s = self.over();
            return Took {
                session: s,
                answer: Ok(Answer::ClockSpent),
            };
        }
        let t = recover::write_records(p, Time(g.0 + 1), item, desk, cross);
        let s = self.store(t);
        Took {
            session: s,
            answer: Ok(Answer::Open),
        }
    }

    // The write round, after a reply: open, or done at N-t replies.
    fn write_turn(self, p: Accepted) -> Took
        ensures { (d : List ℕ) → leaves (said_of result.answer) result.session d ≡ write_turn p.plan self d }
    {
        if self.round_open(p) {
            return Took {
                session: self,
                answer: Ok(Answer::Open),
            };
        }
        let t = self.stamp;
        let s = self.over();
        Took {
            session: s,
            answer: Ok(Answer::Done(t, 0)),
        }
    }

    // A reply that nothing refuses.
    fn accept_write(self, f: Reply, desk: &mut [u8], item: &[u8], cross: &mut [u8]) -> Took
        requires { (first (reply_ladder Write f.plan.plan self f.bytes.now desk.old (length item.now)) (λ k. k) 0 ≡ 0) × (512 ≤ length cross.old) }
        ensures { leaves (said_of result.answer) result.session desk.new
            ≡ accepted_write f.entry.plan.plan self f.entry.bytes.now desk.old item.now }
    {
        let p = f.plan;
        let i = f.head.node as usize;
        let now = self.round;
        if now.storing() {
            let s = self.marked(i, Heard::Record);
            return s.write_turn(p);
        }
        let s = self.timed(i, time_in(f.head, f.bytes));
        s.time_turn(p, desk, item, cross)
    }

    // The call, with room for a cross checksum.
    fn write_with(
        self,
        p: Plan,
        reply: &[u8],
        desk: &mut [u8],
        item: &[u8],
        cross: &mut [u8],
    ) -> Took
        requires { 512 ≤ length cross.old }
        ensures { WriteReplyCall p self reply.now desk.old item.now result desk.new }
    {
        let c = self.check(Operation::Write, p, reply, &desk[..], item.len());
        match c {
            Err(k) => Took {
                session: self,
                answer: Err(k),
            },
            Ok(h) => {
                let f = Reply {
                    plan: Accepted { plan: p },
                    head: h,
                    bytes: reply,
                };
                self.accept_write(f, desk, item, cross)
            }
        }
    }

    // A reply to a writer.
    pub fn write_reply(self, p: Plan, reply: &[u8], desk: &mut [u8], item: &[u8]) -> Took
        ensures { WriteReplyCall p self reply.now desk.old item.now result desk.new }
    {
        let mut cross = [0u8; 512];
        self.write_with(p, reply, desk, item, &mut cross)
    }
}
