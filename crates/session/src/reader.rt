// A reply to a reader. Document 01, "The client", reading, and Figure 3 of the report: an accepted reply is a mark, and a record in its
// slot; at N-t replies the round closes, and the reader acts on the close.
ghost use Rattle.std.specs.Prelude.{◌≡◌, true, false, ◌+◌, ◌*◌, length};
ghost use Rattle.terms.specs.Ladder.{first};
ghost use Rattle.terms.specs.Terms.{plan_ok, record_length};
ghost use Rattle.frame.specs.Frame.{good_reply, header_in};
ghost use Rattle.std.specs.Prelude.{Some};
ghost use Rattle.rounds.specs.Rounds.{told};
ghost use Rattle.session.specs.Session.{said_of};
ghost use Rattle.session.specs.Reply.{bears, record_ladder, check_number};
ghost use Rattle.session.specs.Inside.{Acting};
ghost use Rattle.session.specs.Reader.{outcome, failing, act_on, acted, settled, heard, stored, accepted, ReadReplyCall};

use crate::reply::Reply;
use crate::{Answer, Session, Took};
use rounds::{Close, Heard};
use standing::Operation;
use terms::{Accepted, Plan, Refusal, Timestamp, Verdict};

// Whether a reply bears a record, and not the first triple.
fn bears_record(f: Reply) -> bool
    ensures { result ≡ bears f.entry.plan.plan f.entry.bytes.now }
{
    let h = f.head;
    let kind = h.kind;
    if kind != frame::READ_REPLY {
        return false;
    }
    let at = frame::head_bytes(h.version);
    f.bytes.len() == at + terms::record_length(f.plan)
}

impl Session {
    // What a reply that bears a record is refused for: 5, 6, 12, in this order.
    fn check_record(self, f: Reply) -> Result<(), Refusal>
        ensures { check_number result ≡ first (record_ladder f.entry.plan.plan self f.entry.bytes.now) (λ k. k) 0 }
    {
        let h = f.head;
        if !bears_record(f) {
            return Ok(());
        }
        let at = frame::head_bytes(h.version);
        if record::time_zero(f.bytes, at) {
            return Err(Refusal::TimeZero);
        }
        if !record::hashes_ok(f.plan, h.node, f.bytes, at) {
            return Err(Refusal::HashFails);
        }
        let now = self.round;
        let b = now.bound;
        if !rounds::under(b, f.bytes, at) {
            return Err(Refusal::NotBelow);
        }
        Ok(())
    }

    // Incomplete, or validation failed: the next round opens below t, or the rounds are spent.
    fn fall(self, p: Accepted, t: Timestamp, desk: &[u8], item: &[u8]) -> Took
        ensures { outcome (said_of result.answer) result.session desk.now item.now ≡ failing p.plan self t desk.now item.now }
    {
        let round = self.round.number;
        if round >= p.plan.w {
            let s = self.over();
            return Took {
                session: s,
                answer: Ok(Answer::RoundsSpent(round)),
            };
        }
        let s = self.next(t);
        Took {
            session: s,
            answer: Ok(Answer::Open),
        }
    }

    // What a closed round comes to, where node a leads the candidate's set.
    fn act_on(self, p: Accepted, c: Close, a: usize, desk: &mut [u8], item: &mut [u8]) -> Took
        requires { (Acting p.plan c desk.old item.old) × (c.lead ≡ Some a) }
        ensures { outcome (said_of result.answer) result.session desk.new item.new ≡ act_on c.verdict p.plan self (told c) a desk.old item.old }
    {
        let v = c.verdict;
        let t = c.stamp;
        let round = self.round.number;
        match v {
            Verdict::Complete => {
                if !recover::validate(p, c, a, &desk[..]) {
                    return self.fall(p, t, &desk[..], &item[..]);
                }
                recover::decode(p, c, a, &desk[..], item);
                let s = self.over();
                Took {
                    session: s,
                    answer: Ok(Answer::Done(t, round)),
                }
            }
            Verdict::Repair => {
                if !recover::validate(p, c, a, &desk[..]) {
                    return self.fall(p, t, &desk[..], &item[..]);
                }
                recover::repair(p, c, a, desk);
                let s = self.store(t);
                Took {
                    session: s,
                    answer: Ok(Answer::Open),
                }
            }
            Verdict::Aborted => {
                let s = self.over();
                Took {
                    session: s,
                    answer: Ok(Answer::Aborted(round)),
                }
            }
            Verdict::Incomplete => self.fall(p, t, &desk[..], &item[..]),
        }
    }

    // What a closed round comes to.
    fn act(self, p: Accepted, c: Close, desk: &mut [u8], item: &mut [u8]) -> Took
        requires { Acting p.plan c desk.old item.old }
        ensures { outcome (said_of result.answer) result.session desk.new item.new ≡ acted p.plan self (told c) desk.old item.old }
    {
        let l = c.lead;
        let round = self.round.number;
        match l {
            None => {
                let s = self.over();
                Took {
                    session: s,
                    answer: Ok(Answer::NeverWritten(round)),
                }
            }
            Some(a) => self.act_on(p, c, a, desk, item),
        }
    }

    // After a mark in a read round: still open, or closed and acted on.
    fn settle(self, p: Accepted, desk: &mut [u8], item: &mut [u8]) -> Took
        requires { (length desk.old ≡ p.plan.n * record_length p.plan) × (length item.old ≡ p.plan.m * p.plan.f) }
        ensures { outcome (said_of result.answer) result.session desk.new item.new ≡ settled p.plan self desk.old item.old }
    {
        if self.round_open(p) {
            return Took {
                session: self,
                answer: Ok(Answer::Open),
            };
        }
        let marks = self.marks;
        let slots = terms::slots_of(p);
        let member = p.plan.member;
        let t = terms::thresholds_of(p);
        let c = rounds::closing(marks, &desk[..], slots, member, t);
        self.act(p, c, desk, item)
    }

    // An accepted reply of a read round.
    fn hear(self, f: Reply, desk: &mut [u8], item: &mut [u8]) -> Took
        requires { (length desk.old ≡ f.plan.plan.n * record_length f.plan.plan) × (length item.old ≡ f.plan.plan.m * f.plan.plan.f) }
        ensures { outcome (said_of result.answer) result.session desk.new item.new ≡ heard f.entry.plan.plan self f.entry.bytes.now desk.old item.old }
    {
        let p = f.plan;
        let h = f.head;
        let i = h.node as usize;
        if !bears_record(f) {
            let s = self.marked(i, Heard::First);
            return s.settle(p, desk, item);
        }
        let r = terms::record_length(p);
        let at = frame::head_bytes(h.version);
        octets::copy(f.bytes, at, r, desk, i * r);
        let s = self.marked(i, Heard::Record);
        s.settle(p, desk, item)
    }

    // After a mark in a repair round: still open, or done, with the item from the first m slots.
    fn keep(self, p: Accepted, desk: &[u8], item: &mut [u8]) -> Took
        requires { (length desk.now ≡ p.plan.n * record_length p.plan) × (length item.old ≡ p.plan.m * p.plan.f) }
        ensures { outcome (said_of result.answer) result.session desk.now item.new ≡ stored p.plan self desk.now item.old }
    {
        if self.round_open(p) {
            return Took {
                session: self,
                answer: Ok(Answer::Open),
            };
        }
        let t = self.stamp;
        let round = self.round.number;
        recover::collect(p, desk, item);
        let s = self.over();
        Took {
            session: s,
            answer: Ok(Answer::Done(t, round)),
        }
    }

    // An accepted reply.
    fn accept(self, f: Reply, desk: &mut [u8], item: &mut [u8]) -> Took
        requires { (length desk.old ≡ f.plan.plan.n * record_length f.plan.plan) × (length item.old ≡ f.plan.plan.m * f.plan.plan.f) }
        ensures { outcome (said_of result.answer) result.session desk.new item.new ≡ accepted f.entry.plan.plan self f.entry.bytes.now desk.old item.old }
    {
        let now = self.round;
        if now.storing() {
            let i = f.head.node as usize;
            let s = self.marked(i, Heard::Record);
            return s.keep(f.plan, &desk[..], item);
        }
        self.hear(f, desk, item)
    }

    // A reply to a reader.
    pub fn read_reply(self, p: Plan, reply: &[u8], desk: &mut [u8], item: &mut [u8]) -> Took
        ensures { ReadReplyCall p self reply.now desk.old item.old result desk.new item.new }
    {
        match self.check(Operation::Read, p, reply, &desk[..], item.len()) {
            Err(k) => Took {
                session: self,
                answer: Err(k),
            },
            Ok(h) => {
                let f = Reply {
                    plan: Accepted { plan: p },
                    head: h,
                    bytes: reply,
                };
                match self.check_record(f) {
                    Err(k) => Took {
                        session: self,
                        answer: Err(k),
                    },
                    Ok(()) => self.accept(f, desk, item),
                }
            }
        }
    }
}
