// The request frame owed to an unheard node: document 01, "The client". It may be asked for as often as wanted: the session comes by
// value and stays as it is.
ghost use Rattle.std.specs.Prelude.{◌≡◌, ◌*◌, length};
ghost use Rattle.octets.specs.Bytes.{over};
ghost use Rattle.terms.specs.Ladder.{first};
ghost use Rattle.session.specs.Reply.{check_number};
ghost use Rattle.session.specs.Owed.{owed_ladder, request_of, OwedCall};

use crate::Session;
use standing::lengths;
use terms::{Accepted, Plan, Refusal};

impl Session {
    // What a request owed is refused for: 1, 2, 9, 14, 4, 11, in this order.
    fn owed_check(self, p: Plan, node: u64, desk: &[u8], request: usize) -> Result<(), Refusal>
        ensures { check_number result ≡ first (owed_ladder p self node desk.now request) (λ k. k) 0 }
    {
        if !terms::plan_ok(p) {
            return Err(Refusal::OutsidePlan);
        }
        let accepted = Accepted { plan: p };
        if !lengths::room_ok(accepted, desk.len(), request) {
            return Err(Refusal::WrongLength);
        }
        if !self.ranges_ok(accepted, desk) {
            return Err(Refusal::OutOfRange);
        }
        let now = self.round;
        if now.ended() {
            return Err(Refusal::HasEnded);
        }
        if node >= p.n {
            return Err(Refusal::WrongFrame);
        }
        if self.has_heard(node as usize) {
            return Err(Refusal::AlreadyHeard);
        }
        Ok(())
    }

    // The request of the open round, where nothing refuses it: a time request, a read request, or the node's record of the desk.
    fn write_request(self, p: Accepted, node: u64, desk: &[u8], request: &mut [u8]) -> usize
        requires { first (owed_ladder p.plan self node desk.now (length request.old)) (λ k. k) 0 ≡ 0 }
        ensures { (request.new ≡ over (request_of p.plan self node desk.now) request.old)
            × (result ≡ length (request_of p.plan self node desk.now)) }
    {
        let now = self.round;
        let opening = self.opening;
        let ask = now.asked(opening);
        let r = terms::record_length(p);
        if now.storing() {
            let h = frame::asking(frame::WRITE_REQUEST, node, ask);
            return frame::with_part(request, h, desk, (node as usize) * r, r);
        }
        let o = self.operation;
        if standing::reads(o) {
            let b = now.bound;
            return standing::read_request(b, node, ask, request);
        }
        let h = frame::asking(frame::TIME_REQUEST, node, ask);
        frame::bare(request, h)
    }

    // The request frame owed to a node, into the request buffer; bytes past it stay. Its length is told.
    pub fn owed(self, p: Plan, node: u64, desk: &[u8], request: &mut [u8]) -> Result<usize, Refusal>
        ensures { OwedCall p self node desk.now request.old result request.new }
    {
        self.owed_check(p, node, desk, request.len())?;
        let accepted = Accepted { plan: p };
        Ok(self.write_request(accepted, node, desk, request))
    }
}
