// Opening a write and a read: document 01, "Refusal numbers", 1 and 13. No buffer is lent. The bound is a parameter inside, for reads
// that start below a timestamp.
ghost use Rattle.std.specs.Prelude.{◌≡◌};
ghost use Rattle.session.specs.Opening.{fresh_of, no_session, opening_number, opens, open_with, OpenCall};
ghost use Rattle.standing.specs.declared.Operation.TheVariants.{Write, Read};

use crate::Session;
use rounds::Heard;
use standing::{Operation, Round, Stage};
use terms::{Ask, Plan, Refusal, Timestamp};

// The session, with the answer. A refused opening has one that every call refuses.
#[derive(Clone, Copy)]
pub struct Opened {
    pub session: Session,
    pub answer: Result<(), Refusal>,
}

impl Session {
    // A session that asks, with all marks unheard and the fields not in use zero.
    fn fresh(operation: Operation, round: u64, bound: Option<Timestamp>, opening: Ask) -> Session
        ensures { result ≡ fresh_of operation round bound opening }
    {
        let times = clock::zero_times();
        let stamp = terms::zero_stamp();
        let first = Round {
            stage: Stage::Asking,
            number: round,
            bound: bound,
        };
        Session {
            operation: operation,
            round: first,
            opening: opening,
            times: times,
            stamp: stamp,
            marks: [Heard::Unheard; 16],
        }
    }

    // A session that every call refuses: its round is 0, which is in no range.
    pub fn none(operation: Operation) -> Session
        ensures { result ≡ no_session operation }
    {
        Session::fresh(operation, 0, None, Ask(0))
    }

    // An operation in its round 1, below this bound.
    fn begin(operation: Operation, bound: Option<Timestamp>, p: Plan, opening: Ask) -> Opened
        ensures { opens (opening_number result.answer) result.session ≡ open_with operation bound p opening }
    {
        let none = Session::none(operation);
        if !terms::plan_ok(p) {
            return Opened {
                session: none,
                answer: Err(Refusal::OutsidePlan),
            };
        }
        if !terms::opening_ok(p, opening) {
            return Opened {
                session: none,
                answer: Err(Refusal::AskTooHigh),
            };
        }
        let session = Session::fresh(operation, 1, bound, opening);
        Opened {
            session: session,
            answer: Ok(()),
        }
    }

    // Opens a write.
    pub fn open_write(p: Plan, opening: Ask) -> Opened
        ensures { OpenCall Write p opening result }
    {
        Session::begin(Operation::Write, None, p, opening)
    }

    // Opens a read.
    pub fn open_read(p: Plan, opening: Ask) -> Opened
        ensures { OpenCall Read p opening result }
    {
        Session::begin(Operation::Read, None, p, opening)
    }
}
