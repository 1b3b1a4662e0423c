// A client's calls: opening a write or a read, the request owed to a node, a reply to a writer or a reader. The host holds the session as
// 237 bytes between the calls, and lends 42 bytes for the ending.
ghost use Rattle.std.specs.Prelude.{◌≡◌, cond, eqb, length};
ghost use Rattle.standing.specs.declared.Operation.TheVariants.{Write, Read};
ghost use Rattle.session.specs.Session.{said_of};
ghost use Rattle.session.specs.Opening.{opening_number, OpenCall};
ghost use Rattle.packing.specs.SessionBytes.{session_length, session_bytes};
ghost use Rattle.answers.specs.Answers.{number_of, answer_number, ending_after};
ghost use Rattle.pasis.specs.Client.{session_after, OpenServes, OwedServes, WriteServes, ReadServes};

use session::opening::Opened;
use session::{Answer, Session, Took};
use standing::Operation;
use terms::{Ask, Plan, Refusal};

// Writes the session of an accepted opening.
fn keep_opened(o: Opened, session: &mut [u8]) -> Result<(), Refusal>
    requires { length session.old ≡ session_length }
    ensures { (number_of result ≡ opening_number o.answer)
        × (session.new ≡ cond (eqb (opening_number o.answer) 0) (session_bytes o.session) session.old) }
{
    o.answer?;
    packing::write_session(o.session, session);
    Ok(())
}

// The opening of an operation.
fn open_as(op: Operation, p: Plan, ask: Ask) -> Opened
    ensures { OpenCall op p ask result }
{
    match op {
        Operation::Write => Session::open_write(p, ask),
        Operation::Read => Session::open_read(p, ask),
    }
}

// Opens an operation into the session bytes.
fn open_into(op: Operation, plan: &[u8], ask: u64, session: &mut [u8]) -> Result<(), Refusal>
    ensures { OpenServes op plan.now ask session.old (number_of result) session.new }
{
    let p = packing::plan_of(plan);
    answers::lent(p, session.len() == packing::SESSION)?;
    keep_opened(open_as(op, p, Ask(ask)), session)
}

// Opens a write.
pub fn pasis_open_write(plan: &[u8], ask: u64, session: &mut [u8]) -> u32
    ensures { OpenServes Write plan.now ask session.old result session.new }
{
    answers::number(open_into(Operation::Write, plan, ask, session))
}

// Opens a read.
pub fn pasis_open_read(plan: &[u8], ask: u64, session: &mut [u8]) -> u32
    ensures { OpenServes Read plan.now ask session.old result session.new }
{
    answers::number(open_into(Operation::Read, plan, ask, session))
}

// The length of the request frame owed to a node, which is written into the request buffer.
fn owed_into(
    plan: &[u8],
    session: &[u8],
    node: u64,
    desk: &[u8],
    request: &mut [u8],
) -> Result<usize, Refusal>
    ensures { OwedServes plan.now session.now node desk.now request.old (number_of result) request.new }
{
    let p = packing::plan_of(plan);
    answers::lent(p, session.len() == packing::SESSION)?;
    let s = packing::session_of(session);
    s.owed(p, node, desk, request)
}

// The request frame owed to a node, into the request buffer.
pub fn pasis_owed(plan: &[u8], session: &[u8], node: u64, desk: &[u8], request: &mut [u8]) -> u32
    ensures { OwedServes
        plan.now
        session.now
        node
        desk.now
        request.old
        result
        request.new }
{
    answers::number(owed_into(plan, session, node, desk, request))
}

// Writes the session and the ending that a reply left, unless it is refused; its answer goes on.
fn keep_took(t: Took, session: &mut [u8], ending: &mut [u8]) -> Result<Answer, Refusal>
    requires { (length session.old ≡ session_length) × (length ending.old ≡ 42) }
    ensures { (result ≡ t.answer) × (session.new ≡ session_after (said_of t.answer) t.session session.old)
        × (ending.new ≡ ending_after (said_of t.answer) ending.old) }
{
    let accepted = t.answer?;
    packing::write_session(t.session, session);
    answers::put_ending(Ok(accepted), ending);
    Ok(accepted)
}

// The answer to a writer's reply.
fn written_into(
    plan: &[u8],
    session: &mut [u8],
    reply: &[u8],
    desk: &mut [u8],
    item: &[u8],
    ending: &mut [u8],
) -> Result<Answer, Refusal>
    ensures { WriteServes plan.now session.old reply.now desk.old item.now ending.old (answer_number (said_of result)) session.new desk.new ending.new }
{
    let p = packing::plan_of(plan);
    answers::lent(p, answers::both_fit(session.len(), ending.len()))?;
    let s = packing::session_of(&session[..]);
    let t = s.write_reply(p, reply, desk, item);
    keep_took(t, session, ending)
}

// A reply to a writer. The item is the one to be written; it is read at the reply that ends the time round.
pub fn pasis_write_reply(
    plan: &[u8],
    session: &mut [u8],
    reply: &[u8],
    desk: &mut [u8],
    item: &[u8],
    ending: &mut [u8],
) -> u32
    ensures { WriteServes
        plan.now
        session.old
        reply.now
        desk.old
        item.now
        ending.old
        result
        session.new
        desk.new
        ending.new }
{
    answers::answer_number(written_into(plan, session, reply, desk, item, ending))
}

// The answer to a reader's reply.
fn read_into(
    plan: &[u8],
    session: &mut [u8],
    reply: &[u8],
    desk: &mut [u8],
    item: &mut [u8],
    ending: &mut [u8],
) -> Result<Answer, Refusal>
    ensures { ReadServes plan.now session.old reply.now desk.old item.old ending.old (answer_number (said_of result)) session.new desk.new item.new ending.new }
{
    let p = packing::plan_of(plan);
    answers::lent(p, answers::both_fit(session.len(), ending.len()))?;
    let s = packing::session_of(&session[..]);
    let t = s.read_reply(p, reply, desk, item);
    keep_took(t, session, ending)
}

// A reply to a reader. The item buffer is written at "done" only.
pub fn pasis_read_reply(
    plan: &[u8],
    session: &mut [u8],
    reply: &[u8],
    desk: &mut [u8],
    item: &mut [u8],
    ending: &mut [u8],
) -> u32
    ensures { ReadServes
        plan.now
        session.old
        reply.now
        desk.old
        item.old
        ending.old
        result
        session.new
        desk.new
        item.new
        ending.new }
{
    answers::answer_number(read_into(plan, session, reply, desk, item, ending))
}
