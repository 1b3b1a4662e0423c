// The calls for a host as C links them: libpasis.a is this crate's archive. Each export is the function of `pasis` with the same name, calls it,
// and states its clauses again; a crate of the library calls that one. host/pasis.h declares them and is their manual.
#![tactic(auto)]

ghost use Rattle.std.specs.Prelude.{◌≡◌};
ghost use Rattle.packing.specs.SessionBytes.{session_length};
ghost use Rattle.pasis.specs.Client.{OpenServes, OwedServes, WriteServes, ReadServes};
ghost use Rattle.pasis.specs.Plans.{SmallestServes};
ghost use Rattle.pasis.specs.Store.{FreshBook, NodeServes, RunServes};
ghost use Rattle.standing.specs.declared.Operation.TheVariants.{Write, Read};

// The number of this interface: its layouts, calls and answers. Each of document 02's requests that changes them raises it.
#[unsafe(no_mangle)]
pub extern "C" fn pasis_interface() -> u32
    ensures { result ≡ 4 }
{
    pasis::pasis_interface()
}

// The bytes of a plan, of a session and of an ending.
#[unsafe(no_mangle)]
pub extern "C" fn pasis_plan_size() -> usize
    ensures { result ≡ 11 }
{
    pasis::pasis_plan_size()
}

#[unsafe(no_mangle)]
pub extern "C" fn pasis_session_size() -> usize
    ensures { result ≡ session_length }
{
    pasis::pasis_session_size()
}

#[unsafe(no_mangle)]
pub extern "C" fn pasis_ending_size() -> usize
    ensures { result ≡ 42 }
{
    pasis::pasis_ending_size()
}

// Makes a fresh book of a node: its first 11 bytes.
#[unsafe(no_mangle)]
pub extern "C" fn pasis_fresh_book(plan: &[u8], node: u64, book: &mut [u8]) -> u32
    ensures { FreshBook plan.now node book.old result book.new }
{
    pasis::storage::pasis_fresh_book(plan, node, book)
}

// Serves one request frame against one book, the reply frame into the reply buffer.
#[unsafe(no_mangle)]
pub extern "C" fn pasis_node(plan: &[u8], request: &[u8], book: &mut [u8], reply: &mut [u8]) -> u32
    ensures { NodeServes
        plan.now
        request.now
        book.old
        reply.old
        result
        book.new
        reply.new }
{
    pasis::storage::pasis_node(plan, request, book, reply)
}

// Serves a run of request frames against one book: the reply frames end to end, a number a frame, and what the run tells into 24 bytes.
#[unsafe(no_mangle)]
pub extern "C" fn pasis_run(
    plan: &[u8],
    run: &[u8],
    book: &mut [u8],
    reply: &mut [u8],
    numbers: &mut [u8],
    told: &mut [u8],
) -> u32
    ensures { RunServes
        plan.now
        run.now
        book.old
        reply.old
        numbers.old
        told.old
        result
        book.new
        reply.new
        numbers.new
        told.new }
{
    pasis::storage::pasis_run(plan, run, book, reply, numbers, told)
}

// Opens a write.
#[unsafe(no_mangle)]
pub extern "C" fn pasis_open_write(plan: &[u8], ask: u64, session: &mut [u8]) -> u32
    ensures { OpenServes Write plan.now ask session.old result session.new }
{
    pasis::client::pasis_open_write(plan, ask, session)
}

// Opens a read.
#[unsafe(no_mangle)]
pub extern "C" fn pasis_open_read(plan: &[u8], ask: u64, session: &mut [u8]) -> u32
    ensures { OpenServes Read plan.now ask session.old result session.new }
{
    pasis::client::pasis_open_read(plan, ask, session)
}

// The request frame owed to a node, into the request buffer.
#[unsafe(no_mangle)]
pub extern "C" fn pasis_owed(
    plan: &[u8],
    session: &[u8],
    node: u64,
    desk: &[u8],
    request: &mut [u8],
) -> u32
    ensures { OwedServes
        plan.now
        session.now
        node
        desk.now
        request.old
        result
        request.new }
{
    pasis::client::pasis_owed(plan, session, node, desk, request)
}

// A reply to a writer. The item is the one to be written; it is read at the reply that ends the time round.
#[unsafe(no_mangle)]
pub extern "C" fn pasis_write_reply(
    plan: &[u8],
    session: &mut [u8],
    reply: &[u8],
    desk: &mut [u8],
    item: &[u8],
    ending: &mut [u8],
) -> u32
    ensures { WriteServes
        plan.now
        session.old
        reply.now
        desk.old
        item.now
        ending.old
        result
        session.new
        desk.new
        ending.new }
{
    pasis::client::pasis_write_reply(plan, session, reply, desk, item, ending)
}

// A reply to a reader. The item buffer is written at "done" only.
#[unsafe(no_mangle)]
pub extern "C" fn pasis_read_reply(
    plan: &[u8],
    session: &mut [u8],
    reply: &[u8],
    desk: &mut [u8],
    item: &mut [u8],
    ending: &mut [u8],
) -> u32
    ensures { ReadServes
        plan.now
        session.old
        reply.now
        desk.old
        item.old
        ending.old
        result
        session.new
        desk.new
        item.new
        ending.new }
{
    pasis::client::pasis_read_reply(plan, session, reply, desk, item, ending)
}

// The smallest N, and with it the smallest Q, that document 01 accepts for t, b, m and a member: one byte each. Order 1, 2, 20.
#[unsafe(no_mangle)]
pub extern "C" fn pasis_smallest_plan(member: u8, t: u64, b: u64, m: u64, counts: &mut [u8]) -> u32
    ensures { SmallestServes member t b m counts.old result counts.new }
{
    pasis::plans::pasis_smallest_plan(member, t, b, m, counts)
}
