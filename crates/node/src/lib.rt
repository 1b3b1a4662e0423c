// The storage-node: one request frame against one book, and a fresh book. Document 01, "The node" and "Refusal numbers". Both calls take
// any input: they check all of it, refuse by the first number that applies, and change no byte then.
#![tactic(auto)]

ghost use Rattle.std.specs.Prelude.{◌≡◌, true, false, ◌+◌, ◌≤◌, length};
ghost use Rattle.octets.specs.Bytes.{part, be};
ghost use Rattle.terms.specs.Terms.{plan_ok};
ghost use Rattle.terms.specs.Stamp.{stamp, time};
ghost use Rattle.frame.specs.Frame.{time_reply_kind, write_request_kind, write_reply_kind, read_reply_kind, framed, replying, body_of, Wrote};
ghost use Rattle.record.specs.Record.{stamp_of};
ghost use Rattle.book.specs.Records.{last_of, last_below};
ghost use Rattle.book.specs.Book.{records_in, Holds};
ghost use Rattle.node.specs.Inside.{finished, Open, Fitting, Admitted};
ghost use Rattle.node.specs.Node.{book_reply_ok, time_fails, hash_fails, served_outcome, said_served, responded, NodeCall};
ghost use Rattle.node.specs.Fresh.{FreshCall};

use book::{Book, Fate, Span};
use frame::Header;
use terms::{Accepted, Plan, Refusal};

// What was read at the door of a call: the header of the request, and that of the book that it is for.
#[derive(Clone, Copy, PartialEq, Eq)]
pub struct Asked {
    pub frame: Header,
    pub book: Book,
}

// 2: the lengths of the lent book and reply buffer.
fn lengths_ok(p: Accepted, book: usize, reply: usize) -> bool
    ensures { result ≡ book_reply_ok p.plan book reply }
{
    if !book::lent(book) {
        return false;
    }
    frame::holds_any(1, p, reply)
}

// 5: time 0 in a record or a bound.
fn zero_time(p: Accepted, h: Header, request: &[u8]) -> bool
    requires { Fitting p.plan h request.now }
    ensures { result ≡ time_fails h (body_of request.now) }
{
    let at = frame::head_bytes(h.version);
    let kind = h.kind;
    match kind {
        frame::WRITE_REQUEST | frame::READ_PREVIOUS => record::time_zero(request, at),
        _ => false,
    }
}

// 6: a hash check of a record to write fails.
fn hash_fails(p: Accepted, h: Header, request: &[u8]) -> bool
    requires { Fitting p.plan h request.now }
    ensures { result ≡ hash_fails p.plan h (body_of request.now) }
{
    let kind = h.kind;
    if kind != frame::WRITE_REQUEST {
        return false;
    }
    let at = frame::head_bytes(h.version);
    !record::hashes_ok(p, h.node, request, at)
}

// The reply to a write: its timestamp. Each reply tells the length of its frame.
fn acknowledge(h: Header, request: &[u8], reply: &mut [u8]) -> usize
    requires { (framed h.version 40 ≤ length request.now) × (framed h.version 40 ≤ length reply.old) }
    ensures { Wrote (replying h write_reply_kind) (stamp_of (body_of request.now)) reply.old result reply.new }
{
    let g = frame::replying(h, frame::WRITE_REPLY);
    let at = frame::head_bytes(h.version);
    frame::with_part(reply, g, request, at, 40)
}

// The reply to a read: the record at a span of the book, or none.
fn send(h: Header, book: &[u8], s: Span, reply: &mut [u8]) -> usize
    requires { (s.at + s.len ≤ length book.now) × (framed h.version s.len ≤ length reply.old) }
    ensures { Wrote (replying h read_reply_kind) (part book.now s.at s.len) reply.old result reply.new }
{
    let g = frame::replying(h, frame::READ_REPLY);
    frame::with_part(reply, g, book, s.at, s.len)
}

// The reply to a time request: the time of the last record.
fn tell_time(a: Asked, book: &[u8], reply: &mut [u8]) -> usize
    requires { Holds a.book book.now × (framed a.frame.version 8 ≤ length reply.old) }
    ensures { Wrote (replying a.frame time_reply_kind) (be 8 (time (last_of (records_in a.book book.now)))) reply.old result reply.new }
{
    let g = frame::replying(a.frame, frame::TIME_REPLY);
    let t = book::last_time(a.book, book);
    frame::with_time(reply, g, t)
}

// The reply to a read of the latest record: the last one.
fn latest(a: Asked, book: &[u8], reply: &mut [u8]) -> usize
    requires { Holds a.book book.now × (framed a.frame.version a.book.each ≤ length reply.old) }
    ensures { Wrote (replying a.frame read_reply_kind) (last_of (records_in a.book book.now)) reply.old result reply.new }
{
    let s = book::last(a.book, book);
    send(a.frame, book, s, reply)
}

// The reply to a read of the record before a bound: the last one strictly below it.
fn previous(a: Asked, request: &[u8], book: &[u8], reply: &mut [u8]) -> usize
    requires { Holds a.book book.now × (framed a.frame.version a.book.each ≤ length reply.old) × (framed a.frame.version 40 ≤ length request.now) }
    ensures { Wrote (replying a.frame read_reply_kind) (last_below (stamp (body_of request.now)) (records_in a.book book.now)) reply.old result reply.new }
{
    let h = a.frame;
    let at = frame::head_bytes(h.version);
    let s = book::last_below(a.book, book, request, at);
    send(h, book, s, reply)
}

// A write. The record finds its place once: refusals 7 and 8, the acknowledgement and the insertion go by that one fate.
// What was admitted, here and below, is one word of the specs; the book is lent to be written, so a type of it would have to promise what stays of it.
fn write(
    p: Accepted,
    a: Asked,
    request: &[u8],
    book: &mut [u8],
    reply: &mut [u8],
) -> Result<usize, Refusal>
    requires { Admitted p.plan a request.now book.old reply.old × (a.frame.kind ≡ write_request_kind) }
    ensures { served_outcome (said_served result) book.new reply.new ≡ finished p.plan a.frame (body_of request.now) book.old reply.old }
{
    let h = a.frame;
    let k = a.book;
    let at = frame::head_bytes(h.version);
    let fate = book::fate_of(k, book, request, at);
    match fate {
        Fate::Held => Ok(acknowledge(h, request, reply)),
        Fate::Other => Err(Refusal::OtherBytes),
        Fate::Free(i) => {
            if !book::room(k, book.len()) {
                return Err(Refusal::NoRoom);
            }
            book::insert(k, book, i, request, at);
            Ok(acknowledge(h, request, reply))
        }
    }
}

// A request that refusals 5 and 6 do not meet, by its kind.
fn by_kind(
    p: Accepted,
    a: Asked,
    request: &[u8],
    book: &mut [u8],
    reply: &mut [u8],
) -> Result<usize, Refusal>
    requires { Admitted p.plan a request.now book.old reply.old }
    ensures { served_outcome (said_served result) book.new reply.new ≡ finished p.plan a.frame (body_of request.now) book.old reply.old }
{
    let h = a.frame;
    let kind = h.kind;
    if kind == frame::WRITE_REQUEST {
        return write(p, a, request, book, reply);
    }
    if kind == frame::TIME_REQUEST {
        return Ok(tell_time(a, book, reply));
    }
    if kind == frame::READ_LATEST {
        return Ok(latest(a, book, reply));
    }
    Ok(previous(a, request, book, reply))
}

// The second part of the node's call, from refusal 5 on: a request whose frame and book passed the door.
pub fn respond(
    p: Accepted,
    a: Asked,
    request: &[u8],
    book: &mut [u8],
    reply: &mut [u8],
) -> Result<usize, Refusal>
    requires { Admitted p.plan a request.now book.old reply.old }
    ensures { served_outcome (said_served result) book.new reply.new ≡ responded p.plan a.frame (body_of request.now) book.old reply.old }
{
    let h = a.frame;
    if zero_time(p, h, request) {
        return Err(Refusal::TimeZero);
    }
    if hash_fails(p, h, request) {
        return Err(Refusal::HashFails);
    }
    by_kind(p, a, request, book, reply)
}

// The node's call from refusal 4 on: a request at a good book, whose header is k. A run of frames is served by this, frame by frame.
pub fn serve_at(
    p: Accepted,
    k: Book,
    request: &[u8],
    book: &mut [u8],
    reply: &mut [u8],
) -> Result<usize, Refusal>
    requires { Open p.plan k book.old reply.old }
    ensures { NodeCall p.plan request.now book.old reply.old result book.new reply.new }
{
    let Some(h) = frame::request_at(p, k.node, request) else {
        return Err(Refusal::WrongFrame);
    };
    let a = Asked { frame: h, book: k };
    respond(p, a, request, book, reply)
}

// The node's call: one request frame, the book and a reply buffer. Its first part is the door, refusals 1 to 4.
pub fn serve(p: Plan, request: &[u8], book: &mut [u8], reply: &mut [u8]) -> Result<usize, Refusal>
    ensures { NodeCall p request.now book.old reply.old result book.new reply.new }
{
    if !terms::plan_ok(p) {
        return Err(Refusal::OutsidePlan);
    }
    let accepted = Accepted { plan: p };
    if !lengths_ok(accepted, book.len(), reply.len()) {
        return Err(Refusal::WrongLength);
    }
    let Some(k) = book::good(accepted, book) else {
        return Err(Refusal::WrongBook);
    };
    serve_at(accepted, k, request, book, reply)
}

// A fresh book: its header alone.
pub fn fresh(p: Plan, node: u64, book: &mut [u8]) -> Result<(), Refusal>
    ensures { FreshCall p node book.old result book.new }
{
    if !terms::plan_ok(p) {
        return Err(Refusal::OutsidePlan);
    }
    if !book::lent(book.len()) {
        return Err(Refusal::WrongLength);
    }
    let n = p.n;
    if node >= n {
        return Err(Refusal::WrongFrame);
    }
    book::fresh(p, node, book);
    Ok(())
}
