// Frames: cut out of a run of bytes, checked, built. Document 01, "Records, books, frames". Cutting says where a frame ends and looks at
// its length alone; the door of a party checks a frame and gives its header as a value. Builders write a header and a body over a buffer
// and tell the frame's length; bytes past it stay. Ask numbers and times are types of their own here: one is never taken for the other.
#![tactic(auto)]

ghost use Rattle.std.specs.Prelude.{◌≡◌, true, false, [], ◌+◌, ◌≤◌, ◌<◌, length, leb};
ghost use Rattle.octets.specs.Bytes.{part, over, be};
ghost use Rattle.terms.specs.Terms.{plan_ok};
ghost use Rattle.terms.specs.Stamp.{stamp_number};
ghost use Rattle.frame.specs.Frame.{read_latest_kind, read_previous_kind, head_bytes, framed, longest, header_in, header_of, replying, head_of, shaped, body_fits, for_party, suits, request_in, reply_in, answers_to, Wrote, cut_at};

use terms::{Accepted, Ask, Time, Timestamp};

// The kinds of frames. Each kind is its byte, as `header_in` and `replying` of the specs say it: a header holds any byte that came, and refusal 4 comes
// after the header is read.
pub const TIME_REQUEST: u64 = 1;

pub const TIME_REPLY: u64 = 2;

pub const WRITE_REQUEST: u64 = 3;

pub const WRITE_REPLY: u64 = 4;

pub const READ_LATEST: u64 = 5;

pub const READ_PREVIOUS: u64 = 6;

pub const READ_REPLY: u64 = 7;

// The bytes before a body in version 1.
const HEAD: usize = 15;

// All that stands before the body of a frame, read once at the door of a call.
#[derive(Clone, Copy, PartialEq, Eq)]
pub struct Header {
    pub version: u64,
    pub kind: u64,
    pub node: u64,
    pub ask: Ask,
}

// Who is lent a frame: refusal 4 asks for a kind for this party.
#[derive(Clone, Copy, PartialEq, Eq)]
pub enum Party {
    Node,
    Client,
}

// Where the frame that starts at `at` of a run of bytes ends, by its length field alone; none where no frame starts there.
#[tactic(auto, using(crate::proofs::Frames::cut_short, crate::proofs::Frames::cut_low, crate::proofs::Frames::cut_high, crate::proofs::Frames::cut_ends))]
pub fn cut_at(s: &[u8], at: usize) -> Option<usize>
    ensures { result ≡ cut_at s.now at }
{
    let end = s.len();
    if end < at {
        return None;
    }
    if end - at < 4 {
        return None;
    }
    let n = octets::get(s, at, 4) as usize;
    if n < 11 {
        return None;
    }
    if end - at - 4 < n {
        return None;
    }
    Some(at + 4 + n)
}

// The bytes before a body, by the version.
pub fn head_bytes(version: u64) -> usize
    ensures { result ≡ head_bytes version }
{
    HEAD
}

// All that stands before the body of a frame.
pub fn header_of(f: &[u8]) -> Header
    requires { head_bytes 1 ≤ length f.now }
    ensures { (result ≡ header_in f.now) × (result.kind < 256) × (result.node < 256) }
{
    let version = octets::get(f, 4, 1);
    let kind = octets::get(f, 5, 1);
    let node = octets::get(f, 6, 1);
    let ask = Ask(octets::word(f, 7));
    Header {
        version: version,
        kind: kind,
        node: node,
        ask: ask,
    }
}

// Whether a slice is one whole frame: its length, its length field and its version.
fn shaped(f: &[u8]) -> bool
    ensures { result ≡ shaped f.now }
{
    let n = f.len();
    if n < HEAD {
        return false;
    }
    if octets::get(f, 0, 4) != (n - 4) as u64 {
        return false;
    }
    octets::get(f, 4, 1) == 1
}

// Whether a frame of this kind may have a body of n bytes.
fn body_fits(p: Accepted, kind: u64, n: usize) -> bool
    ensures { result ≡ body_fits p.plan kind n }
{
    let r = terms::record_length(p);
    match kind {
        TIME_REQUEST | READ_LATEST => n == 0,
        TIME_REPLY => n == 8,
        WRITE_REQUEST => n == r,
        WRITE_REPLY | READ_PREVIOUS => n == 40,
        READ_REPLY => {
            if n == r {
                return true;
            }
            n == 0
        }
        _ => false,
    }
}

// Whether a kind is one for this party.
fn for_party(party: Party, kind: u64) -> bool
    ensures { result ≡ for_party party kind }
{
    match party {
        Party::Node => match kind {
            TIME_REQUEST | WRITE_REQUEST | READ_LATEST | READ_PREVIOUS => true,
            _ => false,
        },
        Party::Client => match kind {
            TIME_REPLY | WRITE_REPLY | READ_REPLY => true,
            _ => false,
        },
    }
}

// Whether a frame of n bytes is of a kind for this party, and its body of its kind.
fn suits(party: Party, p: Accepted, h: Header, n: usize) -> bool
    requires { head_bytes h.version ≤ n }
    ensures { result ≡ suits party p.plan h n }
{
    let kind = h.kind;
    if !for_party(party, kind) {
        return false;
    }
    let head = head_bytes(h.version);
    body_fits(p, kind, n - head)
}

// The door of a node: the header of a request for it. Where there is none, that is refusal 4.
#[tactic(auto, using(crate::proofs::Frames::request_door, crate::proofs::Frames::request_elsewhere, crate::proofs::Frames::frame_read))]
pub fn request_at(p: Accepted, node: u64, f: &[u8]) -> Option<Header>
    ensures { result ≡ request_in p.plan node f.now }
{
    if !shaped(f) {
        return None;
    }
    let h = header_of(f);
    if !suits(Party::Node, p, h, f.len()) {
        return None;
    }
    let here = h.node;
    if here == node {
        return Some(h);
    }
    None
}

// The door of a client: the header of a reply of a node of this plan. Where there is none, that is refusal 4.
pub fn reply_at(p: Accepted, f: &[u8]) -> Option<Header>
    ensures { result ≡ reply_in p.plan f.now }
{
    if !shaped(f) {
        return None;
    }
    let h = header_of(f);
    if !suits(Party::Client, p, h, f.len()) {
        return None;
    }
    let here = h.node;
    let n = p.plan.n;
    if here < n {
        return Some(h);
    }
    None
}

// Whether a frame has the ask number that a client awaits: part of refusal 10. Its kind is tested apart.
pub fn answers(h: Header, ask: Ask) -> bool
    ensures { result ≡ answers_to h ask.0 }
{
    let a = h.ask;
    a.0 == ask.0
}

// The most bytes that a frame of this version and plan has: R+15.
pub fn longest(version: u64, p: Accepted) -> usize
    ensures { (result ≡ longest version p.plan) × (result ≤ 1591) }
{
    let r = terms::record_length(p);
    r + head_bytes(version)
}

// Refusal 2: whether a buffer of n bytes holds any frame of this version and plan.
pub fn holds_any(version: u64, p: Accepted, n: usize) -> bool
    ensures { result ≡ leb (longest version p.plan) n }
{
    longest(version, p) <= n
}

// The header of a request of version 1.
pub fn asking(kind: u64, node: u64, ask: Ask) -> Header
    ensures { result ≡ header_of kind node ask.0 }
{
    Header {
        version: 1,
        kind: kind,
        node: node,
        ask: ask,
    }
}

// The header of the reply to a request: its version, node and ask number, and a kind.
pub fn replying(h: Header, kind: u64) -> Header
    ensures { result ≡ replying h kind }
{
    let ask = h.ask;
    Header {
        version: h.version,
        kind: kind,
        node: h.node,
        ask: ask,
    }
}

// The head of a frame whose body has n bytes; the whole length is told.
fn head(y: &mut [u8], h: Header, n: usize) -> usize
    requires { framed h.version n ≤ length y.old }
    ensures { (y.new ≡ over (head_of h n) y.old) × (result ≡ framed h.version n) }
{
    let end = head_bytes(h.version) + n;
    let ask = h.ask;
    octets::put_num(y, 0, 4, (end - 4) as u64);
    octets::put_num(y, 4, 1, h.version);
    octets::put_num(y, 5, 1, h.kind);
    octets::put_num(y, 6, 1, h.node);
    octets::put_word(y, 7, ask.0);
    end
}

// A frame with no body. Each builder tells the length of the frame that it wrote.
pub fn bare(y: &mut [u8], h: Header) -> usize
    requires { framed h.version 0 ≤ length y.old }
    ensures { Wrote h [] y.old result y.new }
{
    head(y, h, 0)
}

// A frame whose body is the n bytes of s from `from`.
pub fn with_part(y: &mut [u8], h: Header, s: &[u8], from: usize, n: usize) -> usize
    requires { (framed h.version n ≤ length y.old) × (from + n ≤ length s.now) }
    ensures { Wrote h (part s.now from n) y.old result y.new }
{
    let end = head(y, h, n);
    octets::copy(s, from, n, y, end - n);
    end
}

// A frame whose body is a time.
pub fn with_time(y: &mut [u8], h: Header, time: Time) -> usize
    requires { framed h.version 8 ≤ length y.old }
    ensures { Wrote h (be 8 time.0) y.old result y.new }
{
    let end = head(y, h, 8);
    octets::put_word(y, end - 8, time.0);
    end
}

// A frame whose body is a timestamp.
pub fn with_stamp(y: &mut [u8], h: Header, t: Timestamp) -> usize
    requires { framed h.version 40 ≤ length y.old }
    ensures { Wrote h (be 40 (stamp_number t)) y.old result y.new }
{
    let end = head(y, h, 40);
    terms::put_stamp(y, end - 40, t);
    end
}

// A request for the latest record.
pub fn latest(y: &mut [u8], node: u64, ask: Ask) -> usize
    requires { framed 1 0 ≤ length y.old }
    ensures { Wrote (header_of read_latest_kind node ask.0) [] y.old result y.new }
{
    let h = asking(READ_LATEST, node, ask);
    bare(y, h)
}

// A request for the record before a timestamp.
pub fn previous(y: &mut [u8], node: u64, ask: Ask, t: Timestamp) -> usize
    requires { framed 1 40 ≤ length y.old }
    ensures { Wrote (header_of read_previous_kind node ask.0) (be 40 (stamp_number t)) y.old result y.new }
{
    let h = asking(READ_PREVIOUS, node, ask);
    with_stamp(y, h, t)
}
