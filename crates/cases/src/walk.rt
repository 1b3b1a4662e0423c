// A small world: a client, five nodes with their books, and the frames between them, as the bytes of one value that is handed on. A step is
// one call of the library, by the interface for a host; its answer lies there too, and a refused step has to leave the rest as it came,
// which the line of a case compares.
ghost use Rattle.std.specs.Prelude.{◌≡◌, ◌*◌, ◌≤◌, length, IfSome};
ghost use Rattle.terms.specs.Terms.{record_length};

use crate::lines::text;
use crate::places::{number_at, part, put, take, used};
use pasis::{client, storage};
use std::io;
use terms::{Accepted, Ask, Hash, Plan, Time, Timestamp};

// What books and the item buffer hold before they are written: no last byte of a record here is this one.
pub const BLANK: u8 = 170;

// The places of N 5 and F 4: a session of 237 bytes, a desk of 5 times 204, two frames of R+15, an ending of 42, an item of 8, and five
// books of 1,030, one byte short of room for five records each. All of these a refused call leaves as they came. Then the plan's 11 bytes,
// the number of the last answer, and what the kept places held before the last step. Session, ending and plan are as host/pasis.h has
// them: a session's stage, round, opening ask number, timestamp and marks have names here, and an ending's verifier and rounds. A world is bytes
// and no struct of its parts, since a step of a script may turn over a byte past a part, which is then one of the next.
pub const ALL: usize = 13840;

#[derive(Drop)]
pub struct World {
    pub bytes: [u8; ALL],
}

pub const SESSION: usize = 0;

pub const STAGE: usize = 1;

pub const ROUND: usize = 2;

const OPENING: usize = 45;

pub const STAMP: usize = 181;

const MARKS: usize = 221;

pub const DESK: usize = 237;

pub const REQUEST: usize = 1257;

pub const REQUEST_TIME: usize = 1279;

pub const REPLY: usize = 1476;

pub const ENDING: usize = 1695;

pub const VERIFIER: usize = 1703;

pub const ROUNDS: usize = 1735;

pub const ITEM: usize = 1737;

pub const BOOKS: usize = 1745;

pub const BOOK_3: usize = 4835;

pub const KEPT: usize = 6895;

pub const PLAN: usize = 6895;

pub const ANSWER: usize = 6906;

pub const OLD: usize = 6907;

pub const OLD_BOOKS: usize = 8652;

// ---- what lies in a world

#[derive(Clone, Copy, PartialEq, Eq)]
pub enum Operation {
    Write,
    Read,
}

// Where the book of a node lies; a node that there is not has the place after all books.
fn book_at(i: u64) -> usize {
    match i {
        0 => 1745,
        1 => 2775,
        2 => 3805,
        3 => 4835,
        4 => 5865,
        _ => 6895,
    }
}

impl World {
    // The n bytes at a place, and their number.
    pub fn part(&self, at: usize, n: usize) -> &[u8] {
        part(&self.bytes, at, n)
    }

    pub fn number(&self, at: usize, n: usize) -> u64 {
        number_at(&self.bytes, at, n)
    }

    // A copy of the bytes at a place, to be lent.
    fn copy<const N: usize>(&self, at: usize) -> [u8; N] {
        let mut bytes = [0u8; N];
        take(&self.bytes, at, &mut bytes);
        bytes
    }

    fn plan(&self) -> &[u8] {
        self.part(PLAN, 11)
    }

    pub fn answer(&self) -> u64 {
        self.number(ANSWER, 1)
    }

    pub fn is_refused(&self) -> bool {
        (1..100).contains(&self.answer())
    }

    // The operation of the session: 0 is a write.
    pub fn operation(&self) -> Operation {
        match self.number(SESSION, 1) {
            0 => Operation::Write,
            _ => Operation::Read,
        }
    }

    fn is_heard(&self, mark: usize) -> u64
        ensures { result ≤ 1 }
    {
        if self.number(mark, 1) == 0 { 0 } else { 1 }
    }

    // How many of the five nodes are heard, by their marks.
    pub fn heard(&self) -> u64 {
        self.is_heard(MARKS)
            + self.is_heard(MARKS + 1)
            + self.is_heard(MARKS + 2)
            + self.is_heard(MARKS + 3)
            + self.is_heard(MARKS + 4)
    }

    // The frame of 219 bytes or fewer at a place: as long as its length field says.
    fn frame_at(&self, at: usize) -> &[u8] {
        let n = self.number(at, 4);
        if n > 215 {
            return self.part(at, 219);
        }
        self.part(at, n as usize + 4)
    }
}

// ---- changes

impl World {
    // Some bytes, laid at a place.
    pub fn lay(&mut self, at: usize, x: &[u8]) {
        put(&mut self.bytes, at, x);
    }

    pub fn set(&mut self, at: usize, x: u8) {
        if at < ALL {
            self.bytes[at] = x;
        }
    }

    // One bit of byte number k after `at` turned over.
    pub fn flip(&mut self, at: usize, k: u64) {
        if at <= ALL && (k as usize) < ALL - at {
            self.bytes[at + k as usize] ^= 1;
        }
    }

    // What the step that follows may change, kept.
    pub fn keep(&mut self) {
        octets::within(&mut self.bytes, 0, KEPT, OLD);
    }

    fn says(&mut self, a: u32) {
        self.set(ANSWER, (a % 256) as u8);
    }
}

// ---- frames that no call makes

impl World {
    // The read request of node 3 for the last record strictly below time 1, verifier 0. The reply buffer is blank, so that what is then
    // written there can be told.
    pub fn previous(&mut self, ask: u64) {
        let bound = Timestamp {
            time: Time(1),
            verifier: Hash(0, 0, 0, 0),
        };
        let mut request = [0u8; 55];
        let h = frame::asking(frame::READ_PREVIOUS, 3, Ask(ask));
        frame::with_stamp(&mut request, h, bound);
        self.lay(REQUEST, &request);
        self.lay(REPLY, &[BLANK; 219]);
    }

    // A time reply that no node made, from the first node that is not heard where they come in order.
    pub fn time_reply(&mut self, time: u64) {
        let node = self.heard();
        let ask = self.number(OPENING, 8);
        let mut reply = [0u8; 23];
        let h = frame::asking(frame::TIME_REPLY, node, Ask(ask));
        frame::with_time(&mut reply, h, Time(time));
        self.lay(REPLY, &reply);
    }
}

// ---- a lie

// The plan, accepted, where it is one and a desk of this length is its desk.
fn fitting(p: Plan, len: usize) -> Option<Accepted>
    ensures { IfSome result (λ a. (a.plan ≡ p) × (len ≡ a.plan.n * record_length a.plan)) }
{
    if !terms::plan_ok(p) {
        return None;
    }
    let accepted = Accepted { plan: p };
    if len == p.n as usize * terms::record_length(accepted) {
        Some(accepted)
    } else {
        None
    }
}

// The records of a time, of the fragments that lie in the slots of a desk.
pub fn records(p: Plan, time: u64, desk: &mut [u8], cross: &mut [u8]) {
    let Some(accepted) = fitting(p, desk.len()) else {
        return;
    };
    if cross.len() < 512 {
        return;
    }
    record::cross(accepted, desk, cross, 0);
    let t = record::stamp_of(accepted, Time(time), cross, 0);
    record::fill(accepted, t, cross, 0, desk);
}

impl World {
    // The last fragment is changed, and the records are made anew of what then lies in the desk: each passes the hash checks, and together
    // they are no encoding of any item.
    pub fn lie(&mut self, time: u64) {
        self.flip(DESK, 1016);
        let p = packing::plan_of(self.plan());
        let mut desk = self.copy::<1020>(DESK);
        let mut cross = [0u8; 512];
        records(p, time, &mut desk, &mut cross);
        self.lay(DESK, &desk);
    }
}

// ---- calls of a node

impl World {
    // A fresh book in place i, for the node of this number.
    pub fn fresh(&mut self, i: u64, node: u64) {
        let at = book_at(i);
        let mut book = self.copy::<1030>(at);
        let a = storage::pasis_fresh_book(self.plan(), node, &mut book);
        self.lay(at, &book);
        self.says(a);
    }

    // The request, served by node i.
    pub fn serve(&mut self, i: u64) {
        let at = book_at(i);
        let mut book = self.copy::<1030>(at);
        let mut reply = self.copy::<219>(REPLY);
        let a = storage::pasis_node(self.plan(), self.frame_at(REQUEST), &mut book, &mut reply);
        self.lay(at, &book);
        self.lay(REPLY, &reply);
        self.says(a);
    }

    // A fresh book of 10 bytes.
    pub fn short_fresh(&mut self, rt: &HostRuntime) -> io::Result<()> {
        let mut book = [BLANK; 10];
        let a = storage::pasis_fresh_book(self.plan(), 3, &mut book);
        still_blank(rt, &book)?;
        self.says(a);
        Ok(())
    }

    // The request, served by a node whose book has 10 bytes.
    pub fn short_serve(&mut self, rt: &HostRuntime) -> io::Result<()> {
        let mut book = [BLANK; 10];
        let mut reply = [BLANK; 219];
        let a = storage::pasis_node(self.plan(), self.frame_at(REQUEST), &mut book, &mut reply);
        still_blank(rt, &book)?;
        still_blank(rt, &reply)?;
        self.says(a);
        Ok(())
    }
}

// Says so where a buffer that was blank was written.
fn still_blank(rt: &HostRuntime, s: &[u8]) -> io::Result<()> {
    if used(s, BLANK) > 0 {
        text(rt, b"WRITTEN ")?;
    }
    Ok(())
}

// ---- calls of the client

impl World {
    // Opens an operation.
    pub fn open(&mut self, op: Operation, ask: u64) {
        let mut session = self.copy::<237>(SESSION);
        let a = match op {
            Operation::Write => client::pasis_open_write(self.plan(), ask, &mut session),
            Operation::Read => client::pasis_open_read(self.plan(), ask, &mut session),
        };
        self.lay(SESSION, &session);
        self.says(a);
    }

    // The item buffer of a read is blank.
    pub fn read(&mut self, ask: u64) {
        self.lay(ITEM, &[BLANK; 8]);
        self.open(Operation::Read, ask);
    }

    // The request owed to a node.
    pub fn owe(&mut self, i: u64) {
        let mut request = self.copy::<219>(REQUEST);
        let a = client::pasis_owed(
            self.plan(),
            self.part(SESSION, 237),
            i,
            self.part(DESK, 1020),
            &mut request,
        );
        self.lay(REQUEST, &request);
        self.says(a);
    }

    // The reply, heard by a writer or a reader.
    pub fn hear(&mut self, op: Operation) {
        let mut session = self.copy::<237>(SESSION);
        let mut desk = self.copy::<1020>(DESK);
        let mut item = self.copy::<8>(ITEM);
        let mut ending = self.copy::<42>(ENDING);
        let plan = self.plan();
        let reply = self.frame_at(REPLY);
        let a = match op {
            Operation::Write => client::pasis_write_reply(
                plan,
                &mut session,
                reply,
                &mut desk,
                &item,
                &mut ending,
            ),
            Operation::Read => client::pasis_read_reply(
                plan,
                &mut session,
                reply,
                &mut desk,
                &mut item,
                &mut ending,
            ),
        };
        self.lay(SESSION, &session);
        self.lay(DESK, &desk);
        self.lay(ITEM, &item);
        self.lay(ENDING, &ending);
        self.says(a);
    }
}

// ---- walks

// The plans of the cases, by their numbers, as host/pasis.h has them: five nodes, t 1 and m 2.
fn plan_bytes(x: u64) -> [u8; 11] {
    match x {
        1 => [5, 1, 1, 3, 2, 0, 4, 0, 1, 0, 1],
        2 => [5, 1, 1, 3, 2, 0, 4, 0, 1, 0, 2],
        3 => [5, 1, 1, 3, 2, 0, 4, 0, 0, 0, 2],
        4 => [5, 1, 0, 2, 2, 0, 4, 1, 1, 0, 2],
        5 => [5, 1, 1, 3, 2, 0, 5, 0, 1, 0, 2],
        _ => [5, 1, 2, 3, 2, 0, 4, 0, 1, 0, 2],
    }
}

// A client with no session, and books that are not made.
fn bare() -> World {
    let mut w = World { bytes: [0u8; ALL] };
    w.lay(ITEM, &[BLANK; 5158]);
    w
}

impl World {
    // Five fresh books, under plan 2.
    pub fn new() -> World {
        let mut w = bare();
        w.under(2);
        for node in 0..5 {
            w.fresh(node, node);
        }
        w
    }

    // The plan of this number.
    pub fn under(&mut self, x: u64) {
        self.lay(PLAN, &plan_bytes(x));
    }

    // The request owed to node i, served, and its reply heard; where one is refused, no further.
    pub fn carry(&mut self, i: u64) {
        self.owe(i);
        if self.is_refused() {
            return;
        }
        self.serve(i);
        if !self.is_refused() {
            self.hear(self.operation());
        }
    }
}
