// Document 01's row of N 16 and F 1,024: a book of 65,536 bytes, filled.

use crate::frame_runs;
use crate::lines::{end, fields, filling, say, text, told};
use crate::places::{put, used};
use crate::walk::{BLANK, records};
use pasis::storage;
use std::io;
use terms::Ask;

// A book, the reply that was written and the answer.
#[derive(Clone, Copy)]
struct Served {
    book: [u8; 65536],
    reply: [u8; 1591],
    answer: u32,
}

// A book, and how many records went into it.
#[derive(Clone, Copy)]
struct Shelf {
    book: [u8; 65536],
    stored: u8,
}

// N 16, t 1, b 1, Q 3, m 2, F 1,024, repairable, Byzantine clients, W 1.
fn sixteen() -> [u8; 11] {
    [16, 1, 1, 3, 2, 4, 0, 0, 1, 0, 1]
}

// The write request for node 3 of a record of this time, whose fragments are all of sevens: R is 1,576.
fn request(time: u8) -> [u8; 1591] {
    let plan = sixteen();
    let mut desk = [7u8; 25216];
    let mut cross = [0u8; 512];
    let mut request = [0u8; 1591];
    records(packing::plan_of(&plan), time as u64, &mut desk, &mut cross);
    let h = frame::asking(frame::WRITE_REQUEST, 3, Ask(9));
    frame::with_part(&mut request, h, &desk, 4728, 1576);
    request
}

// The record of a time, given to the node, with a reply buffer that is blank.
fn serve(from: [u8; 65536], time: u8) -> Served {
    let plan = sixteen();
    let asked = request(time);
    let mut book = from;
    let mut reply = [BLANK; 1591];
    let a = storage::pasis_node(&plan, &asked, &mut book, &mut reply);
    Served {
        book: book,
        reply: reply,
        answer: a,
    }
}

fn fresh() -> [u8; 65536] {
    let plan = sixteen();
    let mut book = [BLANK; 65536];
    storage::pasis_fresh_book(&plan, 3, &mut book);
    book
}

// The records of times 1, 2, .. until one is refused.
fn fill() -> Shelf {
    let mut book = fresh();
    for k in 0..60 {
        let s = serve(book, k + 1);
        if s.answer > 0 {
            return Shelf { book, stored: k };
        }
        book = s.book;
    }
    Shelf { book, stored: 60 }
}

// What came of a call whose reply buffer was blank: the reply, or a refusal.
fn outcome(rt: &HostRuntime, reply: &[u8], a: u64) -> io::Result<()> {
    if a == 0 {
        return fields(rt, reply);
    }
    told(rt, reply, a)?;
    if used(reply, BLANK) > 0 {
        text(rt, b", reply CHANGED")?;
    }
    Ok(())
}

// The record of a time, given to a full book: what comes of it, and whether the book is as it was.
fn again(rt: &HostRuntime, name: &[u8], book: [u8; 65536], time: u8, of: &[u8]) -> io::Result<()> {
    let s = serve(book, time);
    let after = s.book;
    let reply = s.reply;
    text(rt, name)?;
    outcome(rt, &reply, s.answer as u64)?;
    end(rt, of, after[..] == book[..])
}

// A run at a full book: the next record, the time, the latest record, and one that it holds.
fn evening(rt: &HostRuntime, from: [u8; 65536]) -> io::Result<()> {
    let plan = sixteen();
    let next = request(42);
    let held = request(1);
    let time = frame_runs::bare(frame::TIME_REQUEST);
    let latest = frame_runs::bare(frame::READ_LATEST);
    let mut book = from;
    let mut run = [0u8; 3212];
    let mut replies = [BLANK; 6364];
    let mut numbers = [BLANK; 4];
    put(&mut run, 0, &next);
    put(&mut run, 1591, &time);
    put(&mut run, 1606, &latest);
    put(&mut run, 1621, &held);
    frame_runs::serve(
        rt,
        b"N16 F1024, a run at the full book",
        &plan,
        &run,
        &mut book,
        &mut replies,
        &mut numbers,
    )
}

// A full book: it refuses the next record, and acknowledges one that it holds.
pub fn full(rt: &HostRuntime) -> io::Result<()> {
    let f = fill();
    let book = f.book;
    say(
        rt,
        b"N16 F1024, 65536 bytes: records stored ",
        f.stored as u64,
    )?;
    filling(rt, &book)?;
    again(rt, b"\nN16 F1024, the next record", book, 42, b", ")?;
    again(rt, b"\nN16 F1024, a held record", book, 1, b", book ")?;
    text(rt, b"\n")?;
    evening(rt, book)
}
