// What a case writes: one line. Its name, what came out, and after a refusal whether the session and every buffer are, byte for byte, as
// they came.
use crate::places::{number_at, used};
use crate::walk::{
    BLANK, BOOK_3, BOOKS, ENDING, ITEM, KEPT, OLD, OLD_BOOKS, Operation, PLAN, REPLY, ROUND,
    ROUNDS, STAGE, STAMP, VERIFIER, World,
};
use std::io;
use std::io::Print;
use terms::Accepted;

// ---- words and numbers

pub fn text(rt: &HostRuntime, s: &[u8]) -> io::Result<()> {
    Print::write_all(rt, s)
}

// Some words, and a number.
pub fn say(rt: &HostRuntime, name: &[u8], x: u64) -> io::Result<()> {
    text(rt, name)?;
    print!(rt; "{x}")
}

// Some words, and eight bytes as they stand.
fn say_bytes(rt: &HostRuntime, name: &[u8], x: u64) -> io::Result<()> {
    text(rt, name)?;
    print!(rt; "{x:016x}")
}

// Some words, and whether bytes are as they were.
pub fn end(rt: &HostRuntime, name: &[u8], kept: bool) -> io::Result<()> {
    text(rt, name)?;
    if kept {
        text(rt, b"kept")
    } else {
        text(rt, b"CHANGED")
    }
}

// ---- answers

// A timestamp and the rounds, if it was a read.
fn done(rt: &HostRuntime, w: &[u8]) -> io::Result<()> {
    let n = number_at(w, ROUNDS, 2);
    say(rt, b": done, time ", number_at(w, ENDING, 8))?;
    say_bytes(rt, b", verifier ", number_at(w, VERIFIER, 8))?;
    if n > 0 {
        say(rt, b", rounds ", n)?;
    }
    Ok(())
}

// An answer in document 01's words: 101 to 105 are endings, 0 is an operation that goes on, any other a refusal. A number, as the calls for C give it.
pub fn told(rt: &HostRuntime, w: &[u8], a: u64) -> io::Result<()> {
    let n = number_at(w, ROUNDS, 2);
    match a {
        0 => text(rt, b": open"),
        101 => done(rt, w),
        102 => say(rt, b": never written, rounds ", n),
        103 => say(rt, b": aborted, rounds ", n),
        104 => say(rt, b": rounds spent, rounds ", n),
        105 => text(rt, b": clock spent"),
        _ => say(rt, b": refused ", a),
    }
}

// ---- frames and books

// The bytes of a reply in a buffer that was blank, and its fields.
pub fn fields(rt: &HostRuntime, reply: &[u8]) -> io::Result<()> {
    say(rt, b": reply of ", used(reply, BLANK) as u64)?;
    say(rt, b" bytes, length field ", number_at(reply, 0, 4))?;
    say(rt, b", kind ", number_at(reply, 5, 1))?;
    say(rt, b", node ", number_at(reply, 6, 1))?;
    say(rt, b", ask ", number_at(reply, 7, 8))
}

// How a book is filled: its length field, and its bytes that were written.
pub fn filling(rt: &HostRuntime, book: &[u8]) -> io::Result<()> {
    say(rt, b", length field ", number_at(book, 0, 4))?;
    say(rt, b", bytes used ", used(book, BLANK) as u64)
}

// R of a plan, 0 where it is none.
fn record_length(w: &World) -> u64 {
    let p = packing::plan_of(w.part(PLAN, 11));
    if !terms::plan_ok(p) {
        return 0;
    }
    terms::record_length(Accepted { plan: p }) as u64
}

// ---- the line of a case

// Where an open session stands.
fn standing(rt: &HostRuntime, w: &World) -> io::Result<()> {
    let stage = w.number(STAGE, 1);
    if stage == 2 {
        return Ok(());
    }
    say(rt, b", round ", w.number(ROUND, 2))?;
    if stage == 1 {
        say(rt, b", storing time ", w.number(STAMP, 8))?;
    }
    say(rt, b", heard ", w.heard())
}

// The item buffer of a read: as it came, or its bytes.
fn item_now(rt: &HostRuntime, w: &World) -> io::Result<()> {
    if w.operation() == Operation::Write {
        return Ok(());
    }
    let x = w.number(ITEM, 8);
    if x == 12297829382473034410 {
        text(rt, b", item kept")
    } else {
        say_bytes(rt, b", item ", x)
    }
}

// The answer; after a refusal, whether all is as it came; else an ending, or still open and where, and the item of a read.
fn answered(rt: &HostRuntime, w: &World) -> io::Result<()> {
    told(rt, &w.bytes, w.answer())?;
    if w.is_refused() {
        return end(rt, b", ", w.part(0, KEPT) == w.part(OLD, KEPT));
    }
    standing(rt, w)?;
    item_now(rt, w)
}

// The reply of a node that stores nothing.
fn replied(rt: &HostRuntime, w: &World) -> io::Result<()> {
    fields(rt, w.part(REPLY, 219))?;
    end(
        rt,
        b", book ",
        w.part(BOOKS, 5150) == w.part(OLD_BOOKS, 5150),
    )
}

// R, and how the book of node 3 is filled.
fn filled(rt: &HostRuntime, w: &World) -> io::Result<()> {
    say(rt, b": R ", record_length(w))?;
    filling(rt, w.part(BOOK_3, 1030))
}

// The rest of a case's line, after its name.
pub fn tell(rt: &HostRuntime, w: &World, show: u8) -> io::Result<()> {
    match show {
        b'=' => filled(rt, w),
        b'~' => replied(rt, w),
        b'+' => say(rt, b": new time ", w.number(STAMP, 8)),
        b'-' => told(rt, &w.bytes, w.answer()),
        _ => answered(rt, w),
    }
}
