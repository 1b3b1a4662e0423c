// Document 02's Q-3: runs of frames, laid end to end, at node 3. The plan is N 5 and F 4, R is 204; the last run is at the full book of N 16 and
// F 1,024 (large.rt). A line has what the run tells, what came of its frames in order, and how the book is filled.

use crate::lines::{filling, say, text};
use crate::places::{number_at, part, put};
use crate::walk::{BLANK, records};
use pasis::storage;
use std::io;
use terms::Ask;

// ---- frames

// N 5, t 1, b 1, Q 3, m 2, F 4, repairable, Byzantine clients, W 1.
fn five() -> [u8; 11] {
    [5, 1, 1, 3, 2, 0, 4, 0, 1, 0, 1]
}

// The write request of a record of this time, whose fragments are all of sevens.
fn write(time: u64) -> [u8; 219] {
    let plan = five();
    let mut desk = [7u8; 1020];
    let mut cross = [0u8; 512];
    let mut request = [0u8; 219];
    records(packing::plan_of(&plan), time, &mut desk, &mut cross);
    let h = frame::asking(frame::WRITE_REQUEST, 3, Ask(time));
    frame::with_part(&mut request, h, &desk, 612, 204);
    request
}

// The same with one bit of a byte turned over.
fn bent(time: u64, at: usize) -> [u8; 219] {
    let mut request = write(time);
    if at < 219 {
        request[at] ^= 1;
    }
    request
}

// A request with no body, of this kind.
pub fn bare(kind: u64) -> [u8; 15] {
    let mut request = [0u8; 15];
    let h = frame::asking(kind, 3, Ask(7));
    frame::bare(&mut request, h);
    request
}

// The same with a length field of this number.
fn of_length(kind: u64, says: u8) -> [u8; 15] {
    let mut request = bare(kind);
    request[3] = says;
    request
}

// ---- what came of a run

// So many frames in a row that got the same number.
fn in_a_row(rt: &HostRuntime, n: usize, x: u8) -> io::Result<()> {
    say(rt, b", ", n as u64)?;
    if x == 0 {
        text(rt, b" accepted")
    } else {
        say(rt, b" refused ", x as u64)
    }
}

// What came of the frames, in order.
fn answers(rt: &HostRuntime, numbers: &[u8]) -> io::Result<()> {
    for row in numbers.chunk_by(|a, b| a == b) {
        if let [x, ..] = row {
            in_a_row(rt, row.len(), *x)?;
        }
    }
    Ok(())
}

// The line of a run that was served.
fn told(rt: &HostRuntime, book: &[u8], numbers: &[u8], what: &[u8]) -> io::Result<()> {
    let n = number_at(what, 0, 8);
    say(rt, b": frames ", n)?;
    say(rt, b", reply bytes ", number_at(what, 8, 8))?;
    say(rt, b", place ", number_at(what, 16, 8))?;
    answers(rt, part(numbers, 0, n as usize))?;
    filling(rt, book)
}

// A run at a book, with what it is lent for its replies and numbers; and its line. The slices stand apart, as the call for C takes them: a struct
// of three that are lent to be written would have a lifetime for each.
pub fn serve(
    rt: &HostRuntime,
    name: &[u8],
    plan: &[u8],
    run: &[u8],
    book: &mut [u8],
    replies: &mut [u8],
    numbers: &mut [u8],
) -> io::Result<()> {
    let mut what = [0u8; 24];
    let a = storage::pasis_run(plan, run, book, replies, numbers, &mut what);
    text(rt, name)?;
    if a > 0 {
        say(rt, b": refused ", a as u64)?;
    } else {
        told(rt, book, numbers, &what)?;
    }
    text(rt, b"\n")
}

// A run at a fresh book with room for four records, lent room for six frames.
fn small(rt: &HostRuntime, name: &[u8], run: &[u8]) -> io::Result<()> {
    let plan = five();
    let mut book = [BLANK; 1030];
    let mut replies = [BLANK; 1314];
    let mut numbers = [BLANK; 6];
    storage::pasis_fresh_book(&plan, 3, &mut book);
    serve(rt, name, &plan, run, &mut book, &mut replies, &mut numbers)
}

// ---- runs

// Two frames, the second of them cut after n bytes.
fn cut_after(rt: &HostRuntime, name: &[u8], n: usize) -> io::Result<()> {
    let first = write(1);
    let second = write(2);
    let mut run = [0u8; 438];
    put(&mut run, 0, &first);
    put(&mut run, 219, &second);
    if n > 219 {
        return Ok(());
    }
    small(rt, name, part(&run, 0, 219 + n))
}

// A time request, then a request whose length field says this, and n bytes of it.
fn of_rest(rt: &HostRuntime, name: &[u8], says: u8, n: usize) -> io::Result<()> {
    let first = bare(frame::TIME_REQUEST);
    let second = of_length(frame::READ_LATEST, says);
    let mut run = [0u8; 45];
    put(&mut run, 0, &first);
    put(&mut run, 15, &second);
    if n > 30 {
        return Ok(());
    }
    small(rt, name, part(&run, 0, 15 + n))
}

// A record, one for another node, one of time 0, one of another hash, the first again, and what is the latest.
fn among_good(rt: &HostRuntime) -> io::Result<()> {
    let good = write(1);
    let other_node = bent(1, 6);
    let no_time = bent(1, 22);
    let other_hash = bent(2, 218);
    let latest = bare(frame::READ_LATEST);
    let mut run = [0u8; 1110];
    put(&mut run, 0, &good);
    put(&mut run, 219, &other_node);
    put(&mut run, 438, &no_time);
    put(&mut run, 657, &other_hash);
    put(&mut run, 876, &good);
    put(&mut run, 1095, &latest);
    small(rt, b"run, refused frames among good ones", &run)
}

// A time request with one byte behind it, which its length field has in it; then the latest.
fn too_long(rt: &HostRuntime) -> io::Result<()> {
    let long = of_length(frame::TIME_REQUEST, 12);
    let latest = bare(frame::READ_LATEST);
    let mut run = [0u8; 31];
    put(&mut run, 0, &long);
    put(&mut run, 16, &latest);
    small(
        rt,
        b"run, a frame cut whole and too long for its kind",
        &run,
    )
}

// The write requests of times 1 to 300.
fn lay_all(run: &mut [u8]) {
    for k in 0..300usize {
        put(run, k * 219, &write(k as u64 + 1));
    }
}

// These at a book of 65,536 bytes, lent exactly what they need.
fn hundreds(
    rt: &HostRuntime,
    run: &mut [u8],
    book: &mut [u8],
    replies: &mut [u8],
    numbers: &mut [u8],
) -> io::Result<()> {
    let plan = five();
    lay_all(run);
    storage::pasis_fresh_book(&plan, 3, book);
    serve(rt, b"run of 300 writes", &plan, run, book, replies, numbers)
}

fn three_hundred(rt: &HostRuntime) -> io::Result<()> {
    let mut run = [0u8; 65700];
    let mut book = [BLANK; 65536];
    let mut replies = [BLANK; 65700];
    let mut numbers = [BLANK; 300];
    hundreds(rt, &mut run, &mut book, &mut replies, &mut numbers)
}

// Two time requests at a book, with what is lent for their replies and numbers.
fn two(
    rt: &HostRuntime,
    name: &[u8],
    book: &mut [u8],
    replies: &mut [u8],
    numbers: &mut [u8],
) -> io::Result<()> {
    let plan = five();
    let time = bare(frame::TIME_REQUEST);
    let mut run = [0u8; 30];
    put(&mut run, 0, &time);
    put(&mut run, 15, &time);
    serve(rt, name, &plan, &run, book, replies, numbers)
}

// The same at a fresh book.
fn at_fresh(
    rt: &HostRuntime,
    name: &[u8],
    replies: &mut [u8],
    numbers: &mut [u8],
) -> io::Result<()> {
    let plan = five();
    let mut book = [BLANK; 1030];
    storage::pasis_fresh_book(&plan, 3, &mut book);
    two(rt, name, &mut book, replies, numbers)
}

// The same at bytes that are no book.
fn at_none(rt: &HostRuntime, name: &[u8], replies: &mut [u8]) -> io::Result<()> {
    let mut book = [BLANK; 1030];
    let mut numbers = [BLANK; 2];
    two(rt, name, &mut book, replies, &mut numbers)
}

// Lent what they need, one byte or one place less; and which refusal comes first.
fn rooms(rt: &HostRuntime) -> io::Result<()> {
    let mut whole = [BLANK; 438];
    let mut short = [BLANK; 437];
    let mut places = [BLANK; 2];
    let mut one = [BLANK; 1];
    at_fresh(
        rt,
        b"run of two, lent what it needs",
        &mut whole,
        &mut places,
    )?;
    at_fresh(
        rt,
        b"run of two, one reply byte short",
        &mut short,
        &mut places,
    )?;
    at_fresh(
        rt,
        b"run of two, one number place short",
        &mut whole,
        &mut one,
    )?;
    at_none(rt, b"run of two, one reply byte short, no book", &mut short)?;
    at_none(rt, b"run of two, no book", &mut whole)
}

fn empty(rt: &HostRuntime) -> io::Result<()> {
    let run = [0u8; 1];
    small(rt, b"run, empty", &run[0..0])
}

pub fn all(rt: &HostRuntime) -> io::Result<()> {
    empty(rt)?;
    cut_after(rt, b"run of one", 0)?;
    cut_after(rt, b"run, cut within a length", 3)?;
    cut_after(rt, b"run, cut within a frame", 218)?;
    cut_after(rt, b"run of two", 219)?;
    of_rest(rt, b"run, a length of 10", 10, 15)?;
    of_rest(rt, b"run, a length of 11", 11, 15)?;
    of_rest(rt, b"run, a length one past the rest", 12, 15)?;
    among_good(rt)?;
    too_long(rt)?;
    three_hundred(rt)?;
    rooms(rt)
}
