// Lines on standard error. One that cannot be written is left out: there is nobody left to tell.
use std::fmt::Display;
use std::io;
use std::io::{Cursor, Eprint, Write};
use terms::Refusal;

// A line has said why. Only the functions of this module give one.
#[derive(Clone, Copy)]
pub struct Said(());

// Bytes as they stand, such as a name, which need not be text.
pub fn text(rt: &HostRuntime, s: &[u8]) {
    let _ = rt.stderr().write_all(s);
}

// A line of bytes.
pub fn line(rt: &HostRuntime, s: &[u8]) -> Said {
    text(rt, s);
    told(rt, "")
}

// A file, and what is the matter with it, as bytes.
pub fn about(rt: &HostRuntime, path: &[u8], s: &[u8]) -> Said {
    text(rt, path);
    text(rt, b": ");
    line(rt, s)
}

// A line of what can be written as text.
pub fn told(rt: &HostRuntime, what: impl Display + Drop) -> Said {
    let _ = rt.eprintln(what);
    Said(())
}

// A file, and what is the matter with it, as text.
pub fn told_of(rt: &HostRuntime, path: &[u8], what: impl Display + Drop) -> Said {
    text(rt, path);
    told(rt, format_args!(": {what}"))
}

// The room for an error's text, which has at most 256 bytes and a number after them.
const REASON: usize = 320;

// What std puts behind an error's words, before the system's number, as in "No space left on device (os error 28)".
const NUMBER: &[u8] = b" (os error ";

// The words of an error's text.
fn words_of(text: &[u8]) -> &[u8] {
    match text.windows(NUMBER.len()).position(|w| w == NUMBER) {
        Some(k) => &text[..k],
        None => text,
    }
}

// What a call of the system that has just failed was on, and the system's reason.
pub fn failed(rt: &HostRuntime, what: &[u8], e: io::Error) -> Said {
    let mut reason = [0u8; REASON];
    let mut at = Cursor::new(&mut reason[..]);
    let _ = write!(at, "{e}");
    let n = (at.position() as usize).min(REASON);
    about(rt, what, words_of(&reason[..n]))
}

// Document 01's words for the refusals of a node and of a fresh book, by their numbers: a run tells of its frames by numbers alone.
fn words(k: u32) -> &'static str {
    match k {
        1 => "plan outside its rules",
        2 => "a lent length is wrong",
        3 => "book not of this shape, or not of this plan",
        4 => "frame length, version, kind or node wrong",
        5 => "time 0 in a record or a bound",
        6 => "a hash check fails",
        7 => "same timestamp held with other bytes",
        8 => "no room in the book for R more bytes",
        21 => "too little room for the replies or the numbers of a run",
        _ => "not a refusal of a node",
    }
}

// A refusal by its number.
pub fn numbered(rt: &HostRuntime, k: u32) -> Said {
    told(rt, format_args!("refused {k}: {}", words(k)))
}

pub fn refused(rt: &HostRuntime, r: Refusal) -> Said {
    numbered(rt, r.number())
}
