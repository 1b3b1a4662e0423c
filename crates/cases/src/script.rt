// The lines of the script, read and run: steps, a bar and the name of a case. The file `stdin` says what each step is.
ghost use Rattle.std.specs.Prelude.{◌≤◌, length};

use crate::lines::{tell, text};
use crate::walk;
use crate::walk::{Operation, World};
use std::io;

// ---- numbers

// The value of a digit.
fn digit(c: u8) -> u64 {
    u64::from(c.wrapping_sub(b'0'))
}

// A number with one more digit; one that has no room for it stays.
fn longer(x: u64, c: u8) -> u64 {
    match x.checked_mul(10) {
        Some(tens) => tens.wrapping_add(digit(c)),
        None => x,
    }
}

// The number that a text starts with, and what follows it; 0 where there is no digit.
fn number(s: &[u8]) -> (u64, &[u8])
    ensures { length result.1.now ≤ length s.now }
{
    let mut x = 0;
    for (k, c) in s.iter().enumerate() {
        if !c.is_ascii_digit() {
            return (x, &s[k..]);
        }
        x = longer(x, *c);
    }
    (x, &[])
}

// ---- steps

// A call of the client or of a node, with its number; a digit is a node whose request is carried.
fn call(rt: &HostRuntime, w: &mut World, op: u8, x: u64) -> io::Result<()> {
    match op {
        b'0'..=b'9' => w.carry(digit(op)),
        b'w' => w.open(Operation::Write, x),
        b'r' => w.read(x),
        b'o' => w.owe(x),
        b'h' => w.hear(w.operation()),
        b'v' => w.hear(Operation::Write),
        b'u' => w.hear(Operation::Read),
        b's' => w.serve(x),
        b'f' => w.fresh(3, x),
        b'm' => return w.short_serve(rt),
        b'n' => return w.short_fresh(rt),
        _ => return change(rt, w, op, x),
    }
    Ok(())
}

// What a case changes by itself.
fn change(rt: &HostRuntime, w: &mut World, op: u8, x: u64) -> io::Result<()> {
    match op {
        b'q' => w.flip(walk::REQUEST, x),
        b'y' => w.flip(walk::REPLY, x),
        b'd' => w.flip(walk::DESK, x),
        b'b' => w.flip(walk::BOOK_3, x),
        b'g' => w.set(walk::REQUEST_TIME, (x % 256) as u8),
        b'i' => w.lay(walk::ITEM, &[(x % 256) as u8, 2, 3, 4, 5, 6, 7, 8]),
        b'p' => w.under(x),
        b'l' => w.lie(x),
        b't' => w.time_reply(x),
        b'k' => w.previous(x),
        _ => return text(rt, b"UNKNOWN STEP "),
    }
    Ok(())
}

// A step, with what was before it kept: a digit or a letter. Any other sign is none.
fn step(rt: &HostRuntime, w: &mut World, op: u8, x: u64) -> io::Result<()> {
    match op {
        b'0'..=b'9' | b'a'..=b'z' => {
            w.keep();
            call(rt, w, op, x)
        }
        _ => Ok(()),
    }
}

// ---- a line

// The number that belongs to a step, and what follows both.
fn argument(op: u8, rest: &[u8]) -> (u64, &[u8])
    ensures { length result.1.now ≤ length rest.now }
{
    if op < b'a' { (0, rest) } else { number(rest) }
}

// The steps, walked.
fn steps(rt: &HostRuntime, s: &[u8]) -> io::Result<World> {
    let mut w = World::new();
    let mut left = s;
    while let [op, rest @ ..] = left {
        let (x, after) = argument(*op, rest);
        step(rt, &mut w, *op, x)?;
        left = after;
    }
    Ok(w)
}

// The sign that stands last of all: what is shown.
fn sign(s: &[u8]) -> u8 {
    match s {
        [.., shown, _] => *shown,
        _ => b'.',
    }
}

// A case: its name, and what came of its steps.
fn run_case(rt: &HostRuntime, s: &[u8], name: &[u8]) -> io::Result<()> {
    let w = steps(rt, s)?;
    text(rt, name)?;
    tell(rt, &w, sign(s))?;
    text(rt, b"\n")
}

// A line; one that starts with '#' says something to the reader, and an empty one nothing.
fn line(rt: &HostRuntime, s: &[u8]) -> io::Result<()> {
    if let [] | [b'#', ..] = s {
        return Ok(());
    }
    match s.iter().position(|c| *c == b'|') {
        Some(bar) if s.len() - bar >= 2 => run_case(rt, &s[..bar], &s[bar + 2..]),
        _ => text(rt, b"NO NAME\n"),
    }
}

pub fn run(rt: &HostRuntime, s: &[u8]) -> io::Result<()> {
    for l in s.split(|c| *c == b'\n') {
        line(rt, l)?;
    }
    Ok(())
}
