// Stored calls of the host interface, made again. Standard input has one call a line, standard output gets one line for it, and is held to
// the file `stdout`. Both files are made by the second, independent program (host/second, `emit`), never by this one:
//
//     CALL NUMBER PLAN A B C D E     in: which call, its node or ask number in 8 bytes, its plan slice, its other slices in their order
//     ANSWER A B C D E               out: the number answered, and each slice after the call, or a dot where it is as lent
//
// CALL is 01 fresh_book, 02 node, 03 open_write, 04 open_read, 05 owed, 06 write_reply, 07 read_reply, 08 smallest_plan, whose plan slice is
// the wish: member 1, t 8, b 8, m 8, and 09 run. Bytes are in hexadecimal, a minus where there are none; a call that is lent fewer than five slices has a
// minus for each of the others.
#![tactic(auto)]

ghost use Rattle.std.specs.Prelude.{◌-◌, ◌≤◌, ◌<◌, length, IfOk, IfSome};

use pasis::{client, plans, storage};
use std::io;
use std::io::Read;

// Room for all of standard input. A proof of its caller sees its length, and not so many zeros.
fn room() -> [u8; 327680] {
    [0u8; 327680]
}

// ---- reading

// Reads until the buffer is full or the input ends, and answers how many bytes are at its start. `cases` has these lines too: a crate that both
// programs stood on would be longer than they are. A read moves the place by as many bytes as it gives, which no `for` counts.
fn read_full(rt: &HostRuntime, text: &mut [u8]) -> io::Result<usize>
    ensures { IfOk result (λ n. n ≤ length text.new) }
{
    let mut done = 0;
    while done < text.len() {
        let n = rt.stdin().read(&mut text[done..])?;
        if n == 0 {
            break;
        }
        done += n;
    }
    Ok(done)
}

// The text that is left, a field at a time.
#[derive(Drop)]
struct Fields<'a> {
    left: &'a [u8],
}

impl<'a> Fields<'a> {
    // The next field, up to a space, a line's end or the end of the text.
    fn next(&mut self) -> &'a [u8]
        ensures { length self.new.left.now ≤ length self.old.left.now - 1 }
    {
        let left = self.left;
        match left.iter().position(|c| *c <= b' ') {
            Some(end) => {
                self.left = &left[end + 1..];
                &left[..end]
            }
            None => {
                self.left = &[];
                left
            }
        }
    }
}

// The value of a hexadecimal digit.
fn digit(c: u8) -> Option<u8>
    ensures { IfSome result (λ d. d < 16) }
{
    match c {
        b'0'..=b'9' => Some(c - b'0'),
        b'a'..=b'f' => Some(c - b'a' + 10),
        _ => None,
    }
}

// The most bytes of a field.
const ROOM: usize = 4096;

// A field, as it stands and as bytes, with zeros behind them.
#[derive(Drop)]
struct Bytes<'a> {
    field: &'a [u8],
    all: [u8; ROOM],
    len: usize,
    ghost within: { len ≤ 4096 },
}

impl<'a> Bytes<'a> {
    // A byte of the field that is no digit, or has no room, is passed over.
    fn of(field: &'a [u8]) -> Bytes<'a> {
        let mut all = [0u8; ROOM];
        let mut digits = 0;
        for d in field.iter().filter_map(|c| digit(*c)) {
            if digits < 2 * ROOM {
                let k = digits / 2;
                all[k] = all[k] % 16 * 16 + d;
                digits += 1;
            }
        }
        Bytes {
            field,
            all,
            len: digits / 2,
        }
    }

    fn as_slice(&self) -> &[u8] {
        &self.all[..self.len]
    }
}

// ---- writing

// A slice after the call, or a dot where it is as its field lent it.
fn tell(rt: &HostRuntime, after: &Bytes) -> io::Result<()> {
    print!(rt; " ")?;
    let before = Bytes::of(after.field);
    if after.as_slice() == before.as_slice() {
        return print!(rt; ".");
    }
    for x in after.as_slice() {
        print!(rt; "{:02x}", *x)?;
    }
    Ok(())
}

// ---- a call

// The smallest plan of a wish in 25 bytes.
fn smallest(wish: &[u8], counts: &mut [u8]) -> u32 {
    if wish.len() != 25 {
        return 0;
    }
    let t = octets::get(wish, 1, 8);
    let b = octets::get(wish, 9, 8);
    let m = octets::get(wish, 17, 8);
    plans::pasis_smallest_plan(wish[0], t, b, m, counts)
}

// Makes the call of this number on its slices, which stand apart, as the calls for C take them.
fn make(
    call: u8,
    plan: &[u8],
    number: u64,
    a: &mut [u8],
    b: &mut [u8],
    c: &mut [u8],
    d: &mut [u8],
    e: &mut [u8],
) -> u32 {
    match call {
        1 => storage::pasis_fresh_book(plan, number, a),
        2 => storage::pasis_node(plan, a, b, c),
        3 => client::pasis_open_write(plan, number, a),
        4 => client::pasis_open_read(plan, number, a),
        5 => client::pasis_owed(plan, a, number, b, c),
        6 => client::pasis_write_reply(plan, a, b, c, d, e),
        7 => client::pasis_read_reply(plan, a, b, c, d, e),
        8 => smallest(plan, a),
        9 => storage::pasis_run(plan, a, b, c, d, e),
        _ => 0,
    }
}

// Makes the call of the next line, and writes its line: its answer, and the five slices after it.
fn line(rt: &HostRuntime, fields: &mut Fields) -> io::Result<()>
    ensures { length fields.new.left.now ≤ length fields.old.left.now - 1 }
{
    let call = Bytes::of(fields.next());
    let number = Bytes::of(fields.next());
    let plan = Bytes::of(fields.next());
    let mut a = Bytes::of(fields.next());
    let mut b = Bytes::of(fields.next());
    let mut c = Bytes::of(fields.next());
    let mut d = Bytes::of(fields.next());
    let mut e = Bytes::of(fields.next());
    let which = call.all[0];
    let (to_a, to_b, to_c, to_d, to_e) = (a.len, b.len, c.len, d.len, e.len);
    let node = octets::get(&number.all, 0, 8);
    let answer = make(
        which,
        plan.as_slice(),
        node,
        &mut a.all[..to_a],
        &mut b.all[..to_b],
        &mut c.all[..to_c],
        &mut d.all[..to_d],
        &mut e.all[..to_e],
    );
    print!(rt; "{answer}")?;
    tell(rt, &a)?;
    tell(rt, &b)?;
    tell(rt, &c)?;
    tell(rt, &d)?;
    tell(rt, &e)?;
    print!(rt; "\n")
}

// Every line of the text.
fn lines(rt: &HostRuntime, text: &[u8]) -> io::Result<()> {
    let mut fields = Fields { left: text };
    while !fields.left.is_empty() {
        line(rt, &mut fields)?;
    }
    Ok(())
}

fn main(rt: HostRuntime) -> io::Result<()> {
    let mut text = room();
    let n = read_full(&rt, &mut text)?;
    lines(&rt, &text[..n])
}
