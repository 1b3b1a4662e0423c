// keeper PLAN BOOK: one storage-node over files and pipes. Request frames come on standard input, reply frames go to standard output,
// one line for each fault to standard error. Document 01, "The node"; docs/KEEPER.md says how to run it.
//
//     keeper PLAN BOOK                  answers frames until the input ends
//     keeper PLAN BOOK locked           so does this, while whoever started it holds the lock of the book (host/keeper-locked)
//     keeper PLAN BOOK new NODE BYTES   makes a fresh book for node NODE, of BYTES bytes
//
// The file BOOK.plan has the plan that the book was made with; one that differs from PLAN but in W is told, and nothing is served.
//
// The frames that wait on the input are one run (document 02, Q-3). The book is read from its file for each run and kept nowhere else, so that
// several keepers may serve one book: each reads an old or a new book whole, and only the one that has made the file BOOK.new may change
// it (crate book_file). input.rt has the input, serve.rt what is done with a run, planned.rt what is said of plans.
#![tactic(auto)]

mod input;
mod planned;
mod serve;

ghost use Rattle.std.specs.Prelude.{◌≤◌};

use book_file::say::Said;
use book_file::{Named, say};
use input::Input;
use serve::{Keeper, Room};
use std::env::{Env, FillError};
use std::io;
use std::io::Print;
use terms::{Accepted, Plan, Refusal};

// The most bytes of a book.
const BOOK: usize = 65536;

// ---- the two ways to run

// Sees that a book is one of this plan.
#[tactic(auto, using(book::proofs::Laws::lent_is))]
fn good(rt: &HostRuntime, p: Plan, book: &[u8]) -> Result<(), Said> {
    if !terms::plan_ok(p) {
        return Err(say::refused(rt, Refusal::OutsidePlan));
    }
    if !book::lent(book.len()) {
        return Err(say::refused(rt, Refusal::WrongLength));
    }
    match book::good(Accepted { plan: p }, book) {
        None => Err(say::refused(rt, Refusal::WrongBook)),
        Some(_) => Ok(()),
    }
}

// Sees that the book can be had, and is one. Its area is off the stack again before the requests come.
#[inline(never)]
fn book_ok(p: Plan, book: Named) -> Result<(), Said> {
    let mut area = [0u8; BOOK];
    let n = book.load(&mut area)?;
    good(book.rt, p, &area[..n])
}

fn say_made(rt: &HostRuntime) -> Result<(), Said> {
    let made = Print::write_all(&rt.stdout(), b"made\n");
    made.map_err(|e| say::failed(rt, b"standard output", e))
}

// A fresh book, and its file, where nothing has its name.
fn fill(p: Plan, book: Named, text: &[u8], node: u64, bytes: &mut [u8]) -> Result<(), Said> {
    node::fresh(p, node, bytes).map_err(|r| say::refused(book.rt, r))?;
    book.hold(false)?.make(bytes, text)?;
    say_made(book.rt)
}

// What is wrong with a book that is longer than any: 1 comes before 2.
fn too_large(p: Plan) -> Refusal {
    if terms::plan_ok(p) {
        Refusal::WrongLength
    } else {
        Refusal::OutsidePlan
    }
}

// The first bytes of an area of zeros are the book. The area is on no other way's stack.
#[inline(never)]
fn make(p: Plan, book: Named, text: &[u8], node: u64, bytes: u64) -> Result<(), Said> {
    if bytes > BOOK as u64 {
        return Err(say::refused(book.rt, too_large(p)));
    }
    let mut area = [0u8; BOOK];
    fill(p, book, text, node, &mut area[..bytes as usize])
}

// ---- the arguments

// How many arguments there are, the program's name among them.
fn arg_count(rt: &HostRuntime) -> usize {
    let mut one = [0u8; 1];
    for i in 0..usize::MAX {
        if let Err(FillError::NotPresent) = rt.arg(i, &mut one) {
            return i;
        }
    }
    usize::MAX
}

// The room for an argument: no path of the system is longer.
const ARG: usize = 4096;

#[derive(Drop)]
struct Arg {
    bytes: [u8; ARG],
    len: usize,
    ghost within: { len ≤ 4096 },
}

impl Arg {
    fn get(rt: &HostRuntime, i: usize) -> Result<Arg, FillError> {
        let mut bytes = [0u8; ARG];
        let len = rt.arg(i, &mut bytes)?;
        Ok(Arg { bytes, len })
    }

    fn as_slice(&self) -> &[u8] {
        &self.bytes[..self.len]
    }
}

// The system's numbers for an argument that is not to be had.
const INVALID: i32 = 22;

const NAME_TOO_LONG: i32 = 36;

// What is said of an argument that is not to be had.
fn say_arg(rt: &HostRuntime, what: &[u8], e: FillError) -> Said {
    let number = match e {
        FillError::TooLong => NAME_TOO_LONG,
        FillError::NotPresent => INVALID,
    };
    say::failed(rt, what, io::Error::from_raw_os_error(number))
}

fn usage(rt: &HostRuntime) -> Said {
    say::told(
        rt,
        "usage: keeper PLAN BOOK [locked], or keeper PLAN BOOK new NODE BYTES",
    )
}

// Argument i as a number.
fn number_arg(rt: &HostRuntime, i: usize) -> Result<u64, Said> {
    let arg = Arg::get(rt, i).map_err(|_| usage(rt))?;
    plan_text::number_in(arg.as_slice()).ok_or_else(|| usage(rt))
}

// Sees that argument 3 is this word.
fn expect_word(rt: &HostRuntime, word: &[u8]) -> Result<(), Said> {
    let arg = Arg::get(rt, 3).map_err(|_| usage(rt))?;
    if arg.as_slice() == word {
        Ok(())
    } else {
        Err(usage(rt))
    }
}

// The numbers of `new NODE BYTES`, and the fresh book.
fn run_new(p: Plan, book: Named, text: &[u8]) -> Result<(), Said> {
    expect_word(book.rt, b"new")?;
    let node = number_arg(book.rt, 4)?;
    let bytes = number_arg(book.rt, 5)?;
    make(p, book, text, node, bytes)
}

// ---- the requests of the input

// The areas of the input, of the replies and of the numbers of a run, made once. The longest reply of a plan has 88 to 1,591 bytes: 329 of the
// longest fit, and no run has more frames than there are numbers.
const AREA: usize = 524288;

const NUMBERS: usize = 5957;

// An area of zeros. A proof of its caller sees its length, and not so many zeros.
fn zeros<const N: usize>() -> [u8; N] {
    [0u8; N]
}

impl Keeper<'_> {
    // The next run of what waits, or a read where no whole request does. Whether the input goes on.
    fn turn(self, most: usize, input: &mut Input, room: &mut Room) -> Result<bool, Said> {
        let run = input.run(most);
        let cut = run.len();
        if cut == 0 {
            return input.more(self.book.rt);
        }
        self.answer(run, room)?;
        input.pass(cut);
        Ok(true)
    }

    // A proved loop has to end, and nothing says that an input does: no input has as many turns.
    fn turns(self, input: &mut Input, room: &mut Room) -> Result<(), Said> {
        let most = self.most(room);
        for _ in 0..u64::MAX {
            if !self.turn(most, input, room)? {
                break;
            }
        }
        Ok(())
    }

    // The requests of the input, against a good book. The areas are made first of all: a function clears what it keeps when it is entered, and before an
    // early return that would be once more.
    fn requests(self) -> Result<(), Said> {
        let mut area = zeros::<AREA>();
        let mut reply = zeros::<AREA>();
        let mut numbers = zeros::<NUMBERS>();
        let mut input = Input::new(&mut area);
        let mut room = Room {
            reply: &mut reply,
            numbers: &mut numbers,
        };
        self.turns(&mut input, &mut room)
    }

    // The requests of the input, where the book is good.
    fn serve(self) -> Result<(), Said> {
        book_ok(self.plan, self.book)?;
        self.requests()
    }
}

// ---- what the arguments ask for

// The requests of the input, by who holds the lock of the book, once the book is on the disk: it stays there, since no other changes it.
fn run_locked(plan: Plan, book: Named) -> Result<(), Said> {
    expect_word(book.rt, b"locked")?;
    book.sync()?;
    let keeper = Keeper {
        plan,
        book,
        locked: true,
    };
    keeper.serve()
}

// What these arguments ask for, of the plan that the file PLAN says.
fn run_plan(file: Named, book: Named, count: usize) -> Result<(), Said> {
    let mut area = [0u8; 4096];
    let n = file.load(&mut area)?;
    let plan = planned::read(file, &area[..n])?;
    if count > 4 {
        return run_new(plan, book, &area[..n]);
    }
    planned::kept(plan, file, book)?;
    if count > 3 {
        return run_locked(plan, book);
    }
    let keeper = Keeper {
        plan,
        book,
        locked: false,
    };
    keeper.serve()
}

// Argument 1 is the name PLAN, argument 2 the name BOOK.
fn run(rt: &HostRuntime) -> Result<(), Said> {
    let count = arg_count(rt);
    if count != 3 && count != 4 && count != 6 {
        return Err(usage(rt));
    }
    let plan = Arg::get(rt, 1).map_err(|e| say_arg(rt, b"PLAN", e))?;
    let book = Arg::get(rt, 2).map_err(|e| say_arg(rt, b"BOOK", e))?;
    let file = Named {
        rt,
        name: plan.as_slice(),
    };
    let book = Named {
        rt,
        name: book.as_slice(),
    };
    run_plan(file, book, count)
}

// A line has said what was wrong; the status is 0 all the same.
fn main(rt: HostRuntime) {
    let _ = run(&rt);
}
