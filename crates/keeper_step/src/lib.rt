// What a run of requests comes to: the call of a run, what has to be done before its replies go out, and what is then due. A reply tells of what
// the book holds, so it goes out only over a book that is on the disk. Document 01, "The node", and document 02, Q-3. A program over files (keeper)
// does what this says; nothing here reads or writes a file.
#![tactic(auto)]

ghost use Rattle.std.specs.Prelude.{◌≡◌, false, ◌≤◌, length};
ghost use Rattle.frame.specs.Frame.{head_bytes, header_in};
ghost use Rattle.node.specs.Node.{writes};
ghost use Rattle.keeper_step.specs.Step.{asks_to_write, may_tell, next_after, Looked, Stepped, due_after};

use runs::Ran;
use terms::{Plan, Refusal};

// What the replies of a run wait for: nothing, over a book that is as it was and may be told of; that a book that is as it was gets to the disk; or
// that one that has changed is stored.
#[derive(Clone, Copy, PartialEq, Eq)]
pub enum Waits {
    Nothing,
    Sync,
    Store,
}

// What a run came to, and what its replies wait for.
#[derive(Clone, Copy, PartialEq, Eq)]
pub struct Next {
    pub ran: Ran,
    pub waits: Waits,
}

// What goes out: the numbers of so many frames, and so many bytes of replies.
#[derive(Clone, Copy, PartialEq, Eq)]
pub struct Due {
    pub frames: usize,
    pub written: usize,
}

// Whether a frame that was cut is a write request.
fn is_write(f: &[u8]) -> bool
    requires { head_bytes 1 ≤ length f.now }
    ensures { result ≡ writes (header_in f.now) }
{
    let h = frame::header_of(f);
    let kind = h.kind;
    kind == frame::WRITE_REQUEST
}

// Whether a run may change a book: one of its frames is a write request.
// Each turn goes to the end of the frame, as `runs` does.
pub fn asks_to_write(run: &[u8]) -> bool
    ensures { result ≡ asks_to_write run.now }
{
    let mut at = 0;
    let mut end = runs::ends(run, 0);
    while at < end {
        if is_write(&run[at..end]) {
            return true;
        }
        at = end;
        end = runs::ends(run, at);
    }
    false
}

// Whether replies of so many bytes may go out over a book that is as it came: it was on the disk then, or nothing is told of it.
fn may_tell(written: usize, durable: bool) -> bool
    ensures { result ≡ may_tell written durable }
{
    if written == 0 {
        return true;
    }
    durable
}

// What the replies of a run wait for. `same` says whether the book is as it came, `durable` whether it was on the disk then.
fn waits_for(ran: Ran, same: bool, durable: bool) -> Next
    ensures { result ≡ next_after ran same durable }
{
    let tell = may_tell(ran.written, durable);
    let waits = match (same, tell) {
        (true, true) => Waits::Nothing,
        (true, false) => Waits::Sync,
        (false, _) => Waits::Store,
    };
    Next { ran, waits }
}

// A run that may not change the book, and does not.
pub fn look(
    p: Plan,
    durable: bool,
    run: &[u8],
    book: &mut [u8],
    reply: &mut [u8],
    numbers: &mut [u8],
) -> Result<Next, Refusal>
    requires { asks_to_write run.now ≡ false }
    ensures { Looked p durable run.now book.old reply.old numbers.old result book.new reply.new numbers.new }
{
    let looked = runs::serve_run(p, run, book, reply, numbers)?;
    Ok(waits_for(looked, true, durable))
}

// Any run. `before` is lent to hold the book as it came.
fn step_with(
    p: Plan,
    durable: bool,
    run: &[u8],
    book: &mut [u8],
    before: &mut [u8],
    reply: &mut [u8],
    numbers: &mut [u8],
) -> Result<Next, Refusal>
    requires { length book.old ≤ length before.old }
    ensures { Stepped p durable run.now book.old reply.old numbers.old result book.new reply.new numbers.new }
{
    let n = book.len();
    octets::copy(book, 0, n, before, 0);
    let ran = runs::serve_run(p, run, book, reply, numbers)?;
    let same = octets::same(book, 0, before, 0, n);
    Ok(waits_for(ran, same, durable))
}

// Any run, against a book that is no longer than document 01 allows.
pub fn step(
    p: Plan,
    durable: bool,
    run: &[u8],
    book: &mut [u8],
    reply: &mut [u8],
    numbers: &mut [u8],
) -> Result<Next, Refusal>
    requires { length book.old ≤ 65536 }
    ensures { Stepped p durable run.now book.old reply.old numbers.old result book.new reply.new numbers.new }
{
    let mut before = [0u8; 65536];
    step_with(p, durable, run, book, &mut before, reply, numbers)
}

// What is due once it is known whether the book has got to the disk: replies go out only over one that is there.
pub fn due_after(x: Result<Next, Refusal>, safe: bool) -> Result<Option<Due>, Refusal>
    ensures { result ≡ due_after x safe }
{
    let next = x?;
    let due = Due {
        frames: next.ran.frames,
        written: next.ran.written,
    };
    match next.waits {
        Waits::Nothing => Ok(Some(due)),
        Waits::Sync | Waits::Store => Ok(if safe { Some(due) } else { None }),
    }
}
