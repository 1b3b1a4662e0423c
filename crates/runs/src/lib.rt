// A run of frames laid end to end, served in one call. Document 02, Q-3. The reader holds the run and its place and says where the next frame
// ends; the call cuts the run, checks the book's shape once, and gives each frame to the node as if it came singly.
#![tactic(auto)]

ghost use Rattle.std.specs.Prelude.{◌≡◌, true, ◌<◌, length};
ghost use Rattle.terms.specs.Terms.{plan_ok};
ghost use Rattle.node.specs.Node.{said_served};
ghost use Rattle.runs.specs.Cuts.{next_place, cut_run};
ghost use Rattle.runs.specs.Runs.{number_said, length_said, room_for, RunCall};
ghost use Rattle.runs.specs.Inside.{Ready, Took, Fit, TookAll};

use terms::{Accepted, Plan, Refusal};

// "Walked through by a reader that holds the run and its place."
#[derive(Clone, Copy)]
pub struct Reader<'a> {
    pub run: &'a [u8],
    pub at: usize,
}

// What a run came to: frames cut, bytes of replies written, place where the run ended.
#[derive(Clone, Copy, PartialEq, Eq)]
pub struct Ran {
    pub frames: usize,
    pub written: usize,
    pub ended: usize,
}

// How many frames a run has, and where it ends.
#[derive(Clone, Copy, PartialEq, Eq)]
pub struct Counted {
    pub frames: usize,
    pub ended: usize,
}

// The cutter: where the frame that starts at a place ends; the place itself where none starts there.
pub fn place_after(run: &[u8], at: usize) -> usize
    ensures { result ≡ next_place run.now at }
{
    frame::cut_at(run, at).unwrap_or(at)
}

// A reader of a run, at a place.
pub fn at_place<'a>(run: &'a [u8], at: usize) -> Reader<'a>
    ensures { (result.run ≡ run.entry) × (result.at ≡ at) }
{
    Reader { run, at }
}

// Where a reader goes on from its place.
pub fn next<'a>(r: Reader<'a>) -> usize
    ensures { result ≡ next_place r.entry.run.now r.entry.at }
{
    place_after(r.run, r.at)
}

// One step of a reader over a run: for callers with a plain slice and a place.
pub fn ends(run: &[u8], at: usize) -> usize
    ensures { result ≡ next_place run.now at }
{
    next(at_place(run, at))
}

// Frames differ in length: each turn goes to the end that the frame before it has, so no `for` counts it. So below.
pub fn count(run: &[u8]) -> Counted
    ensures { (result.frames ≡ length (cut_run run.now).frames) × (result.ended ≡ (cut_run run.now).ended) }
{
    let mut at = 0;
    let mut n = 0;
    let mut end = ends(run, 0);
    while at < end {
        n += 1;
        at = end;
        end = ends(run, at);
    }
    Counted {
        frames: n,
        ended: at,
    }
}

// One number a frame, 0 if accepted.
fn number_of(a: Result<usize, Refusal>) -> u8
    ensures { result ≡ number_said (said_served a) }
{
    match a {
        Err(r) => r.number() as u8,
        Ok(_) => 0,
    }
}

// The bytes that a frame adds to the replies.
fn length_of(a: Result<usize, Refusal>) -> usize
    ensures { result ≡ length_said (said_served a) }
{
    a.unwrap_or(0)
}

// One frame of a run: the single call on it, lent the room of one reply past the replies so far, and its number.
fn take_one(
    p: Accepted,
    room: usize,
    f: &[u8],
    book: &mut [u8],
    reply: &mut [u8],
    out: usize,
    numbers: &mut [u8],
    k: usize,
) -> usize
    requires { Ready p.plan book.old reply.old out room × (k < length numbers.old) }
    ensures { Took p.plan f.now book.old reply.old out numbers.old k result book.new reply.new numbers.new }
{
    let h = book::header_of(p, book);
    let a = node::serve_at(p, h, f, book, &mut reply[out..out + room]);
    numbers[k] = number_of(a);
    length_of(a)
}

// Every frame of a run, in order.
fn take_all(p: Accepted, run: &[u8], book: &mut [u8], reply: &mut [u8], numbers: &mut [u8]) -> usize
    requires { Fit p.plan run.now book.old reply.old numbers.old }
    ensures { TookAll p.plan run.now book.old reply.old numbers.old result book.new reply.new numbers.new }
{
    let room = frame::longest(1, p);
    let mut at = 0;
    let mut k = 0;
    let mut out = 0;
    let mut end = ends(run, 0);
    while at < end {
        let n = take_one(p, room, &run[at..end], book, reply, out, numbers, k);
        out += n;
        k += 1;
        at = end;
        end = ends(run, at);
    }
    out
}

// 21: R+15 reply bytes and one number place for each frame cut.
fn room_for(p: Accepted, frames: usize, reply: usize, numbers: usize) -> bool
    ensures { result ≡ room_for p.plan frames reply numbers }
{
    // by division: the product may be above 2^64
    let most = reply / frame::longest(1, p);
    if most < frames {
        return false;
    }
    frames <= numbers
}

// A whole evening's frames in one call.
pub fn serve_run(
    p: Plan,
    run: &[u8],
    book: &mut [u8],
    reply: &mut [u8],
    numbers: &mut [u8],
) -> Result<Ran, Refusal>
    ensures { RunCall p run.now book.old reply.old numbers.old result book.new reply.new numbers.new }
{
    if !terms::plan_ok(p) {
        return Err(Refusal::OutsidePlan);
    }
    let accepted = Accepted { plan: p };
    if !book::lent(book.len()) {
        return Err(Refusal::WrongLength);
    }
    let c = count(run);
    if !room_for(accepted, c.frames, reply.len(), numbers.len()) {
        return Err(Refusal::ShortForRun);
    }
    let Some(_) = book::good(accepted, book) else {
        return Err(Refusal::WrongBook);
    };
    let written = take_all(accepted, run, book, reply, numbers);
    Ok(Ran {
        frames: c.frames,
        written: written,
        ended: c.ended,
    })
}
