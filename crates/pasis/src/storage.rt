// A storage-node's calls: a fresh book, one request against one book, and a run of them.
ghost use Rattle.answers.specs.Answers.{number_of};
ghost use Rattle.pasis.specs.Store.{FreshBook, NodeServes, RunServes};

use runs::Ran;
use terms::Refusal;

// Makes a fresh book of a node: its first 11 bytes.
pub fn pasis_fresh_book(plan: &[u8], node: u64, book: &mut [u8]) -> u32
    ensures { FreshBook plan.now node book.old result book.new }
{
    let p = packing::plan_of(plan);
    answers::number(node::fresh(p, node, book))
}

// Serves one request frame against one book, the reply frame into the reply buffer.
pub fn pasis_node(plan: &[u8], request: &[u8], book: &mut [u8], reply: &mut [u8]) -> u32
    ensures { NodeServes
        plan.now
        request.now
        book.old
        reply.old
        result
        book.new
        reply.new }
{
    let p = packing::plan_of(plan);
    answers::number(node::serve(p, request, book, reply))
}

// What a run came to, which is told into 24 bytes.
fn run_into(
    plan: &[u8],
    run: &[u8],
    book: &mut [u8],
    reply: &mut [u8],
    numbers: &mut [u8],
    told: &mut [u8],
) -> Result<Ran, Refusal>
    ensures { RunServes plan.now run.now book.old reply.old numbers.old told.old (number_of result) book.new reply.new numbers.new told.new }
{
    let p = packing::plan_of(plan);
    answers::lent(p, told.len() == 24)?;
    let a = runs::serve_run(p, run, book, reply, numbers);
    answers::put_told(a, told);
    a
}

// Serves a run of request frames against one book: the reply frames end to end, a number a frame, and what the run tells into 24 bytes.
pub fn pasis_run(
    plan: &[u8],
    run: &[u8],
    book: &mut [u8],
    reply: &mut [u8],
    numbers: &mut [u8],
    told: &mut [u8],
) -> u32
    ensures { RunServes
        plan.now
        run.now
        book.old
        reply.old
        numbers.old
        told.old
        result
        book.new
        reply.new
        numbers.new
        told.new }
{
    answers::number(run_into(plan, run, book, reply, numbers, told))
}
