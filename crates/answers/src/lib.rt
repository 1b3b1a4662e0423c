// What a call answers, as a host is told it: a number for each answer, and the 42 bytes of an ending. 0 is served, opened, or accepted and
// open; 1 to 31 the documents' refusals, of which 15 to 19 and 22 to 31 are kept free; 101 to 105 the endings. Before the call come 1 and 2 of what a host lends.
#![tactic(auto)]

ghost use Rattle.std.specs.Prelude.{◌≡◌, Ok, length};
ghost use Rattle.terms.specs.Ladder.{first};
ghost use Rattle.terms.specs.Stamp.{stamp_number};
ghost use Rattle.session.specs.Session.{said_of};
ghost use Rattle.wish.specs.Wish.{said_smallest};
ghost use Rattle.runs.specs.Runs.{said_ran};
ghost use Rattle.answers.specs.Answers.{both_fit, lent_ladder, number_of, answer_number, counts_bytes, counts_after, told_bytes, told_after, ending_bytes, ending_after};

use runs::Ran;
use session::Answer;
use terms::{Plan, Refusal, Timestamp};
use wish::Counts;

// The number of an answer that a host is told as served or refused: 0, or the refusal's. Fresh books, requests served and owed, plans and runs.
pub fn number<T: Copy>(a: Result<T, Refusal>) -> u32
    ensures { result ≡ number_of a }
{
    match a {
        Ok(_) => 0,
        Err(r) => r.number(),
    }
}

// The number of an answer to a reply, where an ending has one of its own.
pub fn answer_number(a: Result<Answer, Refusal>) -> u32
    ensures { result ≡ answer_number (said_of a) }
{
    match a {
        Err(r) => r.number(),
        Ok(Answer::Open) => 0,
        Ok(Answer::Done(_, _)) => 101,
        Ok(Answer::NeverWritten(_)) => 102,
        Ok(Answer::Aborted(_)) => 103,
        Ok(Answer::RoundsSpent(_)) => 104,
        Ok(Answer::ClockSpent) => 105,
    }
}

// Writes N and Q.
fn write_counts(n: u64, q: u64, counts: &mut [u8])
    requires { length counts.old ≡ 2 }
    ensures { counts.new ≡ counts_bytes n q }
{
    octets::put_num(counts, 0, 1, n);
    octets::put_num(counts, 1, 1, q);
}

// Writes the counts that an answer tells, if it tells any.
pub fn put_counts(a: Result<Counts, Refusal>, counts: &mut [u8])
    requires { length counts.old ≡ 2 }
    ensures { counts.new ≡ counts_after (said_smallest a) counts.old }
{
    match a {
        Err(_) => {}
        Ok(c) => write_counts(c.n, c.q, counts),
    }
}

// Writes the three numbers of a run.
fn write_told(frames: usize, written: usize, ended: usize, told: &mut [u8])
    requires { length told.old ≡ 24 }
    ensures { told.new ≡ told_bytes frames written ended }
{
    octets::put_word(told, 0, frames as u64);
    octets::put_word(told, 8, written as u64);
    octets::put_word(told, 16, ended as u64);
}

// Writes what a run tells, if it was not refused.
pub fn put_told(a: Result<Ran, Refusal>, told: &mut [u8])
    requires { length told.old ≡ 24 }
    ensures { told.new ≡ told_after (said_ran a) told.old }
{
    match a {
        Err(_) => {}
        Ok(x) => write_told(x.frames, x.written, x.ended, told),
    }
}

// Writes the timestamp and the rounds of an ending.
// An ending is lent by C as a slice, here and below, and its length is a rule of the call: an array would be made of it at each call, for nothing.
fn write_ending(t: Timestamp, rounds: u64, ending: &mut [u8])
    requires { length ending.old ≡ 42 }
    ensures { ending.new ≡ ending_bytes (stamp_number t) rounds }
{
    terms::put_stamp(ending, 0, t);
    octets::put_num(ending, 40, 2, rounds);
}

// Writes the ending that an accepted reply tells, if it tells one.
fn put_told_ending(a: Answer, ending: &mut [u8])
    requires { length ending.old ≡ 42 }
    ensures { ending.new ≡ ending_after (said_of (Ok a)) ending.old }
{
    let none = terms::zero_stamp();
    match a {
        Answer::Open => {}
        Answer::Done(t, n) => write_ending(t, n, ending),
        Answer::NeverWritten(n) => write_ending(none, n, ending),
        Answer::Aborted(n) => write_ending(none, n, ending),
        Answer::RoundsSpent(n) => write_ending(none, n, ending),
        Answer::ClockSpent => write_ending(none, 0, ending),
    }
}

// Writes the ending that an answer tells, if it tells one.
pub fn put_ending(a: Result<Answer, Refusal>, ending: &mut [u8])
    requires { length ending.old ≡ 42 }
    ensures { ending.new ≡ ending_after (said_of a) ending.old }
{
    match a {
        Err(_) => {}
        Ok(x) => put_told_ending(x, ending),
    }
}

// 1 and 2 of what every client's call is lent.
pub fn lent(p: Plan, fits: bool) -> Result<(), Refusal>
    ensures { number_of result ≡ first (lent_ladder p fits) (λ k. k) 0 }
{
    if !terms::plan_ok(p) {
        return Err(Refusal::OutsidePlan);
    }
    if !fits {
        return Err(Refusal::WrongLength);
    }
    Ok(())
}

// Whether a session and an ending have their lengths.
pub fn both_fit(session: usize, ending: usize) -> bool
    ensures { result ≡ both_fit session ending }
{
    if session != packing::SESSION {
        return false;
    }
    ending == 42
}
