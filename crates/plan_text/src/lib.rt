// A plan as a text: nine lines in document 01's order, each a name and a value.
//
//     N 5
//     t 1
//     b 1
//     Q 3
//     m 2
//     F 1024
//     member repairable     (or non-repair)
//     clients crash         (or byzantine)
//     W 16
//
// What follows a # is a comment; blank lines, and blanks around a name and a value, are nothing. Whether the plan is within its rules is
// another question, and document 01's refusal 1.
#![tactic(auto)]

ghost use Rattle.std.specs.Prelude.{◌≡◌, ◌+◌, ◌<◌, ◌≤◌, ◌∷◌, ◌==◌, cond, not, length, reverse, take_while};
ghost use Rattle.plan_text.specs.Text.{numeral_of};
ghost use Rattle.plan_text.specs.Lines.{blank, until, past, chop, lines_of, words_of, after_name, chosen, value_of, plan_from, plan_text};

use terms::{Clients, Member, Plan};

// Why a text is no plan: the line, and the number of the value that is not to be had there.
#[derive(Clone, Copy, Debug, PartialEq, Eq)]
pub struct Wrong {
    pub line: u64,
    pub value: usize,
}

// The number that some bytes write in decimal, of at most 999,999,999, if they do.
#[tactic(auto, using(crate::proofs::Numbers::none, crate::proofs::Numbers::start, crate::proofs::Numbers::low, crate::proofs::Numbers::high, crate::proofs::Numbers::big, crate::proofs::Numbers::on, crate::proofs::Numbers::done))]
pub fn number_in(s: &[u8]) -> Option<u64>
    ensures { result ≡ numeral_of s.now }
{
    if s.is_empty() {
        return None;
    }
    let mut x = 0;
    for d in s {
        match *d {
            d @ b'0'..=b'9' if x <= 99999999 => x = x * 10 + (d - b'0') as u64,
            _ => return None,
        }
    }
    Some(x)
}

#[tactic(auto, using(std::proofs::lemmas::Bool::Decides::nat_tests), unfolding(crate::specs::Lines::blank))]
fn is_blank(x: u8) -> bool
    ensures { result ≡ blank x }
{
    matches!(x, b'\t' | b'\r' | b' ')
}

// The place of the first byte x, or the end.
fn place_of(s: &[u8], x: u8) -> usize
    ensures { result ≡ length (take_while (λ y. not (y == x)) s.now) }
{
    s.iter().take_while(|y| **y != x).count()
}

// The place of the first byte that is not blank, or the end.
fn first_word(s: &[u8]) -> usize
    ensures { result ≡ length (take_while blank s.now) }
{
    s.iter().take_while(|x| is_blank(**x)).count()
}

// What is left without the blanks at the start.
#[tactic(auto, using(crate::proofs::Lines::past_drop, crate::proofs::Lines::while_fits))]
fn trim_start(s: &[u8]) -> &[u8]
    ensures { result.now ≡ past s.now }
{
    &s[first_word(s)..]
}

// How many blanks stand at the end.
fn blanks_at_end(s: &[u8]) -> usize
    ensures { result ≡ length (take_while blank (reverse s.now)) }
{
    s.iter().rev().take_while(|x| is_blank(**x)).count()
}

// What is left without the blanks at the end.
#[tactic(auto, using(crate::proofs::Lines::chop_take, crate::proofs::Lines::ends_fit))]
fn trim_end(s: &[u8]) -> &[u8]
    ensures { result.now ≡ chop s.now }
{
    &s[..s.len() - blanks_at_end(s)]
}

// The words of a line: what stands before its comment, without the blanks at both ends.
#[tactic(auto, using(crate::proofs::Lines::words_are, crate::proofs::Lines::until_take, crate::proofs::Lines::while_fits))]
fn words(line: &[u8]) -> &[u8]
    ensures { result.now ≡ words_of line.now }
{
    let comment = place_of(line, b'#');
    trim_end(trim_start(&line[..comment]))
}

// The first line of a text, and the text after it.
#[tactic(auto, using(crate::proofs::Lines::until_take, crate::proofs::Lines::line_rest, crate::proofs::Lines::while_fits))]
fn first_line(s: &[u8]) -> (&[u8], &[u8])
    requires { 0 < length s.now }
    ensures line { result.0.now ≡ until 10 s.now }
    ensures shorter { length result.1.now < length s.now }
    ensures then_rest { lines_of s.now ≡ until 10 s.now ∷ lines_of result.1.now }
{
    let end = place_of(s, b'\n');
    let next = (end + 1).min(s.len());
    (&s[..end], &s[next..])
}

// What follows a name and a blank; nothing where the words do not start so.
#[tactic(auto, using(crate::proofs::Values::name_short, crate::proofs::Values::name_other, crate::proofs::Values::name_tight, crate::proofs::Values::name_is))]
fn after_name<'a>(w: &'a [u8], name: &[u8]) -> &'a [u8]
    ensures { result.now ≡ after_name name.now w.now }
{
    let n = name.len();
    if w.len() > n && w.starts_with(name) && is_blank(w[n]) {
        trim_start(&w[n..])
    } else {
        &[]
    }
}

// The number that has this name.
fn named(w: &[u8], name: &[u8]) -> Option<u64>
    ensures { result ≡ numeral_of (after_name name.now w.now) }
{
    number_in(after_name(w, name))
}

// Which of two words has this name: 0 or 1.
#[tactic(auto, using(crate::proofs::Values::chosen_zero, crate::proofs::Values::chosen_one, crate::proofs::Values::chosen_none))]
fn either(w: &[u8], name: &[u8], zero: &[u8], one: &[u8]) -> Option<u64>
    ensures { result ≡ chosen zero.now one.now (after_name name.now w.now) }
{
    let word = after_name(w, name);
    if word == zero {
        Some(0)
    } else if word == one {
        Some(1)
    } else {
        None
    }
}

// Value k of the nine, in the words of a line. They go by their numbers, as in the theorem `plan_text`, whose refusals name k.
#[tactic(auto, unfolding(crate::specs::Lines::value_of, crate::specs::Lines::written))]
fn value(w: &[u8], k: usize) -> Option<u64>
    ensures { result ≡ value_of k w.now }
{
    match k {
        0 => named(w, b"N"),
        1 => named(w, b"t"),
        2 => named(w, b"b"),
        3 => named(w, b"Q"),
        4 => named(w, b"m"),
        5 => named(w, b"F"),
        6 => either(w, b"member", b"repairable", b"non-repair"),
        7 => either(w, b"clients", b"crash", b"byzantine"),
        8 => named(w, b"W"),
        _ => None,
    }
}

// What a text says: a plan, or the line and the value that is not to be had there.
#[tactic(auto, using(crate::proofs::Values::start, crate::proofs::Values::nine))]
pub fn read_plan(s: &[u8]) -> Result<Plan, Wrong>
    ensures { result ≡ plan_text s.now }
{
    let mut values = [0u64; 9];
    let mut k = 0;
    let mut lines: u64 = 0;
    let mut rest = s;
    while !rest.is_empty() {
        let (line, next) = first_line(rest);
        let w = words(line);
        lines += 1;
        if !w.is_empty() {
            let Some(x) = value(w, k) else {
                return Err(Wrong {
                    line: lines,
                    value: k,
                });
            };
            values[k] = x;
            k += 1;
        }
        rest = next;
    }
    let few = k < 9;
    if few {
        return Err(Wrong {
            line: lines,
            value: k,
        });
    }
    Ok(plan_of(&values))
}

// The first of two for 0, the second for any other number.
fn which<T: Copy>(x: u64, zero: T, other: T) -> T
    ensures { result ≡ cond (x == 0) zero other }
{
    if x == 0 { zero } else { other }
}

// The plan of nine values.
#[tactic(auto, unfolding(crate::specs::Lines::plan_from, crate::specs::Lines::member_from, crate::specs::Lines::clients_from))]
fn plan_of(v: &[u64; 9]) -> Plan
    ensures { result ≡ plan_from v.now }
{
    Plan {
        n: v[0],
        t: v[1],
        b: v[2],
        q: v[3],
        m: v[4],
        f: v[5],
        member: which(v[6], Member::Repairable, Member::NonRepair),
        clients: which(v[7], Clients::Crash, Clients::Byzantine),
        w: v[8],
    }
}
