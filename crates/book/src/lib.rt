// A book of one node: its shape, its last records, the fate of a record that is to be written, and a record put in its place.
// Document 01, "Records, books, frames" and "The node". A book is a value, its header read once: what goes by it serves any version.
#![tactic(auto)]

ghost use Rattle.std.specs.Prelude.{◌≡◌, true, false, [], ◌+◌, ◌*◌, ◌≤◌, ◌<◌, length, take, leb, ltb};
ghost use Rattle.octets.specs.Bytes.{part, num, over};
ghost use Rattle.terms.specs.Terms.{plan_ok};
ghost use Rattle.terms.specs.Stamp.{time};
ghost use Rattle.book.specs.Records.{timed, rising, below, last_of, last_below, fate_of};
ghost use Rattle.book.specs.Inside.{fate_by, Lies, Placed, Grows};
ghost use Rattle.book.specs.Book.{book_head, book_lent, book_in, records_in, used_in, headed, filled, laid_out, Checked, Holds};

use terms::{Accepted, Plan, Time};

// The bytes of the header of version 1: up to the count, which every version has, and no more.
const HEAD: usize = 11;

// What was read of a book, once: its version, the bytes of its header, its node number, its count, and the bytes of each record.
#[derive(Clone, Copy, PartialEq, Eq)]
pub struct Book {
    pub version: u64,
    pub head: usize,
    pub node: u64,
    pub count: usize,
    pub each: usize,
}

// Where some bytes of a book lie: a record, or no byte for the first triple.
#[derive(Clone, Copy, PartialEq, Eq)]
pub struct Span {
    pub at: usize,
    pub len: usize,
}

// What becomes of a record that is to be written: it is held; its timestamp is held with other bytes; or it is free to go to a place
// among the records.
#[derive(Clone, Copy, PartialEq, Eq)]
pub enum Fate {
    Held,
    Other,
    Free(usize),
}

// Whether a lent book may have n bytes.
pub fn lent(n: usize) -> bool
    ensures { result ≡ book_lent n }
{
    if n < HEAD {
        return false;
    }
    n <= 65536
}

// The header as a value: version 1 has no more than the fixed bytes.
// Here and below the bounds of a book stand beside its header: each of these is called at one or two places, where a literal of a type of the two would
// stand in place of the clause, and an insertion asks for the bytes back.
pub fn header_of(p: Accepted, book: &[u8]) -> Book
    requires { book_head 1 ≤ length book.now }
    ensures { (result ≡ book_in p.plan book.now) × (result.count < 65536) × (result.each ≤ 1576) × (73 ≤ result.each) }
{
    let version = octets::get(book, 4, 1);
    let node = octets::get(book, 6, 1);
    let count = octets::get(book, 9, 2) as usize;
    let each = terms::record_length(p);
    Book {
        version: version,
        head: HEAD,
        node: node,
        count: count,
        each: each,
    }
}

// Whether the records have each a time of 1 or more.
fn timed(k: Book, book: &[u8]) -> bool
    requires { (used_in k ≤ length book.now) × (40 ≤ k.each) }
    ensures { result ≡ timed (records_in k book.now) }
{
    for i in 0..k.count {
        if octets::get(book, k.head + i * k.each, 8) < 1 {
            return false;
        }
    }
    true
}

// Whether the records rise strictly.
fn rising(k: Book, book: &[u8]) -> bool
    requires { (used_in k ≤ length book.now) × (40 ≤ k.each) }
    ensures { result ≡ rising (records_in k book.now) }
{
    for i in 1..k.count {
        let before = k.head + (i - 1) * k.each;
        if !octets::less(book, before, book, before + k.each, 40) {
            return false;
        }
    }
    true
}

// Whether the numbers of the header are those of version 1 and this plan, with the length in use that goes with the count.
fn headed(p: Plan, k: Book, book: &[u8]) -> bool
    requires { (book_head 1 ≤ length book.now) × (k ≡ book_in p book.now) × (k.count < 65536) × (k.each ≤ 1576) }
    ensures { result ≡ headed 1 (book_head 1) p book.now }
{
    let n = p.n;
    if octets::get(book, 0, 4) != (k.head - 4 + k.count * k.each) as u64 {
        return false;
    }
    if k.version != 1 {
        return false;
    }
    if octets::get(book, 5, 1) != n {
        return false;
    }
    if k.node >= n {
        return false;
    }
    octets::get(book, 7, 2) == p.f
}

// Whether the records lie within the book, rise strictly and have times of 1 or more.
fn filled(p: Plan, k: Book, book: &[u8]) -> bool
    requires { (k ≡ book_in p book.now) × (k.count < 65536) × (k.each ≤ 1576) × (73 ≤ k.each) }
    ensures { result ≡ filled (book_head 1) p book.now }
{
    if book.len() < k.head + k.count * k.each {
        return false;
    }
    if !rising(k, book) {
        return false;
    }
    timed(k, book)
}

// The header of a book of this plan; none where the book is not of its shape (refusal 3). The second fact is for those who write it.
pub fn good(p: Accepted, book: &[u8]) -> Option<Book>
    requires { book_head 1 ≤ length book.now }
    ensures { Checked p.plan book.now result }
{
    let k = header_of(p, book);
    if !headed(p.plan, k, book) {
        return None;
    }
    if filled(p.plan, k, book) {
        return Some(k);
    }
    None
}

// Whether the record at `at` is strictly below the timestamp at `s` of src.
fn is_below(book: &[u8], at: usize, src: &[u8], s: usize) -> bool
    requires { (at + 40 ≤ length book.now) × (s + 40 ≤ length src.now) }
    ensures { result ≡ ltb (num (part book.now at 40)) (num (part src.now s 40)) }
{
    octets::less(book, at, src, s, 40)
}

// How many of the records are below the timestamp at `s` of src.
fn place(k: Book, book: &[u8], src: &[u8], s: usize) -> usize
    requires { (used_in k ≤ length book.now) × (40 ≤ k.each) × (s + 40 ≤ length src.now) }
    ensures { result ≡ below (num (part src.now s 40)) (records_in k book.now) }
{
    let m = k.count;
    for i in 0..m {
        if !is_below(book, k.head + i * k.each, src, s) {
            return i;
        }
    }
    m
}

// Where the last of the first i records lies.
fn span_of(k: Book, book: &[u8], i: usize) -> Span
    requires { (i ≤ k.count) × (used_in k ≤ length book.now) }
    ensures { Lies book.now k.each (last_of (take i (records_in k book.now))) result }
{
    if i == 0 {
        return Span { at: 0, len: 0 };
    }
    let r = k.each;
    Span {
        at: k.head + (i - 1) * r,
        len: r,
    }
}

// Where the last record lies.
pub fn last(k: Book, book: &[u8]) -> Span
    requires { Holds k book.now }
    ensures { Lies book.now k.each (last_of (records_in k book.now)) result }
{
    span_of(k, book, k.count)
}

// Where the last record strictly below the timestamp at `s` of src lies.
pub fn last_below(k: Book, book: &[u8], src: &[u8], s: usize) -> Span
    requires { Holds k book.now × (s + 40 ≤ length src.now) }
    ensures { Lies book.now k.each (last_below (num (part src.now s 40)) (records_in k book.now)) result }
{
    let i = place(k, book, src, s);
    span_of(k, book, i)
}

// The time of the last record, 0 if there is none.
pub fn last_time(k: Book, book: &[u8]) -> Time
    requires { Holds k book.now }
    ensures { result.0 ≡ time (last_of (records_in k book.now)) }
{
    let m = k.count;
    if m == 0 {
        return Time(0);
    }
    Time(octets::get(book, k.head + (m - 1) * k.each, 8))
}

// What becomes of the record at `from` of src where the record at x of book stands at its place i.
fn fate_by(book: &[u8], x: Span, src: &[u8], from: usize, i: usize) -> Fate
    requires { (x.at + x.len ≤ length book.now) × (from + x.len ≤ length src.now) × (40 ≤ x.len) }
    ensures { result ≡ fate_by (part book.now x.at x.len) (part src.now from x.len) i }
{
    if !octets::same(book, x.at, src, from, 40) {
        return Fate::Free(i);
    }
    if octets::same(book, x.at, src, from, x.len) {
        return Fate::Held;
    }
    Fate::Other
}

// What becomes of the record at `from` of src: its place in the book is looked for once, here.
pub fn fate_of(k: Book, book: &[u8], src: &[u8], from: usize) -> Fate
    requires { Holds k book.now × (from + k.each ≤ length src.now) }
    ensures { result ≡ fate_of (part src.now from k.each) (records_in k book.now) }
{
    let i = place(k, book, src, from);
    if i < k.count {
        let x = Span {
            at: k.head + i * k.each,
            len: k.each,
        };
        return fate_by(book, x, src, from, i);
    }
    Fate::Free(i)
}

// Whether a book lent as n bytes has room for one more record.
pub fn room(k: Book, n: usize) -> bool
    requires { used_in k ≤ n }
    ensures { result ≡ leb (used_in k + k.each) n }
{
    let r = k.each;
    if n - (k.head + k.count * r) < r {
        return false;
    }
    true
}

// The record at `from` of src put in its place i, in a book that has room for it: what follows moves up, length and count follow. The
// outcome is told in the words of every plan that the book is of.
pub fn insert(k: Book, book: &mut [u8], i: usize, src: &[u8], from: usize)
    requires { Placed k book.old src.now from i }
    ensures { Grows k (part src.now from k.each) book.old book.new }
{
    let r = k.each;
    let at = k.head + i * r;
    let end = k.head + k.count * r;
    octets::up(book, at, end - at, r);
    octets::copy(src, from, r, book, at);
    octets::put_num(book, 0, 4, (end + r - 4) as u64);
    octets::put_num(book, 9, 2, (k.count + 1) as u64);
}

// A version 1 book with no record: its header, and bytes past it stay.
pub fn fresh(p: Plan, node: u64, book: &mut [u8])
    requires { book_head 1 ≤ length book.old }
    ensures { book.new ≡ over (laid_out p node []) book.old }
{
    octets::put_num(book, 0, 4, (HEAD - 4) as u64);
    octets::put_num(book, 4, 1, 1);
    octets::put_num(book, 5, 1, p.n);
    octets::put_num(book, 6, 1, node);
    octets::put_num(book, 7, 2, p.f);
    octets::put_num(book, 9, 2, 0);
}
