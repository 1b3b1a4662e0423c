// What is said of a plan's text, and of the plan that a book was made with.
use book_file::say::Said;
use book_file::{Named, say};
use plan_text::Wrong;
use std::fmt;
use terms::Plan;

// The name of value k of a plan's text, numbered as `plan_text` numbers it.
fn name_of(k: usize) -> &'static str {
    match k {
        0 => "N",
        1 => "t",
        2 => "b",
        3 => "Q",
        4 => "m",
        5 => "F",
        6 => "member",
        7 => "clients",
        _ => "W",
    }
}

// How value k stands in a plan's text.
#[derive(Drop)]
struct Form(usize);

impl fmt::Display for Form {
    fn fmt<W: fmt::Write>(&self, f: &mut fmt::Formatter<W>) -> fmt::Result {
        match self.0 {
            6 => write!(f, "member, and repairable or non-repair"),
            7 => write!(f, "clients, and crash or byzantine"),
            9 => write!(f, "nothing more"),
            k => write!(f, "{} and a number", name_of(k)),
        }
    }
}

fn say_wrong(rt: &HostRuntime, path: &[u8], wrong: Wrong) -> Said {
    let line = wrong.line;
    let form = Form(wrong.value);
    say::text(rt, path);
    say::told(rt, format_args!(", line {line}: here belongs {form}"))
}

// The plan that the text of the file PLAN says.
pub fn read(file: Named, text: &[u8]) -> Result<Plan, Said> {
    plan_text::read_plan(text).map_err(|wrong| say_wrong(file.rt, file.name, wrong))
}

// ---- the plan that the book was made with

// The name of the first value in which two plans differ, if they do in one but W: that is the reader's alone.
fn first_edit(p: Plan, q: Plan) -> Option<&'static str> {
    if p.n != q.n {
        Some("N")
    } else if p.t != q.t {
        Some("t")
    } else if p.b != q.b {
        Some("b")
    } else if p.q != q.q {
        Some("Q")
    } else if p.m != q.m {
        Some("m")
    } else if p.f != q.f {
        Some("F")
    } else if p.member != q.member {
        Some("member")
    } else if p.clients != q.clients {
        Some("clients")
    } else {
        None
    }
}

// PLAN: not the plan that the book was made with.
fn say_edited(file: Named, book: Named, name: &str) -> Said {
    say::text(file.rt, file.name);
    say::text(
        file.rt,
        b": this is not the plan that the book was made with: ",
    );
    say::text(file.rt, name.as_bytes());
    say::text(file.rt, b" differs from ");
    say::text(file.rt, book.name);
    say::told(file.rt, ".plan")
}

// Sees that the plan is the one of the text of BOOK.plan, but for W.
fn same_plan(plan: Plan, file: Named, book: Named, text: &[u8]) -> Result<(), Said> {
    match plan_text::read_plan(text) {
        Err(wrong) => {
            say::text(book.rt, book.name);
            Err(say_wrong(book.rt, b".plan", wrong))
        }
        Ok(made_with) => match first_edit(plan, made_with) {
            Some(name) => Err(say_edited(file, book, name)),
            None => Ok(()),
        },
    }
}

// Sees that the plan is the one that the book was made with, or that no one knows which that was.
pub fn kept(plan: Plan, file: Named, book: Named) -> Result<(), Said> {
    let mut area = [0u8; 4096];
    match book.load_plan(&mut area)? {
        Some(n) => same_plan(plan, file, book, &area[..n]),
        None => Ok(()),
    }
}
