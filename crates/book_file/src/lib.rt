// Files for the programs: read whole, and changed so that a crash leaves the old or the new one. A book is changed by writing the whole
// new one to BOOK.new, waiting until it is on the disk, giving it the name BOOK, and waiting until that name is on the disk: at any moment
// BOOK is the old book or the new one, whole. BOOK.new is made only where no file has that name, so that one keeper at a time has it, and a
// keeper reads BOOK, changes it and lets BOOK.new go while it has it. One that a crash left stays until an operator removes it, or a keeper
// comes that is told that it holds the lock of the book (docs/DECISIONS.md, "keeper").
//
// A name is bytes here, as the system has it, and is said as it stands. std opens names of UTF-8 only: any other is refused as the system
// refuses a name that it cannot read. What cannot be had is an `Err` once a line has said why.
#![tactic(auto)]

pub mod say;

ghost use Rattle.std.specs.Prelude.{◌≤◌, ◌≡◌, IfOk, IfSome, length};
ghost use Rattle.io.specs.Counts.{IsPrefixLen};

use say::Said;
use std::fmt::Display;
use std::fs::{File, OpenOptions};
use std::io::{ErrorKind, Read, Write};
use std::time::Clock;
use std::{fs, io, thread};

// The seconds for which a program waits for BOOK.new.
const PATIENCE: u64 = 5;

// The room for a name beside BOOK: no path of the system is longer.
const NAME: usize = 4096;

// The system's number for text that is none, of a name that is not UTF-8.
const NOT_TEXT: i32 = 84;

// ---- files by their names

// A file by its name, and the runtime that reaches it.
#[derive(Clone, Copy)]
pub struct Named<'a> {
    pub rt: &'a HostRuntime,
    pub name: &'a [u8],
}

impl<'a> Named<'a> {
    fn text(self) -> io::Result<&'a str> {
        match std::str::from_utf8(self.name) {
            Ok(text) => Ok(text),
            Err(_) => Err(io::Error::from_raw_os_error(NOT_TEXT)),
        }
    }

    fn open(self) -> io::Result<File> {
        File::open(self.rt, self.text()?)
    }

    // Makes a file of a name that nothing has.
    fn create(self) -> io::Result<File> {
        OpenOptions::new()
            .write(true)
            .create_new(true)
            .open(self.rt, self.text()?)
    }

    fn rename_to(self, to: Named) -> io::Result<()> {
        fs::rename(self.rt, self.text()?, to.text()?)
    }

    fn remove(self) -> io::Result<()> {
        fs::remove_file(self.rt, self.text()?)
    }

    // Takes a file away, if it is there.
    fn unlink(self) {
        let _ = self.remove();
    }

    // Waits until the bytes of a file, or the names in a folder, are on the disk.
    fn sync_all(self) -> io::Result<()> {
        let file = self.open()?;
        file.sync_all()
    }

    fn about(self, what: impl Display + Drop) -> Said {
        say::told_of(self.rt, self.name, what)
    }

    fn failed(self, e: io::Error) -> Said {
        say::failed(self.rt, self.name, e)
    }

    // What is said of a file that has bytes left: the area was full, or a read failed before it was.
    fn left_over(self, full: bool) -> Said {
        if full {
            self.about("longer than it may be")
        } else {
            self.about("a read of it failed")
        }
    }

    // Sees that a file that was read has no byte left.
    fn at_end(self, file: &mut File, full: bool) -> Result<(), Said> {
        let mut more = [0u8; 1];
        match file.read(&mut more) {
            Ok(0) => Ok(()),
            Ok(_) => Err(self.left_over(full)),
            Err(e) => Err(self.failed(e)),
        }
    }

    // The open file at the start of an area, and closed again.
    fn load_open(self, mut file: File, area: &mut [u8]) -> Result<usize, Said>
        ensures { IfOk result (λ n. IsPrefixLen n area.new) }
    {
        let length = read_full(&mut file, area);
        self.at_end(&mut file, length == area.len())?;
        Ok(length)
    }

    // The whole file at the start of an area, and how many bytes it has.
    pub fn load(self, area: &mut [u8]) -> Result<usize, Said>
        ensures { IfOk result (λ n. IsPrefixLen n area.new) }
    {
        let file = self.open().map_err(|e| self.failed(e))?;
        self.load_open(file, area)
    }

    // Waits until a book that was read is on the disk, its bytes and its name, whoever wrote it. Where another has taken its name since, that one
    // is waited for: it was on the disk before it took the name, and holds all that the one before it held.
    pub fn sync(self) -> Result<(), Said> {
        self.sync_all().map_err(|e| self.failed(e))?;
        self.sync_name()
    }

    // Waits until the name of a file is on the disk.
    fn sync_name(self) -> Result<(), Said> {
        let folder = Named {
            rt: self.rt,
            name: folder_of(self.name),
        };
        folder.sync_all().map_err(|e| folder.failed(e))
    }
}

// Reads until the area is full, the file ends or a read fails, and answers how many bytes are at its start. A read moves the place by as many bytes
// as it gives, which no `for` counts.
fn read_full(file: &mut File, area: &mut [u8]) -> usize
    ensures { result ≤ length area.new }
{
    let mut done = 0;
    while done < area.len() {
        match file.read(&mut area[done..]) {
            Ok(0) | Err(_) => return done,
            Ok(n) => done += n,
        }
    }
    done
}

// The path up to its last slash, with it; the folder of the program where it has none.
fn folder_of(path: &[u8]) -> &[u8] {
    match path.iter().rposition(|c| *c == b'/') {
        Some(k) => &path[..k + 1],
        None => b".",
    }
}

// ---- names beside BOOK

// The name of a file beside BOOK; empty, which no file is called, where it does not fit.
#[derive(Drop)]
struct Name {
    bytes: [u8; NAME],
    len: usize,
    ghost within: { len ≤ 4096 },
}

impl Name {
    fn beside(path: &[u8], ending: &[u8]) -> Name {
        let mut bytes = [0u8; NAME];
        let n = path.len();
        let len = n + ending.len();
        if len > NAME {
            return Name { bytes, len: 0 };
        }
        bytes[..n].copy_from_slice(path);
        bytes[n..len].copy_from_slice(ending);
        Name { bytes, len }
    }

    fn named<'a>(&'a self, rt: &'a HostRuntime) -> Named<'a> {
        Named {
            rt,
            name: &self.bytes[..self.len],
        }
    }
}

// ---- BOOK.new

// The clock's seconds; 0 where it shows none.
fn clock(rt: &HostRuntime) -> u64 {
    rt.since_1970().map_or(0, |t| t.as_secs())
}

impl<'a> Named<'a> {
    // Makes BOOK.new under its name; none where it is there already.
    fn try_hold(self) -> Result<Option<File>, Said> {
        match self.create() {
            Ok(file) => Ok(Some(file)),
            Err(e) if e.kind() == ErrorKind::AlreadyExists => Ok(None),
            Err(e) => Err(self.failed(e)),
        }
    }

    // Makes BOOK.new under its name, or waits for it. What an operator is told of one that is not let go: no keeper can know that its maker is gone.
    fn wait_for(self) -> Result<File, Said> {
        let mut last = clock(self.rt);
        let mut waited = 0;
        for _ in 0..u64::MAX {
            if waited >= PATIENCE {
                break;
            }
            if let Some(file) = self.try_hold()? {
                return Ok(file);
            }
            thread::yield_now();
            let t = clock(self.rt);
            if t != last {
                waited += 1;
            }
            last = t;
        }
        Err(self.about(
            "a keeper is writing, or was cut off: if no keeper of this book runs, remove this file",
        ))
    }

    // Makes a file beside BOOK that no one else has, as BOOK.new for who holds the lock of the book. What is there was left by a crash, and is taken
    // away first and not emptied: a crash within `rename` may have left it as a second name of the book itself.
    fn make_anew(self) -> Result<File, Said> {
        self.unlink();
        self.create().map_err(|e| self.failed(e))
    }

    // Makes BOOK.new, which no one else then has. Where another has it this waits, and at last says so; `locked` says that no one else can have it.
    pub fn hold(self, locked: bool) -> Result<Held<'a>, Said> {
        let spare = Name::beside(self.name, b".new");
        if spare.len == 0 {
            return Err(self.about("the name is too long"));
        }
        let named = spare.named(self.rt);
        let file = if locked {
            named.make_anew()?
        } else {
            named.wait_for()?
        };
        Ok(Held {
            book: self,
            spare,
            file,
        })
    }

    // The bytes of an open file, safely on the disk. Where they cannot be, it is gone.
    fn write_down(self, mut file: File, bytes: &[u8]) -> Result<(), Said> {
        put_down(&mut file, bytes).map_err(|e| self.give_up(file, e))
    }

    fn give_up(self, file: File, e: io::Error) -> Said {
        let said = self.failed(e);
        drop(file);
        self.unlink();
        said
    }

    // The file takes the name of the book. Where it does not, it is gone.
    fn take_name(self, book: Named) -> Result<(), Said> {
        self.rename_to(book).map_err(|e| {
            let said = book.failed(e);
            self.unlink();
            said
        })
    }
}

// The bytes, on the disk.
fn put_down(file: &mut File, bytes: &[u8]) -> io::Result<()> {
    file.write_all(bytes)?;
    file.sync_all()
}

// BOOK.new, which no one else has, to write to.
#[derive(Drop)]
pub struct Held<'a> {
    book: Named<'a>,
    spare: Name,
    file: File,
}

impl Held<'_> {
    // Lets BOOK.new go, with nothing written.
    pub fn let_go(self) {
        let Held { book, spare, file } = self;
        drop(file);
        spare.named(book.rt).unlink();
    }

    // A whole book, safely on the disk under its name. On an `Err` BOOK is the old book or the new one, whole.
    pub fn store(self, bytes: &[u8]) -> Result<(), Said> {
        let Held { book, spare, file } = self;
        let new = spare.named(book.rt);
        new.write_down(file, bytes)?;
        new.take_name(book)?;
        book.sync_name()
    }

    // A fresh book, safely on the disk under a name that nothing had, whole before its name is made, and the text of its plan as BOOK.plan.
    pub fn make(self, bytes: &[u8], text: &[u8]) -> Result<(), Said> {
        let Held { book, spare, file } = self;
        let new = spare.named(book.rt);
        new.write_down(file, bytes)?;
        book.reserve().inspect_err(|_| new.unlink())?;
        book.remember(text).inspect_err(|_| {
            new.unlink();
            book.unlink();
        })?;
        new.take_name(book).inspect_err(|_| book.unlink())?;
        book.sync_name()
    }
}

// ---- the plan that a book was made with

impl Named<'_> {
    // What is said of a BOOK.plan that cannot be opened: only one that is not there is missing.
    fn missing(self, e: io::Error) -> Result<(), Said> {
        if e.kind() != ErrorKind::NotFound {
            return Err(self.failed(e));
        }
        self.about(
            "is not there, so that an edit of the plan would not be seen; a copy of the plan in its place ends this",
        );
        Ok(())
    }

    // BOOK.plan, the text of the plan that the book was made with, at the start of an area; none where it is missing, and a line has said so.
    pub fn load_plan(self, area: &mut [u8]) -> Result<Option<usize>, Said>
        ensures { IfOk result (λ found. IfSome found (λ n. IsPrefixLen n area.new)) }
    {
        let name = Name::beside(self.name, b".plan");
        let plan = name.named(self.rt);
        match plan.open() {
            Ok(file) => Ok(Some(plan.load_open(file, area)?)),
            Err(e) => {
                plan.missing(e)?;
                Ok(None)
            }
        }
    }

    // BOOK.plan, safely on the disk under its name, before the book has its own. One that is there was left by a book that is gone.
    fn remember(self, text: &[u8]) -> Result<(), Said> {
        let name = Name::beside(self.name, b".plan");
        let plan = name.named(self.rt);
        let file = plan.make_anew()?;
        plan.write_down(file, text)?;
        self.sync_name()
    }

    // Makes an empty file of a name that nothing has: what cannot be opened is not missing, and neither is a link to nothing.
    fn reserve(self) -> Result<(), Said> {
        match self.create() {
            Ok(_) => Ok(()),
            Err(e) if e.kind() == ErrorKind::AlreadyExists => {
                Err(self.about("is there already, and stays as it is"))
            }
            Err(e) => Err(self.failed(e)),
        }
    }
}
