// A run of requests against the book in its file: served in one call, stored once where the book changed, and then answered by one write.
ghost use Rattle.std.specs.Prelude.{◌≤◌, ◌≡◌, false, length, IsNone};
ghost use Rattle.keeper_step.specs.Step.{asks_to_write};

use book_file::say::Said;
use book_file::{Held, Named, say};
use keeper_step::{Next, Waits};
use std::io::Print;
use terms::{Accepted, Plan, Refusal};

// A storage-node: its plan, the file of its book, and whether whoever started it holds the lock of the book.
#[derive(Clone, Copy)]
pub struct Keeper<'a> {
    pub plan: Plan,
    pub book: Named<'a>,
    pub locked: bool,
}

// What is lent for the replies and the numbers of a run.
#[derive(Drop)]
pub struct Room<'a, 'b> {
    pub reply: &'a mut [u8],
    pub numbers: &'b mut [u8],
}

// What the frames of a run came to: the replies by one write, once the book is safe, and a line for each frame that was refused, which gets no reply.
fn tell(rt: &HostRuntime, reply: &[u8], numbers: &[u8]) -> Result<(), Said> {
    let sent = Print::write_all(&rt.stdout(), reply);
    let sent = sent.map_err(|e| say::failed(rt, b"standard output", e));
    for k in numbers {
        if *k > 0 {
            say::numbered(rt, u32::from(*k));
        }
    }
    sent
}

// Sees that a book that a run left as it was is on the disk, where the replies wait for that.
fn synced(x: Result<Next, Refusal>, book: Named) -> Result<(), Said> {
    match x {
        Ok(next) if next.waits == Waits::Sync => book.sync(),
        _ => Ok(()),
    }
}

// Stores the book that a run left, where it is to be stored, and lets BOOK.new go where not.
fn keep(
    x: Result<Next, Refusal>,
    held: Option<Held>,
    named: Named,
    book: &[u8],
) -> Result<(), Said> {
    let Some(held) = held else {
        return synced(x, named);
    };
    match x {
        Ok(next) if next.waits == Waits::Store => held.store(book),
        _ => {
            held.let_go();
            synced(x, named)
        }
    }
}

impl Keeper<'_> {
    // A run against the book as it is in its file, while BOOK.new is held if the run asks to write: the book that it leaves gets to the disk, and then
    // the replies go out. A run that is refused is a fault of the plan or the book: a line, and the end.
    fn settle(
        self,
        held: Option<Held>,
        run: &[u8],
        book: &mut [u8],
        reply: &mut [u8],
        numbers: &mut [u8],
    ) -> Result<(), Said>
        requires unless_held { IsNone held → asks_to_write run.now ≡ false }
        requires no_longer { length book.old ≤ 65536 }
    {
        let next = match held {
            None => keeper_step::look(self.plan, self.locked, run, book, reply, numbers),
            Some(_) => keeper_step::step(self.plan, self.locked, run, book, reply, numbers),
        };
        let safe = keep(next, held, self.book, book);
        match keeper_step::due_after(next, safe.is_ok()) {
            Err(r) => Err(say::refused(self.book.rt, r)),
            Ok(Some(due)) => tell(self.book.rt, &reply[..due.written], &numbers[..due.frames]),
            Ok(None) => safe,
        }
    }

    fn answer_over(self, held: Option<Held>, run: &[u8], room: &mut Room) -> Result<(), Said>
        requires { IsNone held → asks_to_write run.now ≡ false }
    {
        let Room { reply, numbers } = room;
        let mut area = [0u8; 65536];
        match self.book.load(&mut area) {
            Ok(n) => self.settle(held, run, &mut area[..n], reply, numbers),
            Err(said) => {
                if let Some(held) = held {
                    held.let_go();
                }
                Err(said)
            }
        }
    }

    // Answers a run. One that cannot change the book does not ask for BOOK.new, and writes no byte. Who holds the lock of the book has had it on the
    // disk at the start, and no other changes it, so that it is still there; who does not knows nothing of a book that another may have changed.
    pub fn answer(self, run: &[u8], room: &mut Room) -> Result<(), Said> {
        if !keeper_step::asks_to_write(run) {
            return self.answer_over(None, run, room);
        }
        let held = self.book.hold(self.locked)?;
        self.answer_over(Some(held), run, room)
    }

    // The most requests of a run, so that every reply of this plan has its room and every request its number.
    pub fn most(self, room: &Room) -> usize {
        if !terms::plan_ok(self.plan) {
            return 0;
        }
        let replies = room.reply.len() / frame::longest(1, Accepted { plan: self.plan });
        replies.min(room.numbers.len())
    }
}
