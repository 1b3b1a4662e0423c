// What waits on standard input. It is read into an area by one call for all that is there, and taken out as runs of whole requests; the bytes
// of a request that is not whole yet stay. No read is made while the area holds a whole one.
ghost use Rattle.std.specs.Prelude.{◌≤◌, ◌≡◌, length};
ghost use Rattle.io.specs.Counts.{IsPrefixLen};

use book_file::say;
use book_file::say::Said;
use std::io::Read;

// The longest request of any plan: R+15 at N 16 and F 1,024. A reply is no longer.
const LONGEST: usize = 1591;

// The input: the bytes that wait at the start of the area, and how many came before them.
#[derive(Drop)]
pub struct Input<'a> {
    area: &'a mut [u8],
    held: usize,
    passed: u64,
    ghost within: { held ≤ length area.now },
}

// Where the request at a place ends; the place itself where it is not whole, or where no request has its length.
#[tactic(auto, using(runs::proofs::Cuts::next_far))]
fn request_end(s: &[u8], at: usize) -> usize
    requires { at ≤ length s.now }
    ensures { result ≤ length s.now }
{
    let end = runs::ends(s, at);
    if end <= at || end - at > LONGEST {
        return at;
    }
    end
}

// Where the run of whole requests at the start of what waits ends, with at most so many of them.
fn whole(waits: &[u8], most: usize) -> usize
    ensures { IsPrefixLen result waits.now }
{
    let mut at = 0;
    for _ in 0..most {
        let end = request_end(waits, at);
        if end <= at {
            break;
        }
        at = end;
    }
    at
}

// Refuses what starts with a length that no request has: the bytes are not frames, and none after them is taken for one.
fn undamaged(rt: &HostRuntime, waits: &[u8], passed: u64) -> Result<(), Said> {
    let [a, b, c, d, ..] = waits else {
        return Ok(());
    };
    let rest = u32::from_be_bytes([*a, *b, *c, *d]);
    if (11..=LONGEST as u32 - 4).contains(&rest) {
        return Ok(());
    }
    Err(say::told(
        rt,
        format_args!(
            "standard input, after {passed} bytes: no request has the length {rest}; the rest of the input is not read"
        ),
    ))
}

impl<'a> Input<'a> {
    // The input, of which nothing is read.
    pub fn new(area: &'a mut [u8]) -> Input<'a>
        ensures { result.held ≡ 0 }
    {
        Input {
            area,
            held: 0,
            passed: 0,
        }
    }

    // The run of whole requests at the start of what waits, with at most so many of them.
    pub fn run(&self, most: usize) -> &[u8]
        ensures { length result.now ≤ self.now.held }
    {
        let waits = &self.area[..self.held];
        &waits[..whole(waits, most)]
    }

    // One read of what is there, behind what waits; it waits only where nothing is. Whether the input goes on.
    fn read(&mut self, rt: &HostRuntime) -> Result<bool, Said> {
        let n = rt
            .stdin()
            .read(&mut self.area[self.held..])
            .map_err(|e| say::failed(rt, b"standard input", e))?;
        self.held += n;
        if n == 0 && self.held > 0 {
            say::told(rt, "the input ends within a frame, which is dropped");
        }
        Ok(n > 0)
    }

    // What waits has no whole request at its start: more is read, unless none could follow. Whether the input goes on.
    pub fn more(&mut self, rt: &HostRuntime) -> Result<bool, Said> {
        undamaged(rt, &self.area[..self.held], self.passed)?;
        self.read(rt)
    }

    // After a run of so many bytes: the rest is moved to the front. A count of the bytes that no input reaches stays.
    pub fn pass(&mut self, cut: usize)
        requires { cut ≤ self.old.held }
    {
        let held = self.held - cut;
        octets::down(self.area, 0, held, cut);
        self.held = held;
        self.passed = self.passed.saturating_add(cut as u64);
    }
}
