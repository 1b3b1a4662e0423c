// Document 01's unstarred table rows, one case for each refusal and each ending, and the client's whole way through node calls, run by the
// calls for a host. The cases of N 5 and F 4 are the lines of the file `stdin`, which says how they are written; large.rt has the row of
// N 16 and F 1,024, and frame_runs.rt the runs of frames of document 02's Q-3. What this writes is held to the file `stdout`. walk.rt has the steps of a case, script.rt reads them, lines.rt has what a
// case writes, places.rt bytes in a buffer.
#![tactic(auto)]

mod frame_runs;
mod large;
mod lines;
mod places;
mod script;
mod walk;

ghost use Rattle.std.specs.Prelude.{◌≤◌, length, IfOk};

use std::io;
use std::io::Read;

// Reads until the buffer is full or the input ends, and answers how many bytes are at its start. `replay` has these lines too: a crate that both
// programs stood on would be longer than they are. A read moves the place by as many bytes as it gives, which no `for` counts.
fn read_full(rt: &HostRuntime, space: &mut [u8]) -> io::Result<usize>
    ensures { IfOk result (λ n. n ≤ length space.new) }
{
    let mut done = 0;
    while done < space.len() {
        let n = rt.stdin().read(&mut space[done..])?;
        if n == 0 {
            break;
        }
        done += n;
    }
    Ok(done)
}

fn main(rt: HostRuntime) -> io::Result<()> {
    let mut space = [0u8; 65536];
    let n = read_full(&rt, &mut space)?;
    script::run(&rt, &space[..n])?;
    frame_runs::all(&rt)?;
    large::full(&rt)
}
