// The host interface: each public call on numbers and byte slices only, with no `requires`. A slice is a pointer and its length. Each call
// answers 0 where it was served, opened, or accepted and the operation is open; 1 to 31 where it is refused, and then changes nothing; 101 to
// 105 at an ending. storage.rt has the calls of a storage-node, client.rt those of a client, plans.rt the plan for a wish. host/pasis.h is the manual.
#![tactic(auto)]

pub mod client;
pub mod plans;
pub mod storage;

ghost use Rattle.std.specs.Prelude.{◌≡◌};
ghost use Rattle.packing.specs.SessionBytes.{session_length};

// The number of this interface: its layouts, calls and answers. Each of document 02's requests that changes them raises it.
pub fn pasis_interface() -> u32
    ensures { result ≡ 4 }
{
    4
}

// The bytes of a plan, of a session and of an ending.
pub fn pasis_plan_size() -> usize
    ensures { result ≡ 11 }
{
    11
}

pub fn pasis_session_size() -> usize
    ensures { result ≡ session_length }
{
    packing::SESSION
}

pub fn pasis_ending_size() -> usize
    ensures { result ≡ 42 }
{
    42
}
