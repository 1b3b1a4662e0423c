// Refusal 2 of a client: the lengths of what a caller lends.
ghost use Rattle.std.specs.Prelude.{◌≡◌, true};
ghost use Rattle.terms.specs.Terms.{plan_ok};
ghost use Rattle.standing.specs.Standing.{lengths_ok, room_ok};

use terms::Accepted;

// Of a reply: the desk and the item.
#[tactic(auto, unfolding(crate::specs::Standing::lengths_ok))]
pub fn lengths_ok(p: Accepted, desk: usize, item: usize) -> bool
    ensures { result ≡ lengths_ok p.plan desk item }
{
    desk == p.plan.n as usize * terms::record_length(p)
        && item == p.plan.m as usize * p.plan.f as usize
}

// Of a request owed: the desk and the request buffer.
#[tactic(auto, unfolding(crate::specs::Standing::room_ok))]
pub fn room_ok(p: Accepted, desk: usize, request: usize) -> bool
    ensures { result ≡ room_ok p.plan desk request }
{
    desk == p.plan.n as usize * terms::record_length(p) && frame::holds_any(1, p, request)
}
