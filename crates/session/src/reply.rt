// A reply that passed the door of a call: what stands before its body was read once, and it is a good one of the plan.
ghost use Rattle.std.specs.Prelude.{◌≡◌, true};
ghost use Rattle.frame.specs.Frame.{good_reply, header_in};

use frame::Header;
use terms::Accepted;

#[derive(Clone, Copy)]
pub struct Reply<'a> {
    pub plan: Accepted,
    pub head: Header,
    pub bytes: &'a [u8],
    pub ghost read: { head ≡ header_in bytes.now },
    pub ghost good: { good_reply plan.plan bytes.now ≡ true },
}
