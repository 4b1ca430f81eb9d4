// What a record of a sound table has to meet by itself: whether it does, and which condition it breaks first.
#![tactic(auto)]

ghost use Rattle.std.specs.Prelude.{◌≡◌, cond};

pub mod entry; // entry.rt: a SID entry
pub mod rule; // rule.rt: an IPv4 rule
pub mod policy; // policy.rt: a policy
mod fields; // fields.rt: what fields of several kinds of record may hold

// A condition's number where it does not hold, and else what is broken behind it. So a record's conditions are put together from the
// last to the first.
pub fn unless(holds: bool, number: u8, behind: u8) -> u8
    ensures { result ≡ cond holds behind number }
{
    if holds { behind } else { number }
}
