// A policy: whether it is sound, and which condition it breaks.
ghost use Rattle.std.specs.Prelude.{◌≡◌, true, length};
ghost use Rattle.rules.specs.Sound.{policy_sound};
ghost use Rattle.rules.specs.Fault.{policy_broken};

use crate::{fields, unless};

// The condition that the policy breaks first.
pub fn broken(policy: &[u8]) -> u8
    requires { length policy.now ≡ 288 }
    ensures { result ≡ policy_broken policy.now }
{
    let from_3 = unless(policy[records::policy::RESERVED] == 0, 3, 0);
    let from_2 = unless(
        fields::start_within(policy[records::policy::START]),
        2,
        from_3,
    );
    unless(
        (1 <= policy[records::policy::SID_COUNT]) & (policy[records::policy::SID_COUNT] <= 8),
        1,
        from_2,
    )
}

// True only of a sound policy; false says nothing.
pub fn surely_sound(policy: &[u8]) -> bool
    requires { length policy.now ≡ 288 }
    ensures { result ≡ true → policy_sound policy.now ≡ true }
{
    let count = policy[records::policy::SID_COUNT];
    if count == 0 {
        return false;
    }
    if 8 < count {
        return false;
    }
    if policy[records::policy::RESERVED] != 0 {
        return false;
    }
    fields::start_within(policy[records::policy::START])
}
