// A SID entry: whether it is sound, and which condition it breaks.
ghost use Rattle.std.specs.Prelude.{◌≡◌, true, ◌&&◌, ◌||◌, [], ◌∷◌, length};
ghost use Rattle.rules.specs.Entry.{start, p, q, zero_checksum};
ghost use Rattle.rules.specs.Sound.{behaviour_known, prefix_clear, policy_exists, start_within, prefix_before_args, p_within, q_within};
ghost use Rattle.rules.specs.Sound.{prefix_before_address, uses_policy, reserved_clear, entry_marks, entry_sound};
ghost use Rattle.rules.specs.Fault.{broken_before, first_broken, entry_broken};
ghost use Rattle.conditions.specs.Results.{Front};

use crate::{fields, unless};
use records::{Entry, entry};
use rules::assigned;

fn behaviour_known(e: &Entry) -> bool
    ensures { result ≡ behaviour_known e.now }
{
    let behaviour = e[entry::BEHAVIOUR];
    (behaviour == assigned::END)
        | ((behaviour == assigned::END_M_GTP6_D)
            | ((behaviour == assigned::END_M_GTP6_D_DI)
                | ((behaviour == assigned::END_M_GTP6_E) | (behaviour == assigned::END_M_GTP4_E))))
}

fn prefix_clear(e: &Entry) -> bool
    ensures { result ≡ prefix_clear e.now }
{
    prefix::clear16(entry::prefix_of(e), usize::from(e[entry::PREFIX_LENGTH]))
}

// D and Di, which name a policy and have a mark.
fn uses_policy(e: &Entry) -> bool
    ensures { result ≡ uses_policy e.now }
{
    let behaviour = e[entry::BEHAVIOUR];
    (behaviour == assigned::END_M_GTP6_D) | (behaviour == assigned::END_M_GTP6_D_DI)
}

fn policy_exists(e: &Entry, policies: usize) -> bool
    ensures { result ≡ policy_exists policies e.now }
{
    !uses_policy(e) | (usize::from(e[entry::POLICY]) < policies)
}

// The condition that octet 9 breaks: 13 where it is reserved, 15 where it is the mark that a UDP checksum of zero is allowed.
fn octet_9_broken(e: &Entry) -> u8
    ensures { result ≡ broken_before 13 ((uses_policy e.now || reserved_clear (zero_checksum e.now)) ∷ [])
        (first_broken 15 (entry_marks e.now)) }
{
    let mark = e[entry::ZERO_CHECKSUM];
    let marked = uses_policy(e);
    let from_15 = unless(!marked | (mark <= 1), 15, 0);
    unless(marked | (mark == 0), 13, from_15)
}

fn prefix_before_address(e: &Entry) -> bool
    ensures { result ≡ prefix_before_address e.now }
{
    usize::from(e[entry::PREFIX_LENGTH]) <= 8 * usize::from(e[entry::P])
}

// The condition that the entry breaks first in a table of so many policies.
pub fn broken(e: &[u8], policies: usize) -> u8
    requires { length e.now ≡ 64 }
    ensures { result ≡ entry_broken policies e.now }
{
    let e: &Entry = e.as_array().unwrap();
    let behaviour = e[entry::BEHAVIOUR];
    let uses_session = !(behaviour == assigned::END);
    let uses_start = behaviour == assigned::END_M_GTP6_E;
    let uses_places = behaviour == assigned::END_M_GTP4_E;
    let bits = e[entry::PREFIX_LENGTH];
    let from_12 = unless(
        !uses_places | prefix_before_address(e),
        12,
        octet_9_broken(e),
    );
    let from_11 = unless(!uses_places | (e[entry::Q] <= fields::Q_MOST), 11, from_12);
    let from_10 = unless(!uses_places | (e[entry::P] <= fields::P_MOST), 10, from_11);
    let from_9 = unless(!uses_start | (bits <= e[entry::START]), 9, from_10);
    let from_8 = unless(
        !uses_start | fields::start_within(e[entry::START]),
        8,
        from_9,
    );
    let from_7 = unless(policy_exists(e, policies), 7, from_8);
    let from_6 = unless(
        !uses_session | fields::session_known(e[entry::SESSION]),
        6,
        from_7,
    );
    let from_5 = unless(
        !uses_session | fields::direction_known(e[entry::DIRECTION]),
        5,
        from_6,
    );
    let from_4 = unless(1 <= e[entry::HOP_LIMIT], 4, from_5);
    let from_3 = unless(prefix_clear(e), 3, from_4);
    let from_2 = unless(bits <= 128, 2, from_3);
    unless(behaviour_known(e), 1, from_2)
}

// The conditions of every behaviour, left at the first that fails.
fn front_sound(e: &Entry) -> bool
    ensures { result ≡ true → Front e.now }
{
    let bits = e[entry::PREFIX_LENGTH];
    if 128 < bits {
        return false;
    }
    if e[entry::HOP_LIMIT] == 0 {
        return false;
    }
    prefix::words_clear(
        numbers::eight(e, entry::PREFIX),
        numbers::eight(e, entry::PREFIX + 8),
        usize::from(bits),
    )
}

// What an E6 entry asks of the start of Args.
fn start_sound(e: &Entry) -> bool
    ensures { result ≡ start_within (start e.now) && prefix_before_args e.now }
{
    fields::start_within(e[entry::START]) & (e[entry::PREFIX_LENGTH] <= e[entry::START])
}

// What an E4 entry asks of its places.
fn places_sound(e: &Entry) -> bool
    ensures { result ≡ p_within (p e.now) && (q_within (q e.now) && prefix_before_address e.now) }
{
    (e[entry::P] <= fields::P_MOST) & ((e[entry::Q] <= fields::Q_MOST) & prefix_before_address(e))
}

// True only of a sound entry; false says nothing.
pub fn surely_sound(e: &[u8], policies: usize) -> bool
    requires { length e.now ≡ 64 }
    ensures { result ≡ true → entry_sound policies e.now ≡ true }
{
    let e: &Entry = e.as_array().unwrap();
    if !front_sound(e) {
        return false;
    }
    let behaviour = e[entry::BEHAVIOUR];
    if behaviour == assigned::END {
        return e[entry::ZERO_CHECKSUM] == 0;
    }
    if !fields::direction_known(e[entry::DIRECTION]) {
        return false;
    }
    if !fields::session_known(e[entry::SESSION]) {
        return false;
    }
    // D and Di are neighbours: two comparisons are fewer than a jump by table.
    if behaviour <= assigned::END_M_GTP6_D_DI {
        if behaviour < assigned::END_M_GTP6_D {
            return false;
        }
        return (e[entry::ZERO_CHECKSUM] <= 1) & (usize::from(e[entry::POLICY]) < policies);
    }
    if behaviour == assigned::END_M_GTP6_E {
        return (e[entry::ZERO_CHECKSUM] == 0) & start_sound(e);
    }
    if behaviour == assigned::END_M_GTP4_E {
        return (e[entry::ZERO_CHECKSUM] == 0) & places_sound(e);
    }
    false
}
