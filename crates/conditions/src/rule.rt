// An IPv4 rule: whether it is sound, and which condition it breaks.
ghost use Rattle.std.specs.Prelude.{◌≡◌, true, length};
ghost use Rattle.rules.specs.Sound.{rule_prefix_clear, sid_prefix_clear, source_prefix_clear, rule_sound};
ghost use Rattle.rules.specs.Fault.{rule_broken};
ghost use Rattle.conditions.specs.Results.{Single};

use crate::{fields, unless};
use records::{Rule, rule};

fn prefix_clear(r: &Rule) -> bool
    ensures { result ≡ rule_prefix_clear r.now }
{
    prefix::clear4(rule::prefix_of(r), usize::from(r[rule::PREFIX_LENGTH]))
}

fn sid_prefix_clear(r: &Rule) -> bool
    ensures { result ≡ sid_prefix_clear r.now }
{
    prefix::clear16(
        records::array::<{ records::IPV6_ADDRESS_SIZE }>(r, rule::SID_PREFIX),
        8 * usize::from(r[rule::P]),
    )
}

fn source_prefix_clear(r: &Rule) -> bool
    ensures { result ≡ source_prefix_clear r.now }
{
    prefix::clear16(
        records::array::<{ records::IPV6_ADDRESS_SIZE }>(r, rule::SOURCE_PREFIX),
        8 * usize::from(r[rule::Q]),
    )
}

// The condition that the rule breaks first.
pub fn broken(r: &[u8]) -> u8
    requires { length r.now ≡ 160 }
    ensures { result ≡ rule_broken r.now }
{
    let r: &Rule = r.as_array().unwrap();
    let from_11 = unless(r[rule::RESERVED] == 0, 11, 0);
    let from_10 = unless(r[rule::WAYPOINT_COUNT] <= 7, 10, from_11);
    let from_9 = unless(source_prefix_clear(r), 9, from_10);
    let from_8 = unless(sid_prefix_clear(r), 8, from_9);
    let from_7 = unless(r[rule::Q] <= fields::Q_MOST, 7, from_8);
    let from_6 = unless(r[rule::P] <= fields::P_MOST, 6, from_7);
    let from_5 = unless(fields::session_known(r[rule::SESSION]), 5, from_6);
    let from_4 = unless(fields::direction_known(r[rule::DIRECTION]), 4, from_5);
    let from_3 = unless(1 <= r[rule::HOP_LIMIT], 3, from_4);
    let from_2 = unless(prefix_clear(r), 2, from_3);
    unless(r[rule::PREFIX_LENGTH] <= 32, 1, from_2)
}

// The conditions on single octets, left at the first that fails.
fn octets_sound(r: &Rule) -> bool
    ensures { result ≡ true → Single r.now }
{
    if 32 < r[rule::PREFIX_LENGTH] {
        return false;
    }
    if r[rule::HOP_LIMIT] == 0 {
        return false;
    }
    if !fields::direction_known(r[rule::DIRECTION]) {
        return false;
    }
    if !fields::session_known(r[rule::SESSION]) {
        return false;
    }
    if fields::P_MOST < r[rule::P] {
        return false;
    }
    if fields::Q_MOST < r[rule::Q] {
        return false;
    }
    if 7 < r[rule::WAYPOINT_COUNT] {
        return false;
    }
    r[rule::RESERVED] == 0
}

// True only of a sound rule; false says nothing.
pub fn surely_sound(r: &[u8]) -> bool
    requires { length r.now ≡ 160 }
    ensures { result ≡ true → rule_sound r.now ≡ true }
{
    let r: &Rule = r.as_array().unwrap();
    if !octets_sound(r) {
        return false;
    }
    if !prefix_clear(r) {
        return false;
    }
    let p = 8 * usize::from(r[rule::P]);
    if !prefix::words_clear(
        numbers::eight(r, rule::SID_PREFIX),
        numbers::eight(r, rule::SID_PREFIX + 8),
        p,
    ) {
        return false;
    }
    let q = 8 * usize::from(r[rule::Q]);
    prefix::words_clear(
        numbers::eight(r, rule::SOURCE_PREFIX),
        numbers::eight(r, rule::SOURCE_PREFIX + 8),
        q,
    )
}
