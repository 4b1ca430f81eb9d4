// Whether near, waypoint and far tables fit, told from the tables alone: 0 where they do, and else the first condition that fails.
#![tactic(auto)]

ghost use Rattle.std.specs.Prelude.{◌≡◌, ◌≤◌, length};
ghost use Rattle.rules.specs.Table.{entries, rules_at};
ghost use Rattle.rules.specs.Rule as Rule;
ghost use Rattle.rules.specs.Policy as Policy;
ghost use Rattle.pair.specs.Mismatch.{between6, between4, at_far6, at_far4, mismatch6, mismatch4, mismatch_waypoint};
ghost use Rattle.pair.specs.Results.{Unsound};

use records::{Entry, Policy, Rule, entry, policy, rule};
use rules::assigned;

// Near and far.
const NEAR_UNSOUND: u64 = 1;

const FAR_UNSOUND: u64 = 2;

const NO_RECORD: u64 = 3;

const NOT_DI: u64 = 4;

const NO_ENTRY: u64 = 5;

const KIND: u8 = 6;

const DIRECTION: u8 = 7;

const SESSION: u8 = 8;

const START: u8 = 9;

const P: u8 = 10;

const Q: u8 = 11;

const HOP_LIMIT: u8 = 12;

// A waypoint.
const WAYPOINT_UNSOUND: u64 = 13;

const WAYPOINT_SID: u64 = 14;

const WAYPOINT_NO_ENTRY: u64 = 15;

const WAYPOINT_KIND: u8 = 16;

// Near entry e with its policy, and far entry f.
fn between6(e: &Entry, policy: &Policy, f: &Entry) -> u8
    ensures { result ≡ between6 e.now policy.now f.now }
{
    let waypoints = usize::from(policy[policy::SID_COUNT]).saturating_sub(1);
    let from_12 = conditions::unless(waypoints < usize::from(e[entry::HOP_LIMIT]), HOP_LIMIT, 0);
    let from_9 = conditions::unless(f[entry::START] == policy[policy::START], START, from_12);
    let from_8 = conditions::unless(f[entry::SESSION] == e[entry::SESSION], SESSION, from_9);
    let from_7 = conditions::unless(
        f[entry::DIRECTION] == e[entry::DIRECTION],
        DIRECTION,
        from_8,
    );
    conditions::unless(f[entry::BEHAVIOUR] == assigned::END_M_GTP6_E, KIND, from_7)
}

// Near rule r, and far entry f.
fn between4(r: &Rule, f: &Entry) -> u8
    ensures { result ≡ between4 r.now f.now }
{
    let from_12 = conditions::unless(r[rule::WAYPOINT_COUNT] < r[rule::HOP_LIMIT], HOP_LIMIT, 0);
    let from_11 = conditions::unless(f[entry::Q] == r[rule::Q], Q, from_12);
    let from_10 = conditions::unless(f[entry::P] == r[rule::P], P, from_11);
    let from_8 = conditions::unless(f[entry::SESSION] == r[rule::SESSION], SESSION, from_10);
    let from_7 = conditions::unless(f[entry::DIRECTION] == r[rule::DIRECTION], DIRECTION, from_8);
    conditions::unless(f[entry::BEHAVIOUR] == assigned::END_M_GTP4_E, KIND, from_7)
}

// The entry of a far table that is reached, and its conditions.
fn at_far6(e: &Entry, policy: &Policy, far: &[u8]) -> u64
    requires { (Policy.start policy.now ≤ 88) × (rules_at far.now ≤ length far.now) × (entries far.now ≤ 64) }
    ensures { result ≡ at_far6 e.now policy.now far.now }
{
    let before = usize::from(policy[policy::SID_COUNT]).saturating_sub(1);
    let last = octets::window::<16>(policy, policy::SIDS + 16 * before);
    let found = reach::reach6(far, e[entry::DIRECTION], last, policy[policy::START]);
    match found {
        None => NO_ENTRY,
        Some(j) => table::told(
            table::ENTRY,
            j,
            between6(e, policy, records::entry_at(far, j)),
        ),
    }
}

fn at_far4(r: &Rule, far: &[u8]) -> u64
    requires { (Rule.p r.now ≤ 7) × (rules_at far.now ≤ length far.now) × (entries far.now ≤ 64) }
    ensures { result ≡ at_far4 r.now far.now }
{
    let found = reach::reach4(far, r);
    match found {
        None => NO_ENTRY,
        Some(j) => table::told(table::ENTRY, j, between4(r, records::entry_at(far, j))),
    }
}

// The condition that the first of two unsound tables breaks.
fn unsound(near: &[u8], far: &[u8]) -> Option<u64>
    ensures { Unsound near.now far.now result }
{
    if !table::sound(near) {
        return Some(NEAR_UNSOUND);
    }
    if !table::sound(far) {
        return Some(FAR_UNSOUND);
    }
    None
}

// Entry i of a near table, and a far table.
pub fn mismatch6(near: &[u8], far: &[u8], i: usize) -> u64
    ensures { result ≡ mismatch6 near.now far.now i }
{
    if let Some(condition) = unsound(near, far) {
        return condition;
    }
    if records::entries(near) <= i {
        return NO_RECORD;
    }
    let e = records::entry_at(near, i);
    if e[entry::BEHAVIOUR] != assigned::END_M_GTP6_D_DI {
        return NOT_DI;
    }
    let policy = records::policy_at(near, usize::from(e[entry::POLICY]));
    at_far6(e, policy, far)
}

// Rule k of a near table, and a far table.
pub fn mismatch4(near: &[u8], far: &[u8], k: usize) -> u64
    ensures { result ≡ mismatch4 near.now far.now k }
{
    if let Some(condition) = unsound(near, far) {
        return condition;
    }
    if records::rules(near) <= k {
        return NO_RECORD;
    }
    at_far4(records::rule_at(near, k), far)
}

// A waypoint's table, and the SID that leads there.
pub fn mismatch_waypoint(table: &[u8], sid: &[u8]) -> u64
    ensures { result ≡ mismatch_waypoint table.now sid.now }
{
    if !table::sound(table) {
        return WAYPOINT_UNSOUND;
    }
    if sid.len() != 16 {
        return WAYPOINT_SID;
    }
    let found = reach::find(table, octets::window::<16>(sid, 0));
    match found {
        None => WAYPOINT_NO_ENTRY,
        Some(i) => {
            let waypoint = records::entry_at(table, i)[entry::BEHAVIOUR] == assigned::END;
            table::told(
                table::ENTRY,
                i,
                conditions::unless(waypoint, WAYPOINT_KIND, 0),
            )
        }
    }
}
