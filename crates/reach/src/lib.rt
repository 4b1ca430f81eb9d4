// The longest entry of a table that the SIDs of a near record can come under, for some Args and, at a rule, some destination.
#![tactic(auto)]

ghost use Rattle.std.specs.Prelude.{◌≡◌, ℕ, ◌+◌, ◌*◌, ◌/◌, ◌^◌, ◌≤◌, ◌<◌, eqb, length};
ghost use Rattle.rules.specs.Table.{entries, rules_at};
ghost use Rattle.rules.specs.Rule as Rule;
ghost use Rattle.rules.specs.Prefix.{under};
ghost use Rattle.rules.specs.Match.{entry_matches, entry_bits, match_entry};
ghost use Rattle.matching.specs.Results.{Longest};
ghost use Rattle.args.specs.Value.{value};
ghost use Rattle.reach.specs.Reach.{own_args, reaches6, reaches4, entry_reached6, entry_reached4, reach6, reach4};

use records::{Rule, entry, rule};

// The Args that stand in a prefix, as a container in that direction would bring them.
fn own_args(direction: u8, prefix: [u8; 16], start: u8) -> args::Args
    ensures { value result ≡ own_args direction prefix start }
{
    let held = args::Args::from_sid(prefix, start);
    args::Args::from_container(direction, held.flow_octet(direction), held.teid())
}

// Two octets are the same but for their last bits.
fn same_first_bits(a: usize, b: usize, rest: usize) -> bool
    requires { (a < 256) × (b < 256) }
    ensures { result ≡ eqb (a / 2 ^ rest) (b / 2 ^ rest) }
{
    if rest >= 8 {
        return true;
    }
    a >> rest == b >> rest
}

// An address lies under a prefix, octet by octet. `prefix::under` does it eight octets at a time for the calls, which need it at every
// entry for every packet.
fn lies_under(address: [u8; 16], prefix: [u8; 16], bits: usize) -> bool
    ensures { result ≡ under 16 address prefix bits }
{
    let mut same = true;
    for i in 0..16 {
        let a = usize::from(address[i]);
        let b = usize::from(prefix[i]);
        same = same & same_first_bits(a, b, (8 * (i + 1)).saturating_sub(bits));
    }
    same
}

// The SID comes under the prefix with some Args.
fn reaches6(direction: u8, sid: [u8; 16], start: u8, prefix: [u8; 16], bits: usize) -> bool
    requires { start ≤ 88 }
    ensures { result ≡ reaches6 direction sid start prefix bits }
{
    lies_under(
        own_args(direction, prefix, start).in_sid(sid, start),
        prefix,
        bits,
    )
}

// The rule's SID comes under the prefix with some destination and some Args.
fn reaches4(r: &Rule, prefix: [u8; 16], bits: usize) -> bool
    requires { Rule.p r.now ≤ 7 }
    ensures { result ≡ reaches4 r.now prefix bits }
{
    let p = r[rule::P];
    let at = usize::from(p);
    let to = octets::window::<4>(&prefix, at);
    let own = near::d4::sid_of(r, to, own_args(r[rule::DIRECTION], prefix, 8 * (p + 4)));
    let both = usize::from(r[rule::PREFIX_LENGTH]).min(bits.saturating_sub(8 * at));
    lies_under(own, prefix, bits) & prefix::under::<4>(&to, rule::prefix_of(r), both)
}

fn entry_reached6(table: &[u8], direction: u8, sid: [u8; 16], start: u8, k: usize) -> bool
    requires { (16 + 64 * (k + 1) ≤ length table.now) × (start ≤ 88) }
    ensures { result ≡ entry_reached6 table.now direction sid start k }
{
    let e = records::entry_at(table, k);
    reaches6(
        direction,
        sid,
        start,
        *entry::prefix_of(e),
        usize::from(e[entry::PREFIX_LENGTH]),
    )
}

fn entry_reached4(table: &[u8], r: &Rule, k: usize) -> bool
    requires { (16 + 64 * (k + 1) ≤ length table.now) × (Rule.p r.now ≤ 7) }
    ensures { result ≡ entry_reached4 table.now r.now k }
{
    let e = records::entry_at(table, k);
    reaches4(
        r,
        *entry::prefix_of(e),
        usize::from(e[entry::PREFIX_LENGTH]),
    )
}

fn entry_matched(table: &[u8], sid: [u8; 16], k: usize) -> bool
    requires { 16 + 64 * (k + 1) ≤ length table.now }
    ensures { result ≡ entry_matches table.now sid k }
{
    let e = records::entry_at(table, k);
    lies_under(
        sid,
        *entry::prefix_of(e),
        usize::from(e[entry::PREFIX_LENGTH]),
    )
}

// The longest of the entries that are reached.
fn longest_entry<R: Fn(usize) -> bool>(table: &[u8], reached: R) -> Option<usize>
    requires { (rules_at table.now ≤ length table.now) × ((i : ℕ) → i < entries table.now → R.pre reached i) }
    ensures { Longest (R.post reached) (λ i b. b ≡ entry_bits table.now i) (entries table.now) result }
{
    matching::longest(
        records::entries(table),
        reached,
        |i| records::entry_at(table, i)[entry::PREFIX_LENGTH],
    )
}

// The longest match of a SID as it stands.
pub fn find(table: &[u8], sid: [u8; 16]) -> Option<usize>
    requires { rules_at table.now ≤ length table.now }
    ensures { result ≡ match_entry table.now sid }
{
    longest_entry(table, |i| entry_matched(table, sid, i))
}

// The longest entry that a SID comes under with some Args, from bit `start` on.
pub fn reach6(table: &[u8], direction: u8, sid: [u8; 16], start: u8) -> Option<usize>
    requires { (rules_at table.now ≤ length table.now) × (start ≤ 88) }
    ensures { result ≡ reach6 table.now direction sid start }
{
    longest_entry(table, |i| entry_reached6(table, direction, sid, start, i))
}

// The longest entry that the SID of rule r comes under with some destination and some Args.
pub fn reach4(table: &[u8], r: &[u8]) -> Option<usize>
    requires { (rules_at table.now ≤ length table.now) × (length r.now ≡ 160) × (Rule.p r.now ≤ 7) }
    ensures { result ≡ reach4 table.now r.now }
{
    let r: &Rule = r.as_array().unwrap();
    longest_entry(table, |i| entry_reached4(table, r, i))
}
