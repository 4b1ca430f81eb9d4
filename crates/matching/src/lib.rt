// The longest match in a table: the entry, and the rule, with the longest prefix that an address lies under.
#![tactic(auto)]

ghost use Rattle.std.specs.Prelude.{◌≡◌, ℕ, ◌+◌, ◌*◌, ◌≤◌, ◌<◌, length};
ghost use Rattle.rules.specs.Table.{rules_at, policies_at};
ghost use Rattle.rules.specs.Match.{entry_matches, rule_matches, match_entry, match_rule};
ghost use Rattle.matching.specs.Results.{Below, Longer, Longest};

use records::{entry, rule};

// The longer of what is found so far and i, which matches.
pub fn longer<B: Fn(usize) -> u8>(bits: &B, found: Option<usize>, i: usize) -> Option<usize>
    requires callable { (j : ℕ) → j ≤ i → B.pre bits.now j }
    requires below { Below found i }
    ensures longer { Longer (B.post bits.now) found i result }
    ensures below { Below result (i + 1) }
{
    match found {
        Some(j) => if bits(j) < bits(i) { Some(i) } else { Some(j) },
        None => Some(i),
    }
}

// Among the numbers below n that match, the one with the most bits; of several with as many the first.
pub fn longest<M: Fn(usize) -> bool, B: Fn(usize) -> u8>(
    n: usize,
    matches: M,
    bits: B,
) -> Option<usize>
    requires { (i : ℕ) → i < n → M.pre matches i × B.pre bits i }
    ensures { Longest (M.post matches) (B.post bits) n result }
{
    let mut found = None;
    for i in 0..n {
        if matches(i) {
            found = longer(&bits, found, i);
        }
    }
    found
}

fn entry_matches(table: &[u8], address: &[u8], i: usize) -> bool
    requires { (16 + 64 * (i + 1) ≤ length table.now) × (16 ≤ length address.now) }
    ensures { result ≡ entry_matches table.now address.now i }
{
    let e = records::entry_at(table, i);
    prefix::under::<16>(
        address,
        entry::prefix_of(e),
        usize::from(e[entry::PREFIX_LENGTH]),
    )
}

// Inlined, so that a search knows the length of its table: not so, it takes three instructions more an entry.
#[inline]
pub fn find_entry(table: &[u8], address: &[u8]) -> Option<usize>
    requires { (rules_at table.now ≤ length table.now) × (16 ≤ length address.now) }
    ensures { result ≡ match_entry table.now address.now }
{
    longest(
        records::entries(table),
        |i| entry_matches(table, address, i),
        |i| records::entry_at(table, i)[entry::PREFIX_LENGTH],
    )
}

fn rule_matches(table: &[u8], address: &[u8], k: usize) -> bool
    requires { (rules_at table.now + 160 * (k + 1) ≤ length table.now) × (4 ≤ length address.now) }
    ensures { result ≡ rule_matches table.now address.now k }
{
    let r = records::rule_at(table, k);
    prefix::under::<4>(
        address,
        rule::prefix_of(r),
        usize::from(r[rule::PREFIX_LENGTH]),
    )
}

pub fn find_rule(table: &[u8], address: &[u8]) -> Option<usize>
    requires { (policies_at table.now ≤ length table.now) × (4 ≤ length address.now) }
    ensures { result ≡ match_rule table.now address.now }
{
    longest(
        records::rules(table),
        |k| rule_matches(table, address, k),
        |k| records::rule_at(table, k)[rule::PREFIX_LENGTH],
    )
}
