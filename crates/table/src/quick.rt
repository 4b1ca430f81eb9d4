// A sound table told in one pass. A test is left at the first condition that fails, and which one that was is not kept.
ghost use Rattle.std.specs.Prelude.{◌≡◌, true, ◌+◌, ◌*◌, ◌≤◌, length};
ghost use Rattle.rules.specs.Octets.{octet};
ghost use Rattle.rules.specs.Table.{entries, rules, policies, rules_at, policies_at, entry_at, rule_at, policy_at};
ghost use Rattle.rules.specs.Sound.{all, entry_sound, rule_sound, policy_sound, sound};

use crate::{apart, faults};
use conditions::{entry, policy, rule};

fn entries_sound(table: &[u8], n: usize, policies: usize) -> bool
    requires { 16 + 64 * n ≤ length table.now }
    ensures { result ≡ true → all (λ i. entry_sound policies (entry_at table.now i)) n ≡ true }
{
    (0..n).all(|i| entry::surely_sound(records::entry_at(table, i), policies))
}

fn rules_sound(table: &[u8], start: usize, n: usize) -> bool
    requires { (start ≡ rules_at table.now) × (start + 160 * n ≤ length table.now) }
    ensures { result ≡ true → all (λ k. rule_sound (rule_at table.now k)) n ≡ true }
{
    (0..n).all(|k| rule::surely_sound(records::rule_from(table, start, k)))
}

fn policies_sound(table: &[u8], start: usize, n: usize) -> bool
    requires { (start ≡ policies_at table.now) × (start + 288 * n ≤ length table.now) }
    ensures { result ≡ true → all (λ j. policy_sound (policy_at table.now j)) n ≡ true }
{
    (0..n).all(|j| policy::surely_sound(records::policy_from(table, start, j)))
}

// The records of a table whose header names n entries, m rules and q policies.
fn records_sound(table: &[u8], n: usize, m: usize, q: usize) -> bool
    requires { (octet table.now 0 ≡ 1) × (n ≡ entries table.now) × (n ≤ 64) × (m ≡ rules table.now) × (m ≤ 16)
        × (q ≡ policies table.now) × (q ≤ 16) }
    ensures { result ≡ true → sound table.now ≡ true }
{
    let rules_start = records::HEADER_SIZE + records::ENTRY_SIZE * n;
    let policies_start = rules_start + records::RULE_SIZE * m;
    if table.len() != policies_start + records::POLICY_SIZE * q {
        return false;
    }
    if !entries_sound(table, n, q) {
        return false;
    }
    if !apart::entries_apart(table, n) {
        return false;
    }
    if !rules_sound(table, rules_start, m) {
        return false;
    }
    if !apart::rules_apart(table, rules_start, m) {
        return false;
    }
    policies_sound(table, policies_start, q)
}

// True only of a sound table; false says nothing. The counts are at most 64 and 16, so that their high octets are 0.
pub(crate) fn surely_sound(table: &[u8]) -> bool
    ensures { result ≡ true → sound table.now ≡ true }
{
    if table.len() < records::HEADER_SIZE {
        return false;
    }
    if table[0] != faults::FORMAT {
        return false;
    }
    if table[2] != 0 {
        return false;
    }
    if table[4] != 0 {
        return false;
    }
    if table[6] != 0 {
        return false;
    }
    let n = usize::from(table[3]);
    if faults::ENTRY_LIMIT < n {
        return false;
    }
    let m = usize::from(table[5]);
    if faults::RULE_LIMIT < m {
        return false;
    }
    let q = usize::from(table[7]);
    if faults::POLICY_LIMIT < q {
        return false;
    }
    records_sound(table, n, m, q)
}
