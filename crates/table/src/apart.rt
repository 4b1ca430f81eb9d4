// Whether a prefix with its length occurs twice, and the first entry, or rule, whose prefix with its length an earlier one has.
ghost use Rattle.std.specs.Prelude.{◌≡◌, ℕ, true, ◌+◌, ◌-◌, ◌*◌, ◌≤◌, ◌<◌, ltb, length};
ghost use Rattle.rules.specs.Table.{rules, rules_at, policies_at};
ghost use Rattle.rules.specs.Sound.{same_entry_prefix, same_rule_prefix, distinct};
ghost use Rattle.rules.specs.Fault.{entry_record, entry_repeated, told, first_fault, entry_prefixes_fault, rule_prefixes_fault};
ghost use Rattle.table.specs.Keys.{entry_key, rule_key, rule_key_of};
ghost use Rattle.table.specs.Records.{nonzero, Repeated};

use crate::faults;
use records::{Rule, entry, rule};

// Their conditions' numbers.
const ENTRY_REPEATED: u8 = 14;

const RULE_REPEATED: u8 = 12;

fn same_entry_prefix(table: &[u8], i: usize, j: usize) -> bool
    requires { (16 + 64 * (i + 1) ≤ length table.now) × (16 + 64 * (j + 1) ≤ length table.now) }
    ensures { result ≡ same_entry_prefix table.now i j }
{
    let e = records::entry_at(table, i);
    let f = records::entry_at(table, j);
    let p = entry::prefix_of(e);
    let q = entry::prefix_of(f);
    (e[entry::PREFIX_LENGTH] == f[entry::PREFIX_LENGTH])
        & ((numbers::eight(p, 0) == numbers::eight(q, 0))
            & (numbers::eight(p, 8) == numbers::eight(q, 8)))
}

// Entry i stands before entry j: by the prefix, then by its length.
fn precedes(table: &[u8], i: usize, j: usize) -> bool
    requires { (16 + 64 * (i + 1) ≤ length table.now) × (16 + 64 * (j + 1) ≤ length table.now) }
    ensures { result ≡ ltb (entry_key table.now i) (entry_key table.now j) }
{
    let e = records::entry_at(table, i);
    let f = records::entry_at(table, j);
    let p = entry::prefix_of(e);
    let q = entry::prefix_of(f);
    (
        numbers::eight(p, 0),
        numbers::eight(p, 8),
        e[entry::PREFIX_LENGTH],
    ) < (
        numbers::eight(q, 0),
        numbers::eight(q, 8),
        f[entry::PREFIX_LENGTH],
    )
}

// Each number below n but the first is preceded by the one before it.
fn ascending<P: Fn(usize, usize) -> bool>(n: usize, precedes: P) -> bool
    requires { (i : ℕ) → 1 ≤ i → i < n → P.pre precedes (i - 1) i }
    ensures { result ≡ true → (i : ℕ) → 1 ≤ i → i < n → P.post precedes (i - 1) i true }
{
    (1..n).all(|i| precedes(i - 1, i))
}

// The first of the records below n that is the same as one before it: each pair is looked at.
fn repeated<S: Fn(usize, usize) -> bool>(kind: u8, n: usize, condition: u8, same: S) -> Option<u64>
    requires { (n < 65536) × (1 ≤ condition) × ((i j : ℕ) → i < j → j < n → S.pre same i j) }
    ensures { Repeated (S.post same) kind n condition result }
{
    for j in 0..n {
        for i in 0..j {
            if same(i, j) {
                return Some(faults::told(kind, j, condition));
            }
        }
    }
    None
}

fn entry_pairs_fault(table: &[u8], n: usize) -> Option<u64>
    requires { (16 + 64 * n ≤ length table.now) × (n < 65536) }
    ensures { result ≡ nonzero (first_fault (λ j. told entry_record j (entry_repeated table.now j)) n) }
{
    repeated(
        faults::ENTRY,
        n,
        ENTRY_REPEATED,
        |i, j| same_entry_prefix(table, i, j),
    )
}

pub fn entry_prefixes_fault(table: &[u8]) -> Option<u64>
    requires { rules_at table.now ≤ length table.now }
    ensures { result ≡ nonzero (entry_prefixes_fault table.now) }
{
    entry_pairs_fault(table, records::entries(table))
}

// No prefix with its length occurs twice among the first n entries. Entries that stand in order are quick.
pub(crate) fn entries_apart(table: &[u8], n: usize) -> bool
    requires { (16 + 64 * n ≤ length table.now) × (n < 65536) }
    ensures { result ≡ distinct (same_entry_prefix table.now) n }
{
    if ascending(n, |i, j| precedes(table, i, j)) {
        return true;
    }
    entry_pairs_fault(table, n).is_none()
}

// A rule's prefix with its length, as one number.
fn rule_key(r: &Rule) -> u64
    ensures { result ≡ rule_key_of r.now }
{
    numbers::four(rule::prefix_of(r), 0) * 256 + u64::from(r[rule::PREFIX_LENGTH])
}

fn same_rule_prefix(table: &[u8], i: usize, j: usize) -> bool
    requires { (rules_at table.now + 160 * (i + 1) ≤ length table.now) × (rules_at table.now + 160 * (j + 1) ≤ length table.now) }
    ensures { result ≡ same_rule_prefix table.now i j }
{
    rule_key(records::rule_at(table, i)) == rule_key(records::rule_at(table, j))
}

pub fn rule_prefixes_fault(table: &[u8]) -> Option<u64>
    requires { policies_at table.now ≤ length table.now }
    ensures { result ≡ nonzero (rule_prefixes_fault table.now) }
{
    repeated(
        faults::RULE,
        records::rules(table),
        RULE_REPEATED,
        |i, j| same_rule_prefix(table, i, j),
    )
}

// Rule i stands before rule j, of rules that begin at `start`: by the prefix, then by its length.
fn rule_precedes(table: &[u8], start: usize, i: usize, j: usize) -> bool
    requires { (start ≡ rules_at table.now) × (start + 160 * (i + 1) ≤ length table.now) × (start + 160 * (j + 1) ≤ length table.now) }
    ensures { result ≡ ltb (rule_key table.now i) (rule_key table.now j) }
{
    rule_key(records::rule_from(table, start, i)) < rule_key(records::rule_from(table, start, j))
}

// No prefix with its length occurs twice among the table's rules, which are n and begin at `start`.
pub(crate) fn rules_apart(table: &[u8], start: usize, n: usize) -> bool
    requires { (start ≡ rules_at table.now) × (start + 160 * n ≤ length table.now) × (n ≡ rules table.now) }
    ensures { result ≡ distinct (same_rule_prefix table.now) n }
{
    if ascending(n, |i, j| rule_precedes(table, start, i, j)) {
        return true;
    }
    rule_prefixes_fault(table).is_none()
}
