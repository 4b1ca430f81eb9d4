// The first condition of soundness that a table breaks, as one number.
ghost use Rattle.std.specs.Prelude.{◌≡◌, ℕ, [], ◌∷◌, ◌<◌, ◌≤◌, eqb, leb, length};
ghost use Rattle.rules.specs.Octets.{read16};
ghost use Rattle.rules.specs.Table.{table_size};
ghost use Rattle.rules.specs.Sound.{entry_limit};
ghost use Rattle.rules.specs.Fault.{first_broken, header_broken, told, entries_fault, rules_fault, policies_fault, fault};
ghost use Rattle.table.specs.Records.{nonzero, FirstFault};

use crate::{apart, quick};
use conditions::{entry, policy, rule};

pub(crate) const FORMAT: u8 = 1;

pub(crate) const ENTRY_LIMIT: usize = 64;

pub(crate) const RULE_LIMIT: usize = 16;

pub(crate) const POLICY_LIMIT: usize = 16;

// Kinds of record.
const HEADER: u8 = 1;

pub const ENTRY: u8 = 2;

pub const RULE: u8 = 3;

const POLICY: u8 = 4;

// A broken condition with the kind and the index of its record.
pub fn told(kind: u8, index: usize, condition: u8) -> u64
    requires { index < 65536 }
    ensures { result ≡ told kind index condition }
{
    if condition == 0 {
        return 0;
    }
    u64::from(condition) + 256 * u64::from(kind) + 65536 * (index as u64)
}

fn header_conditions(
    format: u8,
    entries: usize,
    rules: usize,
    policies: usize,
    agrees: bool,
) -> Option<u8>
    ensures { result ≡ nonzero (first_broken 1 (eqb format 1 ∷ leb entries 64 ∷ leb rules 16 ∷ leb policies 16 ∷ agrees ∷ [])) }
{
    if format != FORMAT {
        return Some(1);
    }
    if ENTRY_LIMIT < entries {
        return Some(2);
    }
    if RULE_LIMIT < rules {
        return Some(3);
    }
    if POLICY_LIMIT < policies {
        return Some(4);
    }
    if !agrees {
        return Some(5);
    }
    None
}

fn count_or_0(table: &[u8], at: usize) -> usize
    requires { at < 16 }
    ensures { result ≡ read16 table.now at }
{
    usize::from(octets::join16(
        octets::octet_or_0(table, at),
        octets::octet_or_0(table, at + 1),
    ))
}

// Octets that a table lacks are read as 0.
fn header_broken(table: &[u8]) -> Option<u8>
    ensures { result ≡ nonzero (header_broken entry_limit table.now) }
{
    if table.len() < records::HEADER_SIZE {
        return header_conditions(
            octets::octet_or_0(table, 0),
            count_or_0(table, 2),
            count_or_0(table, 4),
            count_or_0(table, 6),
            false,
        );
    }
    header_conditions(
        table[0],
        records::entries(table),
        records::rules(table),
        records::policies(table),
        table.len() == records::size(table),
    )
}

// The first fault among the records below n of one kind, from the condition that each breaks first.
fn first_fault<B: Fn(usize) -> u8>(kind: u8, n: usize, broken: B) -> Option<u64>
    requires { (n ≤ 65536) × ((i : ℕ) → i < n → B.pre broken i) }
    ensures { FirstFault (B.post broken) kind n result }
{
    for i in 0..n {
        let condition = broken(i);
        if condition != 0 {
            return Some(told(kind, i, condition));
        }
    }
    None
}

fn entries_fault(table: &[u8]) -> Option<u64>
    requires { table_size table.now ≤ length table.now }
    ensures { result ≡ nonzero (entries_fault table.now) }
{
    let policies = records::policies(table);
    first_fault(
        ENTRY,
        records::entries(table),
        |i| entry::broken(records::entry_at(table, i), policies),
    )
}

fn rules_fault(table: &[u8]) -> Option<u64>
    requires { table_size table.now ≤ length table.now }
    ensures { result ≡ nonzero (rules_fault table.now) }
{
    first_fault(
        RULE,
        records::rules(table),
        |k| rule::broken(records::rule_at(table, k)),
    )
}

fn policies_fault(table: &[u8]) -> Option<u64>
    requires { table_size table.now ≤ length table.now }
    ensures { result ≡ nonzero (policies_fault table.now) }
{
    first_fault(
        POLICY,
        records::policies(table),
        |j| policy::broken(records::policy_at(table, j)),
    )
}

// Condition after condition, in their order.
pub(crate) fn look_for_fault(table: &[u8]) -> Option<u64>
    ensures { result ≡ nonzero (fault table.now) }
{
    if let Some(condition) = header_broken(table) {
        return Some(told(HEADER, 0, condition));
    }
    entries_fault(table)
        .or_else(|| apart::entry_prefixes_fault(table))
        .or_else(|| rules_fault(table))
        .or_else(|| apart::rule_prefixes_fault(table))
        .or_else(|| policies_fault(table))
}

// A sound table is told by a quicker way.
pub fn fault(table: &[u8]) -> u64
    ensures { result ≡ fault table.now }
{
    if quick::surely_sound(table) {
        return 0;
    }
    look_for_fault(table).unwrap_or(0)
}
