// The records of a table: the header's counts, each record as a part of the table's octets, and where its fields lie.
#![tactic(auto)]

ghost use Rattle.std.specs.Prelude.{◌≡◌, ◌+◌, ◌*◌, ◌≤◌, length};
ghost use Rattle.rules.specs.Octets.{window, read16};
ghost use Rattle.rules.specs.Table.{entries, rules, policies, rules_at, policies_at, table_size, entry_at, rule_at, policy_at};
ghost use Rattle.records.specs.Results.{Known};

pub mod entry; // entry.rt: a SID entry
pub mod rule; // rule.rt: an IPv4 rule
pub mod policy; // policy.rt: a policy

pub const HEADER_SIZE: usize = 16;

pub const ENTRY_SIZE: usize = 64;

pub const RULE_SIZE: usize = 160;

pub const POLICY_SIZE: usize = 288;

// A record where it lies in the table.
pub type Entry = [u8; ENTRY_SIZE];

pub type Rule = [u8; RULE_SIZE];

pub type Policy = [u8; POLICY_SIZE];

pub const IPV6_ADDRESS_SIZE: usize = 16;

pub const IPV4_ADDRESS_SIZE: usize = 4;

fn count_at(table: &[u8], at: usize) -> usize
    requires { at + 2 ≤ length table.now }
    ensures { Known (read16 table.now at) 65536 result }
{
    numbers::two(table, at) as usize
}

pub fn entries(table: &[u8]) -> usize
    requires { 16 ≤ length table.now }
    ensures { Known (entries table.now) 65536 result }
{
    count_at(table, 2)
}

pub fn rules(table: &[u8]) -> usize
    requires { 16 ≤ length table.now }
    ensures { Known (rules table.now) 65536 result }
{
    count_at(table, 4)
}

pub fn policies(table: &[u8]) -> usize
    requires { 16 ≤ length table.now }
    ensures { Known (policies table.now) 65536 result }
{
    count_at(table, 6)
}

// Where the rules begin, where the policies begin, and where the table ends.
fn rules_start(table: &[u8]) -> usize
    requires { 16 ≤ length table.now }
    ensures { Known (rules_at table.now) 4194304 result }
{
    HEADER_SIZE + ENTRY_SIZE * entries(table)
}

fn policies_start(table: &[u8]) -> usize
    requires { 16 ≤ length table.now }
    ensures { Known (policies_at table.now) 16777216 result }
{
    rules_start(table) + RULE_SIZE * rules(table)
}

pub fn size(table: &[u8]) -> usize
    requires { 16 ≤ length table.now }
    ensures { result ≡ table_size table.now }
{
    policies_start(table) + POLICY_SIZE * policies(table)
}

// The n octets from `at` on.
pub fn part(s: &[u8], at: usize, n: usize) -> &[u8]
    requires { at + n ≤ length s.now }
    ensures same { result.now ≡ window s.now at n }
    ensures long { length result.now ≡ n }
{
    let end = at + n;
    &s[at..end]
}

// The same, as many as the array has.
pub fn array<const N: usize>(s: &[u8], at: usize) -> &[u8; N]
    requires { at + N ≤ length s.now }
    ensures same { result.now ≡ window s.now at N }
{
    part(s, at, N).as_array().unwrap()
}

pub fn entry_at(table: &[u8], i: usize) -> &Entry
    requires { 16 + 64 * (i + 1) ≤ length table.now }
    ensures same { result.now ≡ entry_at table.now i }
{
    array(table, HEADER_SIZE + ENTRY_SIZE * i)
}

pub fn rule_at(table: &[u8], k: usize) -> &Rule
    requires { rules_at table.now + 160 * (k + 1) ≤ length table.now }
    ensures same { result.now ≡ rule_at table.now k }
{
    array(table, rules_start(table) + RULE_SIZE * k)
}

pub fn policy_at(table: &[u8], j: usize) -> &Policy
    requires { policies_at table.now + 288 * (j + 1) ≤ length table.now }
    ensures same { result.now ≡ policy_at table.now j }
{
    array(table, policies_start(table) + POLICY_SIZE * j)
}

// The same where it is known where the rules, and the policies, begin.
pub fn rule_from(table: &[u8], start: usize, k: usize) -> &Rule
    requires { (start ≡ rules_at table.now) × (start + 160 * (k + 1) ≤ length table.now) }
    ensures same { result.now ≡ rule_at table.now k }
{
    array(table, start + RULE_SIZE * k)
}

pub fn policy_from(table: &[u8], start: usize, j: usize) -> &Policy
    requires { (start ≡ policies_at table.now) × (start + 288 * (j + 1) ≤ length table.now) }
    ensures same { result.now ≡ policy_at table.now j }
{
    array(table, start + POLICY_SIZE * j)
}
