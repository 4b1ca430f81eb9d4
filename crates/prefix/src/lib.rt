// Whether an address lies under a prefix, and whether the bits past a prefix are 0. Any number of bits is allowed: past those of an
// address nothing changes.
#![tactic(auto)]

ghost use Rattle.std.specs.Prelude.{◌≡◌, ℕ, ◌+◌, ◌-◌, ◌*◌, ◌^◌, ◌%◌, ◌≤◌, ◌<◌, eqb, length};
ghost use Rattle.rules.specs.Octets.{number};
ghost use Rattle.rules.specs.Prefix.{under, clear};
ghost use Rattle.prefix.specs.Lying.{Lying};

const IPV4_BITS: usize = 32;

const IPV6_BITS: usize = 128;

const WORD_BITS: usize = 64;

// The first `bits` bits of the address are the prefix's, whatever it holds past them: whole octets first, then the first `part` bits of the
// next octet, whose other bits are shifted out. /62: octets 0 to 6, then the first 6 bits of octet 7, so that 2001:db8:b:3:: lies under
// 2001:db8:b:1::/62 and 2001:db8:b:4:: does not. /64: octets 0 to 7 alone. /128: octets 0 to 15. /0: none, and every address lies under it.
fn lies_under(address: &[u8], prefix: &[u8], bits: usize) -> bool
    requires { (bits ≤ 8 * length address.now) × (bits ≤ 8 * length prefix.now) }
    ensures { (w : ℕ) → bits ≤ 8 * w → result ≡ under w address.now prefix.now bits }
{
    let whole = bits / 8;
    if !same_octets(address, prefix, whole) {
        return false;
    }
    let part = bits % 8;
    if part == 0 {
        return true;
    }
    let rest = 8 - part;
    address[whole] >> rest == prefix[whole] >> rest
}

// An address of W octets. More bits than those of W octets count as all of them.
pub fn under<const W: usize>(address: &[u8], prefix: &[u8], bits: usize) -> bool
    requires { (W ≤ length address.now) × (W ≤ length prefix.now) }
    ensures { result ≡ under W address.now prefix.now bits }
{
    lies_under(address, prefix, bits.min(W.saturating_mul(8)))
}

// The first n octets are the same: eight at a time while eight are left, then four, two and one, where so many are.
fn same_octets(a: &[u8], b: &[u8], n: usize) -> bool
    requires { (n ≤ length a.now) × (n ≤ length b.now) }
    ensures { result ≡ eqb (number a.now 0 n) (number b.now 0 n) }
{
    for k in 0..n / 8 {
        if eight_octets(a, 8 * k) != eight_octets(b, 8 * k) {
            return false;
        }
    }
    let mut i = n / 8 * 8;
    if i + 4 <= n {
        if four_octets(a, i) != four_octets(b, i) {
            return false;
        }
        i += 4;
    }
    if i + 2 <= n {
        if two_octets(a, i) != two_octets(b, i) {
            return false;
        }
        i += 2;
    }
    if i < n {
        return a[i] == b[i];
    }
    true
}

// Two, four and eight octets in one number as they lie: the first is the lowest. It only serves to tell whether octets are the same. Each
// compiles to one load.
fn two_octets(s: &[u8], at: usize) -> u16
    requires { at + 2 ≤ length s.now }
    ensures { Lying s.now at 2 result }
{
    u16::from_le_bytes(octets::array(s, at))
}

fn four_octets(s: &[u8], at: usize) -> u32
    requires { at + 4 ≤ length s.now }
    ensures { Lying s.now at 4 result }
{
    u32::from_le_bytes(octets::array(s, at))
}

fn eight_octets(s: &[u8], at: usize) -> u64
    requires { at + 8 ≤ length s.now }
    ensures { Lying s.now at 8 result }
{
    u64::from_le_bytes(octets::array(s, at))
}

// The last `rest` bits of a word are 0.
fn ends_clear(word: u64, rest: usize) -> bool
    requires { rest < 64 }
    ensures { result ≡ eqb (word % 2 ^ rest) 0 }
{
    (word >> rest) << rest == word
}

// The bits of an IPv6 prefix, in two words, past the first `bits` are 0: a shift drops the bits of the prefix, and what is left must be 0.
pub fn words_clear(high: u64, low: u64, bits: usize) -> bool
    ensures { result ≡ eqb ((high * 2 ^ 64 + low) % 2 ^ (128 - bits)) 0 }
{
    if WORD_BITS < bits {
        if IPV6_BITS <= bits {
            return true;
        }
        return low << (bits - WORD_BITS) == 0;
    }
    if low != 0 {
        return false;
    }
    if bits == WORD_BITS {
        return true;
    }
    high << bits == 0
}

// The same of an IPv6 prefix where it lies.
pub fn clear16(prefix: &[u8], bits: usize) -> bool
    requires { 16 ≤ length prefix.now }
    ensures { result ≡ clear 16 prefix.now bits }
{
    words_clear(numbers::eight(prefix, 0), numbers::eight(prefix, 8), bits)
}

// The same of an IPv4 prefix.
pub fn clear4(prefix: &[u8], bits: usize) -> bool
    requires { 4 ≤ length prefix.now }
    ensures { result ≡ clear 4 prefix.now bits }
{
    ends_clear(numbers::four(prefix, 0), IPV4_BITS.saturating_sub(bits))
}
