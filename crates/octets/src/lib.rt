// Octets of packets and buffers, read: where they lie, 0 past the end, or by value.
#![tactic(auto)]

ghost use Rattle.std.specs.Prelude.{◌≡◌, ◌+◌, ◌-◌, ◌*◌, ◌≤◌, ◌<◌, length, drop};
ghost use Rattle.rules.specs.Octets.{octet, read16, window};

pub fn octet_or_0(s: &[u8], at: usize) -> u8
    ensures { result ≡ octet s.now at }
{
    s.get(at).copied().unwrap_or(0)
}

pub fn join16(hi: u8, lo: u8) -> u16
    ensures { (result ≡ hi * 256 + lo) × (result < 65536) }
{
    u16::from_be_bytes([hi, lo])
}

// The 16-bit number at octet i of what begins at octet `at`, a datagram's front.
pub fn number_at(s: &[u8], at: usize, i: usize) -> u16
    requires { (at < 65536) × (i < 24) }
    ensures { result ≡ read16 (drop at s.now) i }
{
    join16(octet_or_0(s, at + i), octet_or_0(s, at + i + 1))
}

// An octet as a number that sums and products of octets fit.
pub fn wide(x: u8) -> usize
    ensures { (result ≡ x) × (result < 256) }
{
    usize::from(x)
}

// The difference, 0 where b is larger.
pub fn saturating_sub(a: usize, b: usize) -> usize
    ensures { result ≡ a - b }
{
    a.saturating_sub(b)
}

// Sixteen octets where they lie.
pub fn sixteen(s: &[u8], at: usize) -> &[u8]
    requires { at + 16 ≤ length s.now }
    ensures { (result.now ≡ window s.now at 16) × (length result.now ≡ 16) }
{
    let past = at + 16;
    &s[at..past]
}

// N octets by value, where as many are there. Of 2, 4, 8 and 16 it compiles to one load.
pub fn array<const N: usize>(s: &[u8], at: usize) -> [u8; N]
    requires { at + N ≤ length s.now }
    ensures { result ≡ window s.now at N }
{
    let past = at + N;
    let mut a = [0; N];
    a.copy_from_slice(&s[at..past]);
    a
}

// What is left of s from at on.
fn left(s: &[u8], at: usize) -> &[u8]
    ensures { result.now ≡ drop at s.now }
{
    &s[at.min(s.len())..]
}

// N octets by value.
pub fn window<const N: usize>(s: &[u8], at: usize) -> [u8; N]
    ensures { result ≡ window s.now at N }
{
    let rest = left(s, at);
    let mut a = [0; N];
    if rest.len() < N {
        copying::copy_to(&mut a, 0, rest);
        return a;
    }
    copying::copy_to(&mut a, 0, &rest[..N]);
    a
}
