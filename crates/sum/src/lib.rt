// The sum of the 16-bit words of octets (RFC 1071), modulo 65,535. Modulo 65,535 a carry out of 16 bits counts as 1, so that words may be
// added 32 bits at a time, and 256 times a word is the word with its octets exchanged, so that they may be added as they lie.
#![tactic(auto)]

ghost use Rattle.std.specs.Prelude.{◌≡◌, ◌+◌, ◌*◌, ◌/◌, ◌%◌, ◌≤◌, ◌<◌, length};
ghost use Rattle.rules.specs.Checksum.{word_sum};
ghost use Rattle.sum.specs.Adding.{Four, Before};

// A word as its octets lie, the low half first.
fn word(x: u8, y: u8) -> u64
    ensures { (result ≡ x + y * 256) × (result < 65536) }
{
    u64::from(u16::from_le_bytes([x, y]))
}

// Two words side by side. It compiles to one load.
fn four(s: &[u8], at: usize) -> u64
    requires { at + 4 ≤ length s.now }
    ensures { Four s.now at result }
{
    u64::from(u32::from_le_bytes(octets::array(s, at)))
}

// The octets up to the last multiple of 16. Four sums, so that a turn compiles to one load and the additions of two vectors.
fn sixteens(s: &[u8]) -> u64
    requires { length s.now ≤ 131072 }
    ensures { Before s.now (length s.now / 16 * 16) result }
{
    let end = s.len() / 16 * 16;
    let mut a: u64 = 0;
    let mut b: u64 = 0;
    let mut c: u64 = 0;
    let mut d: u64 = 0;
    let mut i = 0;
    while i < end {
        a += four(s, i);
        b += four(s, i + 4);
        c += four(s, i + 8);
        d += four(s, i + 12);
        i += 16;
    }
    a + b + c + d
}

// The eight octets behind these, where there are eight; then so four, and two.
fn eight_more(s: &[u8], sum: u64) -> u64
    requires { (length s.now ≤ 131072) × Before s.now (length s.now / 16 * 16) sum }
    ensures { Before s.now (length s.now / 8 * 8) result }
{
    if s.len() % 16 < 8 {
        return sum;
    }
    let at = s.len() / 16 * 16;
    sum + four(s, at) + four(s, at + 4)
}

fn four_more(s: &[u8], sum: u64) -> u64
    requires { (length s.now ≤ 131072) × Before s.now (length s.now / 8 * 8) sum }
    ensures { Before s.now (length s.now / 4 * 4) result }
{
    if s.len() % 8 < 4 {
        return sum;
    }
    sum + four(s, s.len() / 8 * 8)
}

fn two_more(s: &[u8], sum: u64) -> u64
    requires { (length s.now ≤ 131072) × Before s.now (length s.now / 4 * 4) sum }
    ensures { Before s.now (length s.now / 2 * 2) result }
{
    if s.len() % 4 < 2 {
        return sum;
    }
    let at = s.len() / 4 * 4;
    sum + word(s[at], s[at + 1])
}

// The odd octet at the end, with a 0 behind it.
fn one_more(s: &[u8], sum: u64) -> u64
    requires { (length s.now ≤ 131072) × Before s.now (length s.now / 2 * 2) sum }
    ensures { Before s.now (length s.now) result }
{
    if s.len() % 2 < 1 {
        return sum;
    }
    sum + word(s[s.len() - 1], 0)
}

// The words of s, but for a multiple of 65,535: who adds several parts brings the total below that once.
pub fn unreduced(s: &[u8]) -> u64
    requires { length s.now ≤ 131072 }
    ensures { (result % 65535 ≡ word_sum s.now % 65535) × (result ≤ 36028797018963968) }
{
    256 * one_more(s, two_more(s, four_more(s, eight_more(s, sixteens(s)))))
}

// The same of an address, by value.
pub fn unreduced_address(a: [u8; 16]) -> u64
    ensures { (result % 65535 ≡ word_sum a % 65535) × (result ≤ 4398046511104) }
{
    256 * (four(&a, 0) + four(&a, 4) + four(&a, 8) + four(&a, 12))
}
