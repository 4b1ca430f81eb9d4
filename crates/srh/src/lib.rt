// The Segment Routing Header (RFC 8754) and the routing state of a packet (RFC 8986, 4.1).
#![tactic(auto)]

ghost use Rattle.std.specs.Prelude.{◌≡◌, [], ◌∷◌, ◌+◌, ◌-◌, ◌*◌, ◌≤◌, length, leb, ltb, not};
ghost use Rattle.rules.specs.Answer.{any, given, verdict};
ghost use Rattle.rules.specs.Header.{beyond_held};
ghost use Rattle.rules.specs.Octets.{window};
ghost use Rattle.rules.specs.Table.{addresses_at};
ghost use Rattle.rules.specs.Srh.{segments};
ghost use Rattle.rules.specs.Waypoint.{routing, step, underway, step_rows};
ghost use Rattle.copying.specs.Run.{Run};
ghost use Rattle.srh.specs.State.{address_octets, state, NextOrRefused};

// An address as two words. A word's lowest octet stands first, so that it is one load and one store.
#[derive(Clone, Copy)]
pub struct Address {
    pub first: u64,
    pub second: u64,
}

// Segments Left, hop limit and destination: what a waypoint takes and hands back.
#[derive(Clone, Copy)]
pub struct Routing {
    pub segmentsLeft: u8,
    pub hopLimit: u8,
    pub destination: Address,
}

impl Address {
    // 16 octets that are lent.
    fn lent(a: &[u8]) -> Address
        requires { length a.now ≡ 16 }
        ensures { address_octets result ≡ a.now }
    {
        Address {
            first: u64::from_le_bytes(octets::array(a, 0)),
            second: u64::from_le_bytes(octets::array(a, 8)),
        }
    }

    pub fn of(a: [u8; 16]) -> Address
        ensures { address_octets result ≡ a }
    {
        Address::lent(&a)
    }

    // The address at octet `at`, where octets past the end are 0. It is lent where it lies within: then each word is one load.
    pub fn at(s: &[u8], at: usize) -> Address
        ensures { address_octets result ≡ window s.now at 16 }
    {
        if s.len().saturating_sub(at) < 16 {
            return Address::of(octets::window::<16>(s, at));
        }
        Address::lent(octets::sixteen(s, at))
    }

    pub fn octets(self) -> [u8; 16]
        ensures { result ≡ address_octets self }
    {
        let a = self.first.to_le_bytes();
        let b = self.second.to_le_bytes();
        [
            a[0], a[1], a[2], a[3], a[4], a[5], a[6], a[7], b[0], b[1], b[2], b[3], b[4], b[5],
            b[6], b[7],
        ]
    }
}

fn is_underway(left: u8, h: rules::Header) -> bool
    ensures { result ≡ underway left h }
{
    ip::has_srh(h) & (0 < left)
}

// Row 6.
fn hops_spent(left: u8, hops: u8, h: rules::Header) -> bool
    ensures { result ≡ any (given (underway left h) (leb hops 1 ∷ [])) }
{
    is_underway(left, h) & (hops <= 1)
}

// Row 7.
fn bad_left(left: u8, h: rules::Header) -> bool
    ensures { result ≡ any (given (underway left h) (beyond_held h ∷ ltb (h.lastEntry + 1) left ∷ [])) }
{
    is_underway(left, h)
        & (ip::beyond_held(h) | (octets::wide(h.lastEntry) + 1 < octets::wide(left)))
}

// Row 8.
fn at_rest(left: u8, h: rules::Header) -> bool
    ensures { result ≡ not (underway left h) }
{
    !is_underway(left, h)
}

impl Routing {
    // The state in the first 48 octets of a packet.
    pub fn of(front: [u8; 48]) -> Routing
        ensures { state result ≡ routing front }
    {
        let destination = Address::of(octets::window::<16>(&front, 24));
        Routing {
            segmentsLeft: front[43],
            hopLimit: front[7],
            destination,
        }
    }

    // One segment on, or rows 6, 7 and 8. `segment` is the one that Segments Left less 1 names.
    pub fn step(self, h: rules::Header, segment: Address) -> Result<Routing, rules::Refusal>
        ensures { NextOrRefused result (verdict (step_rows self.segmentsLeft self.hopLimit h))
            (step (state self) (address_octets segment)) }
    {
        if hops_spent(self.segmentsLeft, self.hopLimit, h) {
            return Err(rules::Refusal::hop_limit());
        }
        if bad_left(self.segmentsLeft, h) {
            return Err(rules::Refusal::segments_left());
        }
        if at_rest(self.segmentsLeft, h) {
            return Err(rules::Refusal::upper_layer(h.upperAt));
        }
        Ok(Routing {
            segmentsLeft: self.segmentsLeft.saturating_sub(1),
            hopLimit: self.hopLimit.saturating_sub(1),
            destination: segment,
        })
    }
}

// n addresses that stand in s from octet `from` on, the last of them first, into out from `at` on.
pub fn put_reversed(out: &mut [u8], at: usize, s: &[u8], from: usize, n: usize)
    requires { (from + 16 * n ≤ length s.now) × (at + 16 * n ≤ length out.old) }
    ensures { Run out.old at (16 * n) (segments (addresses_at s.now from n) []) out.new }
{
    for k in 0..n {
        let address: [u8; 16] = octets::array(s, from + 16 * k);
        copying::copy_to(out, at + 16 * (n - k - 1), &address);
    }
}
