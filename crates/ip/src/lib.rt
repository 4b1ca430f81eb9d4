// IPv6 and IPv4 headers (RFC 8200, RFC 791): what is read of them, the tests of rows 2, 3 and 5, and how they are written.
#![tactic(auto)]

ghost use Rattle.std.specs.Prelude.{◌≡◌, cond, [], ◌+◌, ◌-◌, ◌*◌, ◌/◌, ◌%◌, ◌≤◌, ◌<◌, eqb, length};
ghost use Rattle.rules.specs.Answer.{any};
ghost use Rattle.rules.specs.Assigned.{routing_header};
ghost use Rattle.rules.specs.Header.{header_of, malformed, bad_srh, bad_chain, has_srh, beyond_held, segments_remain};
ghost use Rattle.rules.specs.Header4.{header4_of, malformed4, bad_header4};
ghost use Rattle.rules.specs.Octets.{window};
ghost use Rattle.rules.specs.Ipv6.{ipv6};
ghost use Rattle.rules.specs.Ipv4.{ipv4};
ghost use Rattle.rules.specs.Checksum.{ones_sum};
ghost use Rattle.copying.specs.Run.{Run};

// Where the upper layer begins: behind the SRH, or behind the IPv6 header.
fn upper_at(next: u8, units: u8) -> u16
    ensures { result ≡ cond (eqb next routing_header) (48 + 8 * units) 40 }
{
    if next == rules::assigned::ROUTING_HEADER {
        48 + 8 * u16::from(units)
    } else {
        40
    }
}

fn upper_of(next: u8, after: u8) -> u8
    ensures { result ≡ cond (eqb next routing_header) after next }
{
    if next == rules::assigned::ROUTING_HEADER {
        after
    } else {
        next
    }
}

fn traffic_class(a: u8, b: u8) -> u8
    ensures { result ≡ a % 16 * 16 + b / 16 }
{
    a % 16 * 16 + b / 16
}

// The numbers of an IPv6 packet of `size` octets that begins with `front`.
pub fn header_of(front: [u8; 48], size: usize) -> rules::Header
    ensures { result ≡ header_of front size }
{
    let next = front[6];
    let units = front[41];
    rules::Header {
        size,
        version: front[0] / 16,
        trafficClass: traffic_class(front[0], front[1]),
        payloadLength: octets::join16(front[4], front[5]),
        nextHeader: next,
        hopLimit: front[7],
        units,
        routingType: front[42],
        segmentsLeft: front[43],
        lastEntry: front[44],
        upper: upper_of(next, front[40]),
        upperAt: upper_at(next, units),
    }
}

// Row 2.
pub fn is_malformed(h: rules::Header) -> bool
    ensures { result ≡ any (malformed h) }
{
    (h.size < 40) | ((h.version != 6) | (40 + usize::from(h.payloadLength) != h.size))
}

pub fn has_srh(h: rules::Header) -> bool
    ensures { result ≡ has_srh h }
{
    h.nextHeader == rules::assigned::ROUTING_HEADER
}

// What is wrong with an SRH, in row 5.
fn bad_srh(h: rules::Header) -> bool
    ensures { result ≡ any (bad_srh h) }
{
    (h.size < 48)
        | ((h.routingType != rules::assigned::SEGMENT_ROUTING)
            | ((h.size < usize::from(h.upperAt))
                | ((h.upper == rules::assigned::HOP_BY_HOP)
                    | ((h.upper == rules::assigned::FRAGMENT_HEADER)
                        | ((h.upper == rules::assigned::DESTINATION_OPTIONS)
                            | (h.upper == rules::assigned::ROUTING_HEADER))))))
}

// Row 5.
pub fn bad_chain(h: rules::Header) -> bool
    ensures { result ≡ any (bad_chain h) }
{
    if h.nextHeader == rules::assigned::ROUTING_HEADER {
        return bad_srh(h);
    }
    (h.nextHeader == rules::assigned::HOP_BY_HOP)
        | ((h.nextHeader == rules::assigned::FRAGMENT_HEADER)
            | (h.nextHeader == rules::assigned::DESTINATION_OPTIONS))
}

// LE beyond the segments held.
pub fn beyond_held(h: rules::Header) -> bool
    ensures { result ≡ beyond_held h }
{
    h.units / 2 <= h.lastEntry
}

// Row 7 at D, Di and E4.
pub fn segments_remain(h: rules::Header) -> bool
    ensures { result ≡ any (segments_remain h) }
{
    (h.nextHeader == rules::assigned::ROUTING_HEADER) & (h.segmentsLeft != 0)
}

// The IPv6 header, at the front of out: flow label 0 (house).
pub fn put_ipv6(
    out: &mut [u8],
    class: u8,
    payload: u16,
    next: u8,
    hops: u8,
    source: [u8; 16],
    destination: [u8; 16],
)
    requires { 40 ≤ length out.old }
    ensures { Run out.old 0 40 (ipv6 class payload next hops source destination []) out.new }
{
    let [hi, lo] = payload.to_be_bytes();
    let head = [0x60 + class / 16, class % 16 * 16, 0, 0, hi, lo, next, hops];
    copying::copy_to(out, 0, &head);
    copying::copy_to(out, 8, &source);
    copying::copy_to(out, 24, &destination);
}

// A number of up to 32 bits as the ones' complement sum of its 16-bit halves, twice (RFC 1071).
fn folded(total: u32) -> u16
    requires { total < 1048576 }
    ensures { result ≡ total - (total - 1) / 65535 * 65535 }
{
    let once = total % 65536 + total / 65536;
    (once % 65536 + once / 65536) as u16
}

// The ones' complement sum of an IPv4 header without options.
fn header_sum(front: [u8; 20]) -> u16
    ensures { result ≡ ones_sum (window front 0 20) }
{
    let mut total = 0;
    for i in 0..10 {
        total += u32::from(octets::join16(front[2 * i], front[2 * i + 1]));
    }
    folded(total)
}

// The numbers of an IPv4 packet of `size` octets that begins with `front`.
pub fn header4_of(front: [u8; 20], size: usize) -> rules::Header4
    ensures { result ≡ header4_of front size }
{
    rules::Header4 {
        size,
        version: front[0] / 16,
        headerLength: front[0] % 16,
        totalLength: octets::join16(front[2], front[3]),
        moreFragments: front[6] / 32 % 2,
        fragmentOffset: octets::join16(front[6] % 32, front[7]),
        protocol: front[9],
        headerSum: header_sum(front),
    }
}

// Row 2 over IPv4.
pub fn is_malformed4(h: rules::Header4) -> bool
    ensures { result ≡ any (malformed4 h) }
{
    (h.size < 20) | ((h.version != 4) | (usize::from(h.totalLength) != h.size))
}

// Row 3.
pub fn bad_header4(h: rules::Header4) -> bool
    ensures { result ≡ any (bad_header4 h) }
{
    (h.headerLength != 5)
        | ((h.headerSum != 0xffff) | ((h.moreFragments != 0) | (h.fragmentOffset != 0)))
}

// The IPv4 header, at the front of out: no options, identification 0, DF set, right checksum (house); UDP.
pub fn put_ipv4(out: &mut [u8], tos: u8, total: u16, ttl: u8, source: [u8; 4], destination: [u8; 4])
    requires { 20 ≤ length out.old }
    ensures { Run out.old 0 20 (ipv4 tos total ttl source destination []) out.new }
{
    let [hi, lo] = total.to_be_bytes();
    let blank = [
        0x45,
        tos,
        hi,
        lo,
        0,
        0,
        0x40,
        0,
        ttl,
        rules::assigned::UDP_PROTOCOL,
        0,
        0,
        source[0],
        source[1],
        source[2],
        source[3],
        destination[0],
        destination[1],
        destination[2],
        destination[3],
    ];
    let [sum_hi, sum_lo] = (65535 - header_sum(blank)).to_be_bytes();
    let head = [
        0x45,
        tos,
        hi,
        lo,
        0,
        0,
        0x40,
        0,
        ttl,
        rules::assigned::UDP_PROTOCOL,
        sum_hi,
        sum_lo,
    ];
    copying::copy_to(out, 0, &head);
    copying::copy_to(out, 12, &source);
    copying::copy_to(out, 16, &destination);
}
