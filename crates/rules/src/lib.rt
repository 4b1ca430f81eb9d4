// The types that definitions and code share, the numbers that the standards assign, and the refusals, each made here under its name. What
// they mean is in specs/.
#![tactic(auto)]

ghost use Rattle.std.specs.Prelude.{◌≡◌, []};
ghost use Rattle.rules.specs.Answer.{plain, hop_limit_row, segments_left_row, upper_layer_row};

pub mod assigned; // assigned.rt: numbers that the standards assign

// An answer number other than 0, with its ICMP fields.
#[derive(Clone, Copy)]
pub struct Refusal {
    pub number: u8,
    pub icmpType: u8,
    pub icmpCode: u8,
    pub pointer: u16,
}

impl Refusal {
    // A row without ICMP fields.
    fn plain(number: u8) -> Refusal
        ensures { result ≡ plain number }
    {
        Refusal {
            number,
            icmpType: 0,
            icmpCode: 0,
            pointer: 0,
        }
    }

    // Row 1. Table not sound.
    pub fn unsound() -> Refusal
        ensures { result ≡ plain 1 }
    {
        Refusal::plain(1)
    }

    // Row 2. Too short, wrong version, or a length that disagrees.
    pub fn malformed() -> Refusal
        ensures { result ≡ plain 2 }
    {
        Refusal::plain(2)
    }

    // Row 3. An IPv4 header with options, a wrong checksum, or a fragment.
    pub fn bad_header4() -> Refusal
        ensures { result ≡ plain 3 }
    {
        Refusal::plain(3)
    }

    // Row 4. No entry or rule matches.
    pub fn no_match() -> Refusal
        ensures { result ≡ plain 4 }
    {
        Refusal::plain(4)
    }

    // Row 5. A chain of headers that is not taken.
    pub fn bad_chain() -> Refusal
        ensures { result ≡ plain 5 }
    {
        Refusal::plain(5)
    }

    // Row 6. Time Exceeded code 0.
    pub fn hop_limit() -> Refusal
        ensures { result ≡ (hop_limit_row []).refusal }
    {
        Refusal {
            number: 6,
            icmpType: assigned::TIME_EXCEEDED,
            icmpCode: 0,
            pointer: 0,
        }
    }

    // Row 7. Parameter Problem code 0, pointer at Segments Left.
    pub fn segments_left() -> Refusal
        ensures { result ≡ (segments_left_row []).refusal }
    {
        Refusal {
            number: 7,
            icmpType: assigned::PARAMETER_PROBLEM,
            icmpCode: 0,
            pointer: 43,
        }
    }

    // Row 8. Parameter Problem code 4, pointer at the upper-layer header.
    pub fn upper_layer(at: u16) -> Refusal
        ensures { result ≡ (upper_layer_row [] at).refusal }
    {
        Refusal {
            number: 8,
            icmpType: assigned::PARAMETER_PROBLEM,
            icmpCode: 4,
            pointer: at,
        }
    }

    // Row 8. No GTP-U over UDP at D4: dropped, no ICMP (RFC 9433, 6.7).
    pub fn dropped() -> Refusal
        ensures { result ≡ plain 8 }
    {
        Refusal::plain(8)
    }

    // Row 9. UDP cut short, or its length disagrees.
    pub fn bad_udp() -> Refusal
        ensures { result ≡ plain 9 }
    {
        Refusal::plain(9)
    }

    // Row 10. GTP-U cut short, another version, or its length disagrees.
    pub fn bad_gtpu() -> Refusal
        ensures { result ≡ plain 10 }
    {
        Refusal::plain(10)
    }

    // Row 11. Another message than a G-PDU or an Echo Request.
    pub fn not_gpdu() -> Refusal
        ensures { result ≡ plain 11 }
    {
        Refusal::plain(11)
    }

    // Row 12. Another list of extensions than one container.
    pub fn bad_extensions() -> Refusal
        ensures { result ≡ plain 12 }
    {
        Refusal::plain(12)
    }

    // Row 13. No container, or one of the other direction.
    pub fn bad_container() -> Refusal
        ensures { result ≡ plain 13 }
    {
        Refusal::plain(13)
    }

    // Row 14. An IPv4v6 session with neither IPv4 nor IPv6 in it.
    pub fn bad_inner() -> Refusal
        ensures { result ≡ plain 14 }
    {
        Refusal::plain(14)
    }

    // Row 15. A length field would pass 65,535.
    pub fn too_long() -> Refusal
        ensures { result ≡ plain 15 }
    {
        Refusal::plain(15)
    }

    // Row 16. The output is shorter than the result.
    pub fn no_room() -> Refusal
        ensures { result ≡ plain 16 }
    {
        Refusal::plain(16)
    }

    // Row 17. An Echo Request without S, or with a TEID other than 0.
    pub fn bad_echo() -> Refusal
        ensures { result ≡ plain 17 }
    {
        Refusal::plain(17)
    }

    // Row 18. UDP checksum wrong over IPv6, or zero where the entry does not allow it.
    pub fn bad_checksum() -> Refusal
        ensures { result ≡ plain 18 }
    {
        Refusal::plain(18)
    }

    // Row 19. A burst of over 32 lengths, whose lengths do not add up to the input, or with too few places for answers.
    pub fn bad_burst() -> Refusal
        ensures { result ≡ plain 19 }
    {
        Refusal::plain(19)
    }

    // Row 23. No ICMPv6 message is due.
    pub fn none_due() -> Refusal
        ensures { result ≡ plain 23 }
    {
        Refusal::plain(23)
    }
}

// What the rows ask of an arriving IPv6 packet: its first header, the SRH behind it if there is one, and the upper layer behind these.
#[derive(Clone, Copy)]
pub struct Header {
    pub size: usize,
    pub version: u8,
    pub trafficClass: u8,
    pub payloadLength: u16,
    pub nextHeader: u8,
    pub hopLimit: u8,
    pub units: u8,
    pub routingType: u8,
    pub segmentsLeft: u8,
    pub lastEntry: u8,
    pub upper: u8,
    pub upperAt: u16,
}

// What the rows ask of an arriving IPv4 packet.
#[derive(Clone, Copy)]
pub struct Header4 {
    pub size: usize,
    pub version: u8,
    pub headerLength: u8,
    pub totalLength: u16,
    pub moreFragments: u8,
    pub fragmentOffset: u16,
    pub protocol: u8,
    pub headerSum: u16,
}

// What the rows ask of a UDP datagram and the GTP-U message in it.
#[derive(Clone, Copy)]
pub struct Datagram {
    pub size: usize,
    pub destinationPort: u16,
    pub length: u16,
    pub flags: u8,
    pub messageType: u8,
    pub messageLength: u16,
    pub teid: [u8; 4],
    pub extensionType: u8,
    pub extensionUnits: u8,
    pub pduType: u8,
    pub followingType: u8,
}
