// The call that reports by ICMPv6 (RFC 4443): whether a message is due about a packet that the IPv6 call refused, and the message.
#![tactic(auto)]

ghost use Rattle.std.specs.Prelude.{◌≡◌, true, ◌/◌, ◌%◌, length};
ghost use Rattle.rules.specs.Ipv6 as Ipv6;
ghost use Rattle.rules.specs.Sound.{sound};
ghost use Rattle.rules.specs.Match.{match_entry};
ghost use Rattle.rules.specs.Answer.{given, any, packed, Refused, settle};
ghost use Rattle.rules.specs.Calls.{translate6};
ghost use Rattle.answer.specs.Answered.{Settled, Packs};
ghost use Rattle.report.specs.Report.{is_unspecified, has_type, is_error_or_redirect, none_due, report_of, icmp6};

use answer::Answer;
use rules::{Refusal, assigned};

// The answers that a message is due about.
const FIRST: u8 = 6;

const LAST: u8 = 8;

// Where the addresses stand in an IPv6 header.
const SOURCE_AT: usize = 8;

const DESTINATION_AT: usize = 24;

// The first octet of a multicast address.
const MULTICAST: u8 = 0xff;

// Below this, types are those of error messages.
const INFORMATIONAL: u8 = 128;

fn is_unspecified(address: [u8; 16]) -> bool
    ensures { result ≡ is_unspecified address }
{
    u128::from_be_bytes(address) == 0
}

// The packet is an ICMPv6 error message or a Redirect, where this stands at the beginning of its upper layer.
fn is_error_or_redirect(h: rules::Header, kind: u8) -> bool
    ensures { result ≡ any (given (has_type h) (is_error_or_redirect kind)) }
{
    ((h.upper == assigned::ICMPV6_PROTOCOL) & ((h.upperAt as usize) < h.size))
        & ((kind < INFORMATIONAL) | (kind == assigned::REDIRECT))
}

// Row 23, of a packet that the IPv6 call answers with this number.
fn none_due(answered: u8, packet: &[u8]) -> bool
    ensures { result ≡ any (none_due answered packet.now) }
{
    let h = ip::header_of(octets::window::<48>(packet, 0), packet.len());
    let kind = octets::octet_or_0(packet, h.upperAt as usize);
    let source = octets::window::<16>(packet, SOURCE_AT);
    (answered < FIRST)
        | ((LAST < answered)
            | ((source[0] == MULTICAST)
                | (is_unspecified(source)
                    | ((octets::octet_or_0(packet, DESTINATION_AT) == MULTICAST)
                        | is_error_or_redirect(h, kind)))))
}

// What the IPv6 call decides of a packet: it is made with an output of no octets, in which nothing can be written.
fn decided(packet: &[u8], table: &[u8]) -> u64
    requires { sound table.now ≡ true }
    ensures { result ≡ packed (translate6 packet.now table.now 0) }
{
    let mut nothing = [0u8; 0];
    gateway::packed_ipv6_sound(packet, table, &mut nothing)
}

// Number and ICMP fields of an answer.
fn refusal_in(answer: u64) -> Refusal
    ensures { result ≡ record {
      number = answer % 0x100;
      icmpType = answer / 0x100 % 0x100;
      icmpCode = answer / 0x10000 % 0x100;
      pointer = answer / 0x1000000 % 0x10000;
    } }
{
    let fields = answer.to_le_bytes();
    Refusal {
        number: fields[0],
        icmpType: fields[1],
        icmpCode: fields[2],
        pointer: u16::from_le_bytes([fields[3], fields[4]]),
    }
}

// About a packet that was refused with r: row 23, then the message from the entry that is the longest match.
fn about(r: Refusal, packet: &[u8], table: &[u8], out: &mut [u8]) -> Result<usize, Refusal>
    requires { sound table.now ≡ true }
    ensures { Settled (settle (length out.old) (report_of table.now packet.now
        (match_entry table.now (Ipv6.destination packet.now)) (Refused r))) out.old result out.new }
{
    if none_due(r.number, packet) {
        return Err(Refusal::none_due());
    }
    let destination = octets::window::<16>(packet, DESTINATION_AT);
    let Some(i) = matching::find_entry(table, &destination) else {
        return Err(Refusal::none_due());
    };
    icmp::send(records::entry_at(table, i), r, packet, out)
}

// The ICMPv6 message about an IPv6 packet, answered in one number.
pub fn icmp_ipv6(packet: &[u8], table: &[u8], out: &mut [u8]) -> u64
    ensures { Packs (icmp6 packet.now table.now (length out.old)) out.old result
        out.new }
{
    if !table::sound(table) {
        return Answer::refused(Refusal::none_due()).pack();
    }
    let r = refusal_in(decided(packet, table));
    Answer::from(about(r, packet, table, out)).pack()
}
