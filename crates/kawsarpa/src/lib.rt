// The functions that C calls (include/kawsarpa.h). What each answers and leaves in the output is said for every packet, every table
// and every length of the output.
#![tactic(auto)]

ghost use Rattle.std.specs.Prelude.{◌≡◌, length};
ghost use Rattle.rules.specs.Answer.{packed, overlay};
ghost use Rattle.rules.specs.Calls.{translate6, translate4};
ghost use Rattle.rules.specs.Trip.{v6, v4};
ghost use Rattle.rules.specs.Fault.{fault};
ghost use Rattle.burst.specs.Burst.{burst, answered};
ghost use Rattle.loss.specs.Loss.{offer};
ghost use Rattle.sequence.specs.Sequence.{sequence6, sequence4};
ghost use Rattle.pair.specs.Mismatch.{mismatch6, mismatch4, mismatch_waypoint};
ghost use Rattle.report.specs.Report.{icmp6};

use serving::{Ipv4, Ipv6};

// The IPv6 call.
#[unsafe(no_mangle)]
pub extern "C" fn kawsarpa_translate_ipv6(packet: &[u8], table: &[u8], out: &mut [u8]) -> u64
    ensures { (result ≡ packed (translate6 packet.now table.now (length out.old)))
        × (out.new ≡ overlay (translate6 packet.now table.now (length out.old)) out.old) }
{
    gateway::packed_ipv6(packet, table, out)
}

// The IPv4 call.
#[unsafe(no_mangle)]
pub extern "C" fn kawsarpa_translate_ipv4(packet: &[u8], table: &[u8], out: &mut [u8]) -> u64
    ensures { (result ≡ packed (translate4 packet.now table.now (length out.old)))
        × (out.new ≡ overlay (translate4 packet.now table.now (length out.old)) out.old) }
{
    gateway::packed_ipv4(packet, table, out)
}

// The IPv6 call, for a box that is only a waypoint.
#[unsafe(no_mangle)]
pub extern "C" fn kawsarpa_waypoint(packet: &[u8], table: &[u8], out: &mut [u8]) -> u64
    ensures { (result ≡ packed (translate6 packet.now table.now (length out.old)))
        × (out.new ≡ overlay (translate6 packet.now table.now (length out.old)) out.old) }
{
    kawsarpa_translate_ipv6(packet, table, out)
}

// The ICMPv6 message about a packet that the IPv6 call answers 6, 7 or 8.
#[unsafe(no_mangle)]
pub extern "C" fn kawsarpa_icmp_ipv6(packet: &[u8], table: &[u8], out: &mut [u8]) -> u64
    ensures { (result ≡ packed (icmp6 packet.now table.now (length out.old)))
        × (out.new ≡ overlay (icmp6 packet.now table.now (length out.old)) out.old) }
{
    report::icmp_ipv6(packet, table, out)
}

// A burst of IPv6 packets, and of IPv4 packets, which lie one after the other with their lengths.
#[unsafe(no_mangle)]
pub extern "C" fn kawsarpa_burst_ipv6(
    packets: &[u8],
    lengths: &[u32],
    table: &[u8],
    out: &mut [u8],
    answers: &mut [u64],
) -> u64
    ensures { (result ≡ packed (burst v6 lengths.now packets.now table.now (length out.old)
        (length answers.old)))
        × (out.new ≡ overlay (burst v6 lengths.now packets.now table.now
        (length out.old) (length answers.old)) out.old)
        × (answers.new ≡ answered v6 lengths.now packets.now table.now (length out.old)
        answers.old) }
{
    serving::burst::<Ipv6>(packets, lengths, table, out, answers)
}

#[unsafe(no_mangle)]
pub extern "C" fn kawsarpa_burst_ipv4(
    packets: &[u8],
    lengths: &[u32],
    table: &[u8],
    out: &mut [u8],
    answers: &mut [u64],
) -> u64
    ensures { (result ≡ packed (burst v4 lengths.now packets.now table.now (length out.old)
        (length answers.old)))
        × (out.new ≡ overlay (burst v4 lengths.now packets.now table.now
        (length out.old) (length answers.old)) out.old)
        × (answers.new ≡ answered v4 lengths.now packets.now table.now (length out.old)
        answers.old) }
{
    serving::burst::<Ipv4>(packets, lengths, table, out, answers)
}

// The first condition of soundness that a table breaks; 0 exactly when the table is sound.
#[unsafe(no_mangle)]
pub extern "C" fn kawsarpa_table_fault(table: &[u8]) -> u64
    ensures { result ≡ fault table.now }
{
    table::fault(table)
}

// Whether the entry, and the rule, of this index in a near table fits a far table, and whether a table fits a waypoint's SID: 0 exactly
// when they fit, else the first condition that fails.
#[unsafe(no_mangle)]
pub extern "C" fn kawsarpa_match_ipv6(near: &[u8], index: usize, far: &[u8]) -> u64
    ensures { result ≡ mismatch6 near.now far.now index }
{
    pair::mismatch6(near, far, index)
}

#[unsafe(no_mangle)]
pub extern "C" fn kawsarpa_match_ipv4(near: &[u8], index: usize, far: &[u8]) -> u64
    ensures { result ≡ mismatch4 near.now far.now index }
{
    pair::mismatch4(near, far, index)
}

#[unsafe(no_mangle)]
pub extern "C" fn kawsarpa_match_waypoint(table: &[u8], sid: &[u8]) -> u64
    ensures { result ≡ mismatch_waypoint table.now sid.now }
{
    pair::mismatch_waypoint(table, sid)
}

// An offer of a sequence number to the rows, of which one is changed at most.
#[unsafe(no_mangle)]
pub extern "C" fn kawsarpa_loss_offer(rows: &mut [loss::Row], teid: u32, number: u16) -> u64
    ensures { (result, rows.new) ≡ offer rows.old teid number }
{
    loss::offer(rows, teid, number)
}

// TEID and sequence number of an IPv6 packet, and of an IPv4 packet, that is a well-formed G-PDU with S; else 0.
#[unsafe(no_mangle)]
pub extern "C" fn kawsarpa_sequence_ipv6(packet: &[u8]) -> u64
    ensures { result ≡ sequence6 packet.now }
{
    sequence::sequence_ipv6(packet)
}

#[unsafe(no_mangle)]
pub extern "C" fn kawsarpa_sequence_ipv4(packet: &[u8]) -> u64
    ensures { result ≡ sequence4 packet.now }
{
    sequence::sequence_ipv4(packet)
}
