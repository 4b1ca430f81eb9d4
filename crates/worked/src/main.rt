// Reads calls from standard input, makes each, and prints its name and what came of it: the answer's fields and the octets sent, also of an
// ICMPv6 message, TEID and sequence number of the packet, or of a burst its answer, the places for answers and the octets sent. The second
// program writes the input and what is to be printed (tests/second/src/program.rs, which says how a call stands there).
#![tactic(auto)]

ghost use Rattle.std.specs.Prelude.{◌≤◌, length};

use answer::Answer;
use serving::{Ipv4, Ipv6};
use std::fmt;
use std::io::{self, ErrorKind, Read};

// A table length that says: the table of the call before.
const SAME_TABLE: u16 = 0xffff;

// What stands in the places for answers before a burst.
const BEFORE: u64 = 0xffffffffffffffff;

// Which function is called.
#[derive(Clone, Copy, Debug, PartialEq, Eq)]
enum Function {
    TranslateIpv6,
    TranslateIpv4,
    SequenceIpv6,
    SequenceIpv4,
    BurstIpv6,
    BurstIpv4,
    IcmpIpv6,
}

// Every other number is the IPv6 call.
impl From<u8> for Function {
    fn from(number: u8) -> Function {
        match number {
            4 => Function::TranslateIpv4,
            0x86 => Function::SequenceIpv6,
            0x84 => Function::SequenceIpv4,
            0x46 => Function::BurstIpv6,
            0x44 => Function::BurstIpv4,
            0x26 => Function::IcmpIpv6,
            _ => Function::TranslateIpv6,
        }
    }
}

// What stands before a call's octets: the function, and how many octets of each. With no table it is that of the call before.
#[derive(Clone, Copy)]
struct Head {
    name: usize,
    function: Function,
    table: Option<usize>,
    packet: usize,
    room: usize,
}

impl From<[u8; 12]> for Head {
    fn from(h: [u8; 12]) -> Head {
        let table = u16::from_be_bytes([h[2], h[3]]);
        Head {
            name: usize::from(h[0]),
            function: Function::from(h[1]),
            table: (table != SAME_TABLE).then_some(usize::from(table)),
            packet: u32::from_be_bytes([h[4], h[5], h[6], h[7]]) as usize,
            room: u32::from_be_bytes([h[8], h[9], h[10], h[11]]) as usize,
        }
    }
}

// The length, or 0 where the buffer is shorter.
fn within<T>(n: usize, buf: &[T]) -> usize
    ensures { result ≤ length buf.now }
{
    if n <= buf.len() { n } else { 0 }
}

// So many octets of an output, in hexadecimal digits.
#[derive(Clone, Copy)]
struct Sent<'a> {
    out: &'a [u8],
    size: usize,
}

impl fmt::Display for Sent<'_> {
    fn fmt<W: fmt::Write>(&self, f: &mut fmt::Formatter<W>) -> fmt::Result {
        for x in self.out.iter().take(self.size) {
            write!(f, "{x:02x}")?;
        }
        Ok(())
    }
}

// The fields of an answer in one number.
fn unpacked(answer: u64) -> Answer {
    let b = answer.to_le_bytes();
    Answer {
        number: b[0],
        icmpType: b[1],
        icmpCode: b[2],
        pointer: u16::from_le_bytes([b[3], b[4]]),
        size: burst::size_of(answer),
    }
}

// Length i, of 255 at most, which stand from octet 2 of the packet on.
fn length_at(packet: &[u8], i: usize) -> u32 {
    u32::from_be_bytes(octets::window::<4>(packet, 2 + 4 * (i % 256)))
}

// A call: what it is given, and its output.
#[derive(Drop)]
struct Call<'i, 'o> {
    function: Function,
    name: &'i [u8],
    table: &'i [u8],
    packet: &'i [u8],
    out: &'o mut [u8],
}

impl Call<'_, '_> {
    fn print_name(&self, rt: &impl Print) -> io::Result<()> {
        rt.write_all(self.name)?;
        print!(rt; ": ")
    }

    fn print_answer(&self, rt: &impl Print, a: Answer) -> io::Result<()> {
        self.print_name(rt)?;
        print!(rt;
            "{} {} {} {} {} ",
            a.number, a.icmpType, a.icmpCode, a.pointer, a.size
        )?;
        if a.size == 0 {
            print!(rt; "-")?;
        }
        let sent = Sent {
            out: self.out,
            size: a.size,
        };
        println!(rt; "{sent}")
    }

    // TEID and sequence number that a reader found; - where there are none.
    fn print_sequence(&self, rt: &impl Print, found: u64) -> io::Result<()> {
        self.print_name(rt)?;
        if found == 0 {
            return println!(rt; "-");
        }
        let teid = found / 0x10000 % 0x100000000;
        let number = found % 0x10000;
        println!(rt; "{teid:08x} {number}")
    }

    // The octets of the packet begin with the number of lengths and that of places for answers, then the lengths.
    fn burst<C: serving::Call>(&mut self, rt: &impl Print) -> io::Result<()> {
        let mut length_space = [0u32; 255];
        let mut answer_space = [BEFORE; 255];
        let count = within(
            usize::from(octets::octet_or_0(self.packet, 0)),
            &length_space,
        );
        let places = within(
            usize::from(octets::octet_or_0(self.packet, 1)),
            &answer_space,
        );
        let lengths = &mut length_space[..count];
        let answers = &mut answer_space[..places];
        for (i, n) in lengths.iter_mut().enumerate() {
            *n = length_at(self.packet, i);
        }
        let at = within(2 + 4 * count, self.packet);
        let answer = serving::burst::<C>(
            &self.packet[at..],
            lengths,
            self.table,
            self.out,
            answers,
        );
        self.print_name(rt)?;
        print!(rt; "{answer:016x} ")?;
        for answer in answers.iter() {
            print!(rt; "{answer:016x} ")?;
        }
        let sent = Sent {
            out: self.out,
            size: burst::size_of(answer),
        };
        println!(rt; "{sent}")
    }

    fn make(&mut self, rt: &impl Print) -> io::Result<()> {
        match self.function {
            Function::TranslateIpv6 => {
                let a = gateway::translate_ipv6(self.packet, self.table, self.out);
                self.print_answer(rt, a)
            }
            Function::TranslateIpv4 => {
                let a = gateway::translate_ipv4(self.packet, self.table, self.out);
                self.print_answer(rt, a)
            }
            Function::SequenceIpv6 => {
                self.print_sequence(rt, sequence::sequence_ipv6(self.packet))
            }
            Function::SequenceIpv4 => {
                self.print_sequence(rt, sequence::sequence_ipv4(self.packet))
            }
            Function::BurstIpv6 => self.burst::<Ipv6>(rt),
            Function::BurstIpv4 => self.burst::<Ipv4>(rt),
            Function::IcmpIpv6 => {
                let a = unpacked(report::icmp_ipv6(self.packet, self.table, self.out));
                self.print_answer(rt, a)
            }
        }
    }
}

// Reads so many octets to the front of the buffer, or none where it is shorter.
fn fill(input: &mut impl Read, n: usize, buf: &mut [u8]) -> io::Result<()> {
    let n = within(n, buf);
    input.read_exact(&mut buf[..n])
}

// Reads the octets of one call; `UnexpectedEof` says that the input ends.
fn read(
    input: &mut impl Read,
    name: &mut [u8],
    table: &mut [u8],
    packet: &mut [u8],
) -> io::Result<Head> {
    let mut octets = [0u8; 12];
    input.read_exact(&mut octets)?;
    let head = Head::from(octets);
    fill(input, head.name, name)?;
    if let Some(size) = head.table {
        fill(input, size, table)?;
    }
    fill(input, head.packet, packet)?;
    Ok(head)
}

// A proved loop has to end: so many calls at most. An `Err` says that standard input cannot be read, or standard output not written.
fn main(rt: HostRuntime) -> io::Result<()> {
    let mut name = [0u8; 255];
    let mut table = [0u8; 12000];
    let mut packet = [0u8; 70000];
    let mut out = [0u8; 70000];
    let mut input = rt.stdin();
    let mut size = 0;
    for _ in 0..u32::MAX {
        let head = match read(&mut input, &mut name, &mut table, &mut packet) {
            Ok(head) => head,
            Err(error) if error.kind() == ErrorKind::UnexpectedEof => break,
            Err(error) => return Err(error),
        };
        size = head.table.unwrap_or(size);
        let room = within(head.room, &out);
        let mut call = Call {
            function: head.function,
            name: &name[..within(head.name, &name)],
            table: &table[..within(size, &table)],
            packet: &packet[..within(head.packet, &packet)],
            out: &mut out[..room],
        };
        call.make(&rt)?;
    }
    Ok(())
}
