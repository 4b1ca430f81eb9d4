// Reads at most 65,536 octets from standard input, makes the IPv6 call with an empty table, prints number, space, length, newline.
#![tactic(auto)]

ghost use Rattle.std.specs.Prelude.{◌≤◌, length, IfOk};

use std::io::{self, Read};

// Format 1, and no entry, rule or policy.
const EMPTY: [u8; 16] = [1, 0, 0, 0, 0, 0, 0, 0, 0, 0, 0, 0, 0, 0, 0, 0];

// Reads until the buffer is full or the input ends: how many octets were read.
fn read_full(input: &mut impl Read, buf: &mut [u8]) -> io::Result<usize>
    ensures { IfOk result (λ n. n ≤ length buf.new) }
{
    let mut done = 0;
    for _ in 0..buf.len() {
        let n = input.read(&mut buf[done..])?;
        if n == 0 {
            break;
        }
        done += n;
    }
    Ok(done)
}

fn print_answer(rt: &impl Print, a: answer::Answer) -> io::Result<()> {
    println!(rt; "{} {}", a.number, a.size)
}

// An `Err` says that standard input cannot be read, or standard output not written.
fn main(rt: HostRuntime) -> io::Result<()> {
    let mut packet = [0u8; 65536];
    let n = read_full(&mut rt.stdin(), &mut packet)?;
    let mut out = [0u8; 65536];
    let a = gateway::translate_ipv6(&packet[..n], &EMPTY, &mut out);
    print_answer(&rt, a)
}
