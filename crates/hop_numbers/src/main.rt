// Document 01's numbers that are run and compared, and not proved one by one: the square at rest; all 780 links of 40 up, nothing delivered; a line of 40 to rest.
// What changes the state or prints at each turn is a loop: of what a closure has changed a proof knows nothing after `for_each`.
#![tactic(auto)]

ghost use Rattle.std.specs.Prelude.{◌<◌};

use hop_rule::Refused;
use std::{fmt, io};

// A refusal shows as its number behind a minus sign.
#[derive(Drop)]
struct Minus(Refused);

impl fmt::Display for Minus {
    fn fmt<W: fmt::Write>(&self, f: &mut fmt::Formatter<W>) -> fmt::Result {
        let number = u32::from(self.0);
        write!(f, "-{number}")
    }
}

fn print_answer(rt: &impl Print, a: Result<u32, Refused>, ends: &str) -> io::Result<()> {
    match a {
        Ok(x) => print!(rt; "{x}{ends}"),
        Err(r) => print!(rt; "{}{ends}", Minus(r)),
    }
}

// Two numbers, each in a write of its own.
fn print_two(rt: &impl Print, x: u32, y: u32, ends: &str) -> io::Result<()> {
    print!(rt; "{x} ")?;
    print!(rt; "{y}{ends}")
}

// The passes made and the entries delivered.
fn print_run(rt: &impl Print, s: &mut [u8]) -> io::Result<()> {
    match hop_core::run(s, 255) {
        Ok(ran) => print_two(rt, ran.passes, ran.deliveries, "\n"),
        Err(r) => println!(rt; "{}", Minus(r)),
    }
}

// The hops and the neighbour to send through.
fn print_route(rt: &impl Print, s: &[u8], u: usize, v: usize, ends: &str) -> io::Result<()> {
    match hop_ask::route(s, u, v) {
        Ok(way) => print_two(rt, u32::from(way.distance), u32::from(way.downstream), ends),
        Err(r) => print!(rt; "{}{ends}", Minus(r)),
    }
}

fn link_two(s: &mut [u8], a: usize, b: usize, c: usize) {
    let _ = hop_core::up(s, a, b);
    let _ = hop_core::up(s, a, c);
}

// 0-1, 0-2, 3-1, 3-2.
fn link_square(s: &mut [u8]) {
    let _ = hop_core::make(s, 4);
    link_two(s, 0, 1, 2);
    link_two(s, 3, 1, 2);
}

// At rest 0 reaches 3 in 2, downstream 1.
fn square(rt: &impl Print, s: &mut [u8]) -> io::Result<()> {
    link_square(s);
    print_run(rt, s)?;
    print_route(rt, s, 0, 3, "\n")
}

// a is linked to each higher number below 40.
fn link_above(s: &mut [u8], a: usize)
    requires { a < 40 }
{
    for b in a + 1..40 {
        let _ = hop_core::up(s, a, b);
    }
}

// All 780 links of 40.
fn link_all(s: &mut [u8]) {
    for a in 0..40 {
        link_above(s, a);
    }
}

// The 39 links of a line.
fn link_line(s: &mut [u8]) {
    for a in 0..39 {
        let _ = hop_core::up(s, a, a + 1);
    }
}

// The status record of node u, byte by byte.
fn print_status(rt: &impl Print, s: &[u8], u: usize) -> io::Result<()> {
    let mut out = [0u8; 14];
    print_answer(rt, hop_ask::status(s, u, &mut out), " ")?;
    for x in &out[..13] {
        print!(rt; "{x} ")?;
    }
    println!(rt; "{}", out[13])
}

fn print_statuses(rt: &impl Print, s: &[u8]) -> io::Result<()> {
    for u in 0..40 {
        print_status(rt, s, u)?;
    }
    Ok(())
}

// Nothing is delivered: 62,400 wait, 1,560 for each node.
fn full(rt: &impl Print, s: &mut [u8]) -> io::Result<()> {
    let _ = hop_core::make(s, 40);
    link_all(s);
    print_answer(rt, hop_ask::total_queued(s), "\n")?;
    print_statuses(rt, s)
}

// A line of 40 to rest: its ends are 39 hops apart.
fn line(rt: &impl Print, s: &mut [u8]) -> io::Result<()> {
    let _ = hop_core::make(s, 40);
    link_line(s);
    print_run(rt, s)?;
    print_route(rt, s, 0, 39, " ")?;
    print_route(rt, s, 39, 0, "\n")
}

fn main(rt: HostRuntime) -> io::Result<()> {
    let mut s = [0u8; 198401];
    square(&rt, &mut s)?;
    full(&rt, &mut s)?;
    line(&rt, &mut s)
}
