// Offers to a post on both sides of its edges, over the chain of function 0 from the seed 00 01 .. 0f, with k = 8. Each line says
// what was offered and, behind the colon, what the counter says: a refusal's number alone, or 0 and the ticks credited.
#![tactic(auto)]

ghost use Rattle.std.specs.Prelude.{◌≡◌, length};

use oneway::Chain;
use printing::{print_hex, print_number};
use refusals::Refusal;
use std::io;

const K: u32 = 8;

// x_n: the seed is x_0, and each element is the step from the one before.
fn element(n: u32) -> [u8; 16]
    ensures { 16 ≡ length result }
{
    let chain = Chain { function: 0 };
    let w = oneway::width(chain);
    let mut value = *b"\x00\x01\x02\x03\x04\x05\x06\x07\x08\x09\x0a\x0b\x0c\x0d\x0e\x0f";
    records::walk(chain, n, &mut value[..w]);
    value
}

fn refused(rt: &impl Print, refusal: Refusal) -> io::Result<()> {
    print_number(rt, refusals::number(refusal))?;
    println!(rt)
}

// One offer of bytes with a gap limit, and what is said.
fn say(rt: &impl Print, post: &mut [u8], value: &[u8], gap: u32) -> io::Result<()> {
    print!(rt; ", G = {gap}: ")?;
    match post::offer(post, value, gap) {
        Err(refusal) => refused(rt, refusal),
        Ok(ticks) => println!(rt; "0 {ticks}"),
    }
}

// The same for x_n.
fn tick(rt: &impl Print, post: &mut [u8], n: u32, gap: u32) -> io::Result<()> {
    print!(rt; "x_{n}")?;
    say(rt, post, &element(n), gap)
}

fn enrol(rt: &impl Print, post: &mut [u8]) -> io::Result<()> {
    let anchor = element(256);
    print!(rt; "anchor ")?;
    print_hex(rt, &anchor)?;
    print!(rt; "\nenrol: ")?;
    match post::enrol(0, K, &anchor, post) {
        Err(refusal) => refused(rt, refusal),
        Ok(()) => println!(rt; "0"),
    }
}

// Whether x_n stands for so many ticks paid.
fn settle(rt: &impl Print, n: u32, paid: u32) -> io::Result<()> {
    print!(rt; "settle x_{n} for {paid}: ")?;
    match post::settle(0, K, &element(256), &element(n), paid) {
        Err(refusal) => refused(rt, refusal),
        Ok(true) => println!(rt; "0 1"),
        Ok(false) => println!(rt; "0 0"),
    }
}

// Whether x_n is credited exactly 1 with G = 1.
fn credited_one(post: &mut [u8], n: u32) -> bool {
    post::offer(post, &element(n), 1) == Ok(1)
}

// Offers the ticks below x_n in order, down to x_0, and says how many are credited exactly 1.
fn rest(rt: &impl Print, post: &mut [u8], n: u32) -> io::Result<()> {
    let mut ones: u32 = 0;
    for below in (0..n).rev() {
        if credited_one(post, below) {
            ones += 1;
        }
    }
    println!(rt; "the ticks below x_{n}, G = 1: {ones} credited 1")
}

fn print_record(rt: &impl Print, post: &[u8]) -> io::Result<()> {
    print!(rt; "record ")?;
    print_hex(rt, post)?;
    println!(rt)
}

fn main(rt: HostRuntime) -> io::Result<()> {
    let mut post = [0u8; 40];
    enrol(&rt, &mut post)?;
    print_record(&rt, &post)?;
    tick(&rt, &mut post, 255, 0)?;
    tick(&rt, &mut post, 255, 65)?;
    tick(&rt, &mut post, 255, 1)?;
    tick(&rt, &mut post, 254, 64)?;
    println!(rt; "one tick missed")?;
    tick(&rt, &mut post, 252, 1)?;
    tick(&rt, &mut post, 252, 2)?;
    println!(rt; "63 ticks missed")?;
    tick(&rt, &mut post, 188, 64)?;
    println!(rt; "64 ticks missed")?;
    tick(&rt, &mut post, 123, 64)?;
    println!(rt; "the value held, again")?;
    tick(&rt, &mut post, 188, 64)?;
    print!(rt; "15 bytes")?;
    say(&rt, &mut post, b"fifteen bytes..", 64)?;
    print!(rt; "17 bytes")?;
    say(&rt, &mut post, b"seventeen bytes..", 64)?;
    settle(&rt, 188, 68)?;
    settle(&rt, 188, 67)?;
    rest(&rt, &mut post, 188)?;
    print_record(&rt, &post)?;
    tick(&rt, &mut post, 0, 1)?;
    tick(&rt, &mut post, 0, 65)?;
    settle(&rt, 0, 256)?;
    settle(&rt, 0, 257)
}
