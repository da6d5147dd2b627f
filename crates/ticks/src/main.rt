// A card of 2^4 ticks, run to its end under every schedule and with both functions. Each tick is printed beside the chain's
// element of that number, worked out straight from the seed.
#![tactic(auto)]

use card::Outcome;
use oneway::Chain;
use printing::{print_hex, print_number, print_schedule};
use std::io;

const SEED: [u8; 16] = *b"perchmellow seed";

// The chain's element n, worked out straight from the seed.
fn element(function: u32, n: u32) -> [u8; 16] {
    let chain = Chain { function };
    let mut value = SEED;
    if oneway::known(function) && oneway::width(chain) == value.len() {
        records::walk(chain, n, &mut value);
    }
    value
}

// One round of the card, and a line where it puts out a tick. Answers its hashes.
fn run_round(
    rt: &impl Print,
    function: u32,
    record: &mut [u8],
    out: &mut [u8; 16],
) -> io::Result<u32> {
    match card::round(record, out) {
        Ok(Outcome::Quiet { hashes }) => Ok(hashes),
        Ok(Outcome::Tick { position, hashes }) => {
            let own = element(function, position);
            print!(rt; "{position} ")?;
            print_hex(rt, out)?;
            print!(rt; " ")?;
            print_hex(rt, &own)?;
            println!(rt)?;
            Ok(hashes)
        }
        Err(refusal) => {
            print!(rt; "refused ")?;
            print_number(rt, refusals::number(refusal))?;
            println!(rt)?;
            Ok(0)
        }
    }
}

// The 31 rounds of the card, and one more, which is refused. Answers all hashes.
fn run_rounds(
    rt: &impl Print,
    function: u32,
    record: &mut [u8],
    out: &mut [u8; 16],
) -> io::Result<u32> {
    let mut total: u32 = 0;
    for _ in 0..32 {
        let hashes = run_round(rt, function, record, out)?;
        total = total.wrapping_add(hashes);
    }
    Ok(total)
}

// Function and schedule are the numbers that the calls take.
fn run_card(rt: &impl Print, function: u32, schedule: u32) -> io::Result<()> {
    print!(rt; "function {function}, ")?;
    print_schedule(rt, schedule)?;
    println!(rt)?;
    let mut record = [0u8; 112];
    let mut out = [0u8; 16];
    let _ = card::start(function, 4, schedule, &SEED, &mut record);
    let total = run_rounds(rt, function, &mut record, &mut out)?;
    println!(rt; "hashes {total}")
}

fn run_schedules(rt: &impl Print, function: u32) -> io::Result<()> {
    for schedule in 0..4 {
        run_card(rt, function, schedule)?;
    }
    Ok(())
}

fn main(rt: HostRuntime) -> io::Result<()> {
    run_schedules(&rt, 0)?;
    run_schedules(&rt, 1)
}
