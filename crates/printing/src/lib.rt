// What the programs print with: text, numbers, bytes in hexadecimal and the schedules' names, to standard output. A write that fails
// is answered as an error.
#![tactic(auto)]

ghost use Rattle.std.specs.Prelude.{◌≡◌, ◌<◌};
ghost use Rattle.printing.specs.Hex.{digit_of, digits_of};
ghost use Rattle.printing.specs.Names.{name_of};

use std::io;

// Bytes that need not be text; who has text writes `print!`.
pub fn print(rt: &impl Print, text: &[u8]) -> io::Result<()> {
    rt.write_all(text)
}

// A number by itself: the test programs print a refusal's number and a tally so, and other numbers within a format.
pub fn print_number(rt: &impl Print, n: u32) -> io::Result<()> {
    rt.print(n)
}

// By hand, since the clause says which byte it is, and `digits` is for who compares them.
fn digit(n: u8) -> u8
    requires { n < 16 }
    ensures { result ≡ digit_of n }
{
    if n < 10 { b'0' + n } else { b'a' + (n - 10) }
}

// The two hexadecimal digits of a byte.
pub fn digits(byte: u8) -> [u8; 2]
    ensures { result ≡ digits_of byte }
{
    [digit(byte / 16), digit(byte % 16)]
}

pub fn print_hex(rt: &impl Print, bytes: &[u8]) -> io::Result<()> {
    for byte in bytes {
        print(rt, &digits(*byte))?;
    }
    Ok(())
}

// The name of schedule 0, 1, 2 or 3, by its number, as calls and records have it.
pub fn schedule_name(schedule: u32) -> &'static [u8]
    ensures { result.now ≡ name_of schedule }
{
    match schedule {
        0 => b"rushing",
        1 => b"speed-1",
        2 => b"speed-2",
        _ => b"optimal",
    }
}

pub fn print_schedule(rt: &impl Print, schedule: u32) -> io::Result<()> {
    print(rt, schedule_name(schedule))
}
