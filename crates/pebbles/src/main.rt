// The listing program: reads a line from standard input and prints what `listing` makes of it. It answers as soon as the bytes that came
// decide, so that a line's LF gets its listing at once, on a terminal or a pipe that stays open.
#![tactic(auto)]

ghost use Rattle.std.specs.Io.{ReadsAtMost};

use std::io;
use std::io::{ErrorKind, Read};

// Reads once. A read that a signal broke off before any byte came is tried again; a proved loop has to end, so the tries are counted, up
// to a number that no run reaches.
fn read_some(from: &mut impl Read, room: &mut [u8]) -> io::Result<usize>
    ensures { ReadsAtMost result room.new }
{
    for _ in 0..u64::MAX {
        match from.read(room) {
            Err(e) if e.kind() == ErrorKind::Interrupted => {}
            read => return read,
        }
    }
    Err(io::Error::from(ErrorKind::Interrupted))
}

// Reads, a piece at a time, until the bytes decide or the input ends, and answers how many came. A read may bring any number of bytes from
// one up; one that fails is not the end of the input. Where the room is full there are `ENOUGH` bytes, which decide.
fn read_line(from: &mut impl Read, input: &mut [u8]) -> io::Result<usize>
    ensures { ReadsAtMost result input.new }
{
    let mut count = 0;
    while !listing::decides(&input[..count]) {
        let more = read_some(from, &mut input[count..])?;
        if more == 0 {
            break;
        }
        count += more;
    }
    Ok(count)
}

fn main(rt: HostRuntime) {
    // Arrays with room for the most, since the program asks for no memory.
    let mut input = [0u8; listing::ENOUGH];
    let count = match read_line(&mut rt.stdin(), &mut input) {
        Ok(count) => count,
        Err(e) => {
            let _ = eprintln!(rt; "pebbles: standard input could not be read: {e}");
            let _ = eprintln!(rt;
                "Give it a line from a terminal, a pipe or a file, as in: echo optimal 2 | pebbles"
            );
            return;
        }
    };
    let mut text = [0u8; 262144];
    let n = listing::listing(&input[..count], &mut text);
    if let Err(e) = rt.write_all(&text[..n]) {
        let _ = eprintln!(rt; "pebbles: the listing could not be written to standard output: {e}");
    }
}
