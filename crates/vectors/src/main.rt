// The published examples, run on the two block functions: RFC 1321's test suite and FIPS 197's AES-128 encryptions.
// For each: what went in, what came out, and what the document says.
#![tactic(auto)]

ghost use Rattle.std.specs.Prelude.{◌<◌, ◌≤◌, length};

use printing::{print, print_hex, print_number};
use std::io;

// How many examples agreed, of how many.
#[derive(Clone, Copy, Debug, PartialEq, Eq, Default)]
struct Tally {
    agreed: u32,
    run: u32,
}

impl Tally {
    fn count(&mut self, agrees: bool) {
        self.run = self.run.saturating_add(1);
        if agrees {
            self.agreed = self.agreed.saturating_add(1);
        }
    }
}

// Whether the bytes are those that the document's digits say.
fn same(bytes: [u8; 16], says: &[u8; 32]) -> bool {
    bytes
        .iter()
        .zip(says.chunks_exact(2))
        .all(|(byte, two)| printing::digits(*byte).as_slice() == two)
}

// The two lines below an example, and whether they are the same.
fn compare(
    rt: &impl Print,
    tally: &mut Tally,
    came_out: [u8; 16],
    document: &str,
    says: &[u8; 32],
) -> io::Result<()> {
    print!(rt; "  came out  ")?;
    print_hex(rt, &came_out)?;
    print!(rt; "\n  {document}  ")?;
    print(rt, says)?;
    let agrees = same(came_out, says);
    tally.count(agrees);
    if agrees {
        println!(rt)
    } else {
        println!(rt; "  DIFFERS")
    }
}

// Padding, the first state and a state's bytes are worked out here: the examples try the block functions without what `oneway` puts round
// them. A message of up to 119 bytes is as long as two blocks take, and each function says so of its own.

// How long a message of n bytes is once it is padded.
fn padded_length(n: usize) -> usize
    ensures { (64 ≤ result) × (result ≤ 128) }
{
    if n < 56 { 64 } else { 128 }
}

// A message of up to 119 bytes, padded to one block or two (RFC 1321, sections 3.1 and 3.2).
fn padded(message: &[u8]) -> [u8; 128]
    requires { length message.now < 120 }
{
    let mut m = [0u8; 128];
    let n = message.len();
    m[..n].copy_from_slice(message);
    m[n] = 0x80;
    let end = padded_length(n);
    let bits = 8 * n;
    m[end - 8..end].copy_from_slice(&bits.to_le_bytes());
    m
}

fn bytes_of(state: [u32; 4]) -> [u8; 16] {
    let mut bytes = [0u8; 16];
    for (word, place) in state.iter().zip(bytes.chunks_exact_mut(4)) {
        place.copy_from_slice(&word.to_le_bytes());
    }
    bytes
}

// The block that begins at `from`.
fn block_at(m: &[u8; 128], from: usize) -> &[u8; 64]
    requires { from ≤ 64 }
{
    m[from..from + 64].first_chunk().unwrap()
}

// MD5 of a message of one block or two: the second goes on from the state after the first.
fn md5_of(message: &[u8]) -> [u8; 16]
    requires { length message.now < 120 }
{
    let m = padded(message);
    let start = [0x6745_2301, 0xefcd_ab89, 0x98ba_dcfe, 0x1032_5476];
    let first = md5_block::block(start, block_at(&m, 0));
    if message.len() < 56 {
        return bytes_of(first);
    }
    bytes_of(md5_block::block(first, block_at(&m, 64)))
}

fn md5_example(rt: &impl Print, tally: &mut Tally, message: &str, says: &[u8; 32]) -> io::Result<()>
    requires { length message.now < 120 }
{
    println!(rt; "MD5 (\"{message}\")")?;
    compare(rt, tally, md5_of(message.as_bytes()), "RFC 1321", says)
}

fn aes_example(
    rt: &impl Print,
    tally: &mut Tally,
    key: [u8; 16],
    block: [u8; 16],
    says: &[u8; 32],
) -> io::Result<()> {
    print!(rt; "AES-128 under ")?;
    print_hex(rt, &key)?;
    print!(rt; " of ")?;
    print_hex(rt, &block)?;
    println!(rt)?;
    compare(rt, tally, aes::encrypt(key, block), "FIPS 197", says)
}

// RFC 1321, section A.5.
fn rfc_1321(rt: &impl Print, tally: &mut Tally) -> io::Result<()> {
    md5_example(rt, tally, "", b"d41d8cd98f00b204e9800998ecf8427e")?;
    md5_example(rt, tally, "a", b"0cc175b9c0f1b6a831c399e269772661")?;
    md5_example(rt, tally, "abc", b"900150983cd24fb0d6963f7d28e17f72")?;
    md5_example(
        rt,
        tally,
        "message digest",
        b"f96b697d7cb7938d525a2f31aaf161d0",
    )?;
    md5_example(
        rt,
        tally,
        "abcdefghijklmnopqrstuvwxyz",
        b"c3fcd3d76192e4007dfb496cca67e13b",
    )?;
    md5_example(
        rt,
        tally,
        "ABCDEFGHIJKLMNOPQRSTUVWXYZabcdefghijklmnopqrstuvwxyz0123456789",
        b"d174ab98d277d9f5a5611c2c9f419d9f",
    )?;
    md5_example(
        rt,
        tally,
        "12345678901234567890123456789012345678901234567890123456789012345678901234567890",
        b"57edf4a22be3c955ac49da2e2107b67a",
    )
}

// FIPS 197, appendices B and C.1.
fn fips_197(rt: &impl Print, tally: &mut Tally) -> io::Result<()> {
    aes_example(
        rt,
        tally,
        *b"\x2b\x7e\x15\x16\x28\xae\xd2\xa6\xab\xf7\x15\x88\x09\xcf\x4f\x3c",
        *b"\x32\x43\xf6\xa8\x88\x5a\x30\x8d\x31\x31\x98\xa2\xe0\x37\x07\x34",
        b"3925841d02dc09fbdc118597196a0b32",
    )?;
    aes_example(
        rt,
        tally,
        *b"\x00\x01\x02\x03\x04\x05\x06\x07\x08\x09\x0a\x0b\x0c\x0d\x0e\x0f",
        *b"\x00\x11\x22\x33\x44\x55\x66\x77\x88\x99\xaa\xbb\xcc\xdd\xee\xff",
        b"69c4e0d86a7b0430d8cdb78070b4c55a",
    )
}

fn main(rt: HostRuntime) -> io::Result<()> {
    let mut tally = Tally::default();
    rfc_1321(&rt, &mut tally)?;
    fips_197(&rt, &mut tally)?;
    print_number(&rt, tally.agreed)?;
    print!(rt; " of ")?;
    print_number(&rt, tally.run)?;
    println!(rt; " agree")
}
