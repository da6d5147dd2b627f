// The chain's one-way function. A chain says by number which function it steps by; everything above speaks of `width`, how many
// bytes a value has, and of `step`, what comes after a value. No other crate names MD5 or AES.
#![tactic(auto)]

ghost use Rattle.std.specs.Prelude.{◌≡◌, T, length, replicate};
ghost use Rattle.aes.specs.Aes.{cipher};
ghost use Rattle.oneway.specs.Step.{step, padded, little_endian_words, digest};
ghost use Rattle.oneway.specs.Step.{known as is_known, width as width_of};

// The function stays a number: the calls are lent any number, the clause of `card::anchor` makes a chain of it whatever it is, and the
// theorems on chains speak of every one.
#[derive(Clone, Copy, Debug, PartialEq, Eq)]
pub struct Chain {
    pub function: u32,
}

// Whether a function has this number. Who starts a chain refuses the others.
pub fn known(function: u32) -> bool
    ensures { result ≡ is_known function }
{
    function < 2
}

// The widest value that any function has.
pub const WIDEST: usize = 16;

// How many bytes a value of the chain has.
pub fn width(chain: Chain) -> usize
    ensures { result ≡ width_of chain }
{
    16
}

// The block that MD5 makes of 16 bytes: the byte 0x80 behind them, zeros, and their length of 128 bits, low byte first.
fn padding(value: [u8; 16]) -> [u8; 64]
    ensures { result ≡ padded value }
{
    let mut block = [0u8; 64];
    block[..16].copy_from_slice(&value);
    block[16] = 0x80;
    block[56] = 128;
    block
}

// Four words as 16 bytes, the low byte of each first: word by word, since a proof knows no byte of what is written through chunks.
fn low_byte_first(s: [u32; 4]) -> [u8; 16]
    ensures { result ≡ little_endian_words s }
{
    let mut bytes = [0u8; 16];
    bytes[..4].copy_from_slice(&s[0].to_le_bytes());
    bytes[4..8].copy_from_slice(&s[1].to_le_bytes());
    bytes[8..12].copy_from_slice(&s[2].to_le_bytes());
    bytes[12..].copy_from_slice(&s[3].to_le_bytes());
    bytes
}

// MD5's state before the first block (RFC 1321, section 3.3).
const INITIAL: [u32; 4] = [0x6745_2301, 0xefcd_ab89, 0x98ba_dcfe, 0x1032_5476];

// MD5 of 16 bytes: its one block from the initial state.
fn md5_of(value: [u8; 16]) -> [u8; 16]
    ensures { result ≡ digest value }
{
    low_byte_first(md5_block::block(INITIAL, &padding(value)))
}

// The all-zero block encrypted by AES-128 under the 16 bytes as key.
fn aes_of(value: [u8; 16]) -> [u8; 16]
    ensures { result ≡ cipher value (replicate 16 0) }
{
    aes::encrypt(value, [0u8; 16])
}

// One step of the chain, in place: the value that comes after the one lent. The chain's function has to be a known one; a `Chain` cannot
// say that, nor a slice its length, so whoever steps along a chain asks for both in clauses of its own.
pub fn apply(chain: Chain, value: &mut [u8])
    requires known_function { T (is_known chain.function) }
    requires whole_value { length value.old ≡ width_of chain }
    ensures { value.new ≡ step chain value.old }
{
    let v = *value.as_array().unwrap();
    // A test and no table of functions: there are two of them.
    let next = if chain.function == 0 {
        md5_of(v)
    } else {
        aes_of(v)
    };
    value.copy_from_slice(&next);
}
