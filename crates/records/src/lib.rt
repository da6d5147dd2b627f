// What the card's and the post's records share: bytes written and compared, numbers of four bytes read and written, and steps along a chain.
#![tactic(auto)]

ghost use Rattle.std.specs.Prelude.{◌≡◌, ◌+◌, ◌≤◌, T, length};
ghost use Rattle.lists.specs.Same.{same as same_as};
ghost use Rattle.lists.specs.Written.{Written};
ghost use Rattle.oneway.specs.Step.{known, width, step, little_endian};
ghost use Rattle.pebbling.specs.Recursion.{chain as element};
ghost use Rattle.records.specs.Numbers.{number};

use oneway::Chain;

// Writes a piece into a text from a place on, and answers the place behind it.
pub fn put(piece: &[u8], at: usize, text: &mut [u8]) -> usize
    requires { at + length piece.now ≤ length text.old }
    ensures { Written piece.now at text.old result text.new }
{
    lists::copy(piece, &mut text[at..]);
    at + piece.len()
}

// Whether two slices hold the same bytes, by the definition `same` that promises cite.
pub fn same(a: &[u8], b: &[u8]) -> bool
    ensures { result ≡ same_as a.now b.now }
{
    a == b
}

// A byte as a number. The crates take the library's conversion; the function stays, with its promise, for who calls it by this name.
pub fn wide(x: u8) -> u32
    ensures { (result ≡ x) × (result ≤ 255) }
{
    u32::from(x)
}

// The number in four bytes, low byte first.
pub fn word(bytes: &[u8]) -> u32
    requires { length bytes.now ≡ 4 }
    ensures { result ≡ number bytes.now }
{
    u32::from_le_bytes(*bytes.as_array().unwrap())
}

// A number as four bytes, low byte first, by the definition `little_endian` that promises cite.
pub fn word_bytes(n: u32) -> [u8; 4]
    ensures { result ≡ little_endian 4 n }
{
    n.to_le_bytes()
}

// n steps of the chain, in place.
pub fn walk(chain: Chain, n: u32, value: &mut [u8])
    requires known_function { T (known chain.function) }
    requires whole_value { length value.old ≡ width chain }
    ensures { value.new ≡ element (step chain) value.old n }
{
    for _ in 0..n {
        oneway::apply(chain, value);
    }
}
