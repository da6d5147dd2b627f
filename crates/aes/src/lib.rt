// AES-128 encryption of one block. The functions have the names of FIPS 197 and do its steps; a number such as 5.1.1 is a section there.
// A state is the array of its four columns, and a round key is sixteen bytes.
#![tactic(auto)]

ghost use Rattle.std.specs.Prelude.{◌≡◌};
ghost use Rattle.aes.specs.Aes.{columns, bytes, xtimes, s_box, sub_bytes, shift_rows, mix_column, mix_columns, add_round_key, sub_word, xor_words, rounds, cipher};
ghost use Rattle.aes.specs.Lanes.{double};
ghost use Rattle.aes.specs.Schedule.{next_round_key, key_of, RoundKeys};

// 5.1.1, table 4: a row of sixteen for each high half of a byte.
const S_BOX: [u8; 256] = *b"\
    \x63\x7c\x77\x7b\xf2\x6b\x6f\xc5\x30\x01\x67\x2b\xfe\xd7\xab\x76\
    \xca\x82\xc9\x7d\xfa\x59\x47\xf0\xad\xd4\xa2\xaf\x9c\xa4\x72\xc0\
    \xb7\xfd\x93\x26\x36\x3f\xf7\xcc\x34\xa5\xe5\xf1\x71\xd8\x31\x15\
    \x04\xc7\x23\xc3\x18\x96\x05\x9a\x07\x12\x80\xe2\xeb\x27\xb2\x75\
    \x09\x83\x2c\x1a\x1b\x6e\x5a\xa0\x52\x3b\xd6\xb3\x29\xe3\x2f\x84\
    \x53\xd1\x00\xed\x20\xfc\xb1\x5b\x6a\xcb\xbe\x39\x4a\x4c\x58\xcf\
    \xd0\xef\xaa\xfb\x43\x4d\x33\x85\x45\xf9\x02\x7f\x50\x3c\x9f\xa8\
    \x51\xa3\x40\x8f\x92\x9d\x38\xf5\xbc\xb6\xda\x21\x10\xff\xf3\xd2\
    \xcd\x0c\x13\xec\x5f\x97\x44\x17\xc4\xa7\x7e\x3d\x64\x5d\x19\x73\
    \x60\x81\x4f\xdc\x22\x2a\x90\x88\x46\xee\xb8\x14\xde\x5e\x0b\xdb\
    \xe0\x32\x3a\x0a\x49\x06\x24\x5c\xc2\xd3\xac\x62\x91\x95\xe4\x79\
    \xe7\xc8\x37\x6d\x8d\xd5\x4e\xa9\x6c\x56\xf4\xea\x65\x7a\xae\x08\
    \xba\x78\x25\x2e\x1c\xa6\xb4\xc6\xe8\xdd\x74\x1f\x4b\xbd\x8b\x8a\
    \x70\x3e\xb5\x66\x48\x03\xf6\x0e\x61\x35\x57\xb9\x86\xc1\x1d\x9e\
    \xe1\xf8\x98\x11\x69\xd9\x8e\x94\x9b\x1e\x87\xe9\xce\x55\x28\xdf\
    \x8c\xa1\x89\x0d\xbf\xe6\x42\x68\x41\x99\x2d\x0f\xb0\x54\xbb\x16";

// 4.2: the product with x. The bit that is shifted out takes 0x1b or nothing, with no branch.
fn xtimes(b: u8) -> u8
    ensures { result ≡ xtimes b }
{
    (0x1b * (b >> 7)) ^ (b << 1)
}

// 5.1.1: the S-box of a byte.
fn sub_byte(b: u8) -> u8
    ensures { result ≡ s_box b }
{
    S_BOX[usize::from(b)]
}

// 5.2: the S-box of each byte of a word. The four calls are written out here, in `sub_bytes` and in `mix_columns`: over the array's `map` a
// block takes 1.4 to 2 in 100 longer, and no hash is to get slower than it was.
fn sub_word(a: [u8; 4]) -> [u8; 4]
    ensures { result ≡ sub_word a }
{
    [
        sub_byte(a[0]),
        sub_byte(a[1]),
        sub_byte(a[2]),
        sub_byte(a[3]),
    ]
}

// 4.2: the product of each lane with x, as `xtimes` makes it of a byte. What moves out of a lane is kept from the next by the masks.
fn doubled(w: u32) -> u32
    ensures { result ≡ double w }
{
    (0x1b * ((w & 0x8080_8080) >> 7)) ^ ((w & 0x7f7f_7f7f) << 1)
}

// 4.1: the sum of two words, byte by byte. A word's bytes are the lanes of one number, the first lowest: what is done to each byte alike is
// done to the number at once.
fn xor_words(a: [u8; 4], b: [u8; 4]) -> [u8; 4]
    ensures { result ≡ xor_words a b }
{
    (u32::from_le_bytes(a) ^ u32::from_le_bytes(b)).to_le_bytes()
}

// 3.4: sixteen bytes as a state, or as four words.
fn columns(input: [u8; 16]) -> [[u8; 4]; 4]
    ensures { result ≡ columns input }
{
    [
        [input[0], input[1], input[2], input[3]],
        [input[4], input[5], input[6], input[7]],
        [input[8], input[9], input[10], input[11]],
        [input[12], input[13], input[14], input[15]],
    ]
}

// 3.4: the sixteen bytes of a state, column by column.
fn bytes(s: [[u8; 4]; 4]) -> [u8; 16]
    ensures { result ≡ bytes s }
{
    let [a, b, c, d] = s;
    [
        a[0], a[1], a[2], a[3], b[0], b[1], b[2], b[3], c[0], c[1], c[2], c[3], d[0], d[1], d[2],
        d[3],
    ]
}

// 5.1.1: the S-box of each byte of a state.
fn sub_bytes(s: [[u8; 4]; 4]) -> [[u8; 4]; 4]
    ensures { result ≡ sub_bytes s }
{
    [
        sub_word(s[0]),
        sub_word(s[1]),
        sub_word(s[2]),
        sub_word(s[3]),
    ]
}

// 5.1.2: row r, which is byte r of each column, moves r columns to the left.
fn shift_rows(s: [[u8; 4]; 4]) -> [[u8; 4]; 4]
    ensures { result ≡ shift_rows s }
{
    let [a, b, c, d] = s;
    [
        [a[0], b[1], c[2], d[3]],
        [b[0], c[1], d[2], a[3]],
        [c[0], d[1], a[2], b[3]],
        [d[0], a[1], b[2], c[3]],
    ]
}

// 5.1.3: one column mixed, all rows at once: each row takes twice its own byte, three times the next, and the two others. Twice a byte is
// its product with x, and three times a byte is that and the byte.
fn mix_column(s: [u8; 4]) -> [u8; 4]
    ensures { result ≡ mix_column s }
{
    let w = u32::from_le_bytes(s);
    let d = doubled(w);
    let w1 = w.rotate_right(8);
    let d1 = d.rotate_right(8);
    let w2 = w1.rotate_right(8);
    let w3 = w2.rotate_right(8);
    (d ^ (w1 ^ d1) ^ w2 ^ w3).to_le_bytes()
}

// 5.1.3: each column mixed.
fn mix_columns(s: [[u8; 4]; 4]) -> [[u8; 4]; 4]
    ensures { result ≡ mix_columns s }
{
    [
        mix_column(s[0]),
        mix_column(s[1]),
        mix_column(s[2]),
        mix_column(s[3]),
    ]
}

// 5.1.4: the state and a round key, added. The four calls are written out, since no proof was found over `array::from_fn`.
fn add_round_key(s: [[u8; 4]; 4], key: [u8; 16]) -> [[u8; 4]; 4]
    ensures { result ≡ add_round_key s (columns key) }
{
    let k = columns(key);
    [
        xor_words(s[0], k[0]),
        xor_words(s[1], k[1]),
        xor_words(s[2], k[2]),
        xor_words(s[3], k[3]),
    ]
}

// 5.2, four words at once: a round key from the one before. `rcon` is the first byte of Rcon, the others being 0.
fn next_round_key(key: [u8; 16], rcon: u8) -> [u8; 16]
    ensures { columns result ≡ next_round_key (columns key) rcon }
{
    let w = columns(key);
    let last = w[3];
    // RotWord, then SubWord
    let t = sub_word([last[1], last[2], last[3], last[0]]);
    let temp = xor_words(t, [rcon, 0, 0, 0]);
    let w0 = xor_words(w[0], temp);
    let w1 = xor_words(w[1], w0);
    let w2 = xor_words(w[2], w1);
    let w3 = xor_words(w[3], w2);
    bytes([w0, w1, w2, w3])
}

// 5.2: the key, which is round key 0, and ten round keys more, each from the one before.
fn key_expansion(key: [u8; 16]) -> [[u8; 16]; 11]
    ensures { RoundKeys 11 key result }
{
    let mut keys = [[0u8; 16]; 11];
    keys[0] = key;
    let mut rcon: u8 = 1;
    // An index, since a round key is made from the one before it in the same array.
    for round in 0..10 {
        let next = next_round_key(keys[round], rcon);
        keys[round + 1] = next;
        rcon = xtimes(rcon);
    }
    keys
}

// 5.1: a round, as all are but the last.
fn one_round(s: [[u8; 4]; 4], key: [u8; 16]) -> [[u8; 4]; 4]
    ensures { result ≡ add_round_key (mix_columns (shift_rows (sub_bytes s))) (columns key) }
{
    add_round_key(mix_columns(shift_rows(sub_bytes(s))), key)
}

// 5.1: rounds 1 to 9, from the state to which round key 0 was added. A round's result has a name of its own, since `s = one_round(s, ..)` is
// refused in a loop.
fn rounds(keys: &[[u8; 16]; 11], first: [[u8; 4]; 4]) -> [[u8; 4]; 4]
    ensures { result ≡ rounds (key_of keys.now) first 9 }
{
    let mut s = first;
    for key in &keys[1..10] {
        let t = one_round(s, *key);
        s = t;
    }
    s
}

// 5.1: a block encrypted under a key, any block and any key. The last round mixes no columns.
pub fn encrypt(key: [u8; 16], block: [u8; 16]) -> [u8; 16]
    ensures { result ≡ cipher key block }
{
    let keys = key_expansion(key);
    let first = add_round_key(columns(block), keys[0]);
    let s = rounds(&keys, first);
    let t = add_round_key(shift_rows(sub_bytes(s)), keys[10]);
    bytes(t)
}
