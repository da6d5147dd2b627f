// The block function of MD5 (RFC 1321, section 3.4): any state before, any block of 64 bytes.
//
// A step finds its mixing function, message word, additive word and rotation by its number, from 0 to 63. The compiler inlines all steps
// and knows each number: no table, no test and no index is left in the machine code.
#![tactic(auto)]

ghost use Rattle.std.specs.Prelude.{◌≡◌, ◌+◌, ◌<◌, ◌≤◌};
ghost use Rattle.md5_block.specs.Md5.{mix, word_number, step, steps_from, word_at, words, block_of};

use std::array;

// The additive words T[1] to T[64], for steps 0 to 63.
const ADD: [u32; 64] = [
    0xd76a_a478, // round 1
    0xe8c7_b756,
    0x2420_70db,
    0xc1bd_ceee,
    0xf57c_0faf,
    0x4787_c62a,
    0xa830_4613,
    0xfd46_9501,
    0x6980_98d8,
    0x8b44_f7af,
    0xffff_5bb1,
    0x895c_d7be,
    0x6b90_1122,
    0xfd98_7193,
    0xa679_438e,
    0x49b4_0821,
    0xf61e_2562, // round 2
    0xc040_b340,
    0x265e_5a51,
    0xe9b6_c7aa,
    0xd62f_105d,
    0x0244_1453,
    0xd8a1_e681,
    0xe7d3_fbc8,
    0x21e1_cde6,
    0xc337_07d6,
    0xf4d5_0d87,
    0x455a_14ed,
    0xa9e3_e905,
    0xfcef_a3f8,
    0x676f_02d9,
    0x8d2a_4c8a,
    0xfffa_3942, // round 3
    0x8771_f681,
    0x6d9d_6122,
    0xfde5_380c,
    0xa4be_ea44,
    0x4bde_cfa9,
    0xf6bb_4b60,
    0xbebf_bc70,
    0x289b_7ec6,
    0xeaa1_27fa,
    0xd4ef_3085,
    0x0488_1d05,
    0xd9d4_d039,
    0xe6db_99e5,
    0x1fa2_7cf8,
    0xc4ac_5665,
    0xf429_2244, // round 4
    0x432a_ff97,
    0xab94_23a7,
    0xfc93_a039,
    0x655b_59c3,
    0x8f0c_cc92,
    0xffef_f47d,
    0x8584_5dd1,
    0x6fa8_7e4f,
    0xfe2c_e6e0,
    0xa301_4314,
    0x4e08_11a1,
    0xf753_7e82,
    0xbd3a_f235,
    0x2ad7_d2bb,
    0xeb86_d391,
];

// How far each step rotates.
const ROT: [u32; 64] = [
    7, // round 1
    12, 17, 22, 7, 12, 17, 22, 7, 12, 17, 22, 7, 12, 17, 22, 5, // round 2
    9, 14, 20, 5, 9, 14, 20, 5, 9, 14, 20, 5, 9, 14, 20, 4, // round 3
    11, 16, 23, 4, 11, 16, 23, 4, 11, 16, 23, 4, 11, 16, 23, 6, // round 4
    10, 15, 21, 6, 10, 15, 21, 6, 10, 15, 21, 6, 10, 15, 21,
];

// The mixing functions F, G, H and I, a round of sixteen steps each: by the step's number, as `mix` of the definitions has them.
fn mixed(i: usize, b: u32, c: u32, d: u32) -> u32
    ensures { result ≡ mix i b c d }
{
    if i < 16 {
        return (b & c) | (!b & d);
    }
    if i < 32 {
        return (b & d) | (c & !d);
    }
    if i < 48 {
        return b ^ c ^ d;
    }
    c ^ (b | !d)
}

// Which message word a step adds, by its number. Each round goes through all sixteen, with a stride of its own.
fn word_number(i: usize) -> usize
    requires { i < 64 }
    ensures { (result ≡ word_number i) × (result < 16) }
{
    if i < 16 {
        return i;
    }
    if i < 32 {
        return (5 * i + 1) % 16;
    }
    if i < 48 {
        return (3 * i + 5) % 16;
    }
    7 * i % 16
}

// Step i on the registers a, b, c, d, which change places for the next one.
fn stepped(x: &[u32; 16], s: [u32; 4], i: usize) -> [u32; 4]
    requires { i < 64 }
    ensures { result ≡ step x.now s i }
{
    let [a, b, c, d] = s;
    let sum = a
        .wrapping_add(mixed(i, b, c, d))
        .wrapping_add(x[word_number(i)])
        .wrapping_add(ADD[i]);
    let a = b.wrapping_add(sum.rotate_left(ROT[i]));
    [d, a, b, c]
}

// Steps i to i + 3: each register is written once, and all are back in their places. Four calls here and in `sixteen`, and no loop, since
// the compiler does not write a longer loop out, and that keeps its tests: one loop over the 64 steps takes 1.9 times as long, and one over
// fours or three of four in one another 1.3 to 1.4 times.
fn four(x: &[u32; 16], s: [u32; 4], i: usize) -> [u32; 4]
    requires { i + 4 ≤ 64 }
    ensures { result ≡ steps_from x.now s i 4 }
{
    let s = stepped(x, s, i);
    let s = stepped(x, s, i + 1);
    let s = stepped(x, s, i + 2);
    stepped(x, s, i + 3)
}

// Steps i to i + 15, a round of the four.
fn sixteen(x: &[u32; 16], s: [u32; 4], i: usize) -> [u32; 4]
    requires { i + 16 ≤ 64 }
    ensures { result ≡ steps_from x.now s i 16 }
{
    let s = four(x, s, i);
    let s = four(x, s, i + 4);
    let s = four(x, s, i + 8);
    four(x, s, i + 12)
}

// All 64 steps, a round at a time. A round's result has a name of its own, since `s = sixteen(x, s, ..)` is refused in a loop.
fn all_steps(x: &[u32; 16], first: [u32; 4]) -> [u32; 4]
    ensures { result ≡ steps_from x.now first 0 64 }
{
    let mut s = first;
    for round in 0..4 {
        let t = sixteen(x, s, 16 * round);
        s = t;
    }
    s
}

// Message word j of a block, low byte first, as `records::word` reads one; that crate stands above this one.
fn word(bytes: &[u8; 64], j: usize) -> u32
    requires { j < 16 }
    ensures { result ≡ word_at bytes.now j }
{
    let k = 4 * j;
    u32::from_le_bytes([bytes[k], bytes[k + 1], bytes[k + 2], bytes[k + 3]])
}

// The sixteen message words of a block.
fn split(bytes: &[u8; 64]) -> [u32; 16]
    ensures { result ≡ words bytes.now }
{
    array::from_fn(|j| word(bytes, j))
}

// One block: the state after it, from any state before it.
pub fn block(state: [u32; 4], bytes: &[u8; 64]) -> [u32; 4]
    ensures { result ≡ block_of state bytes.now }
{
    let s = all_steps(&split(bytes), state);
    [
        state[0].wrapping_add(s[0]),
        state[1].wrapping_add(s[1]),
        state[2].wrapping_add(s[2]),
        state[3].wrapping_add(s[3]),
    ]
}
