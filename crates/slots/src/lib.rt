// A round of a card on the bytes of its slots. The values held before the round stand one behind another from the front of
// `old`; those held after it are written from the front of `new`, and no byte behind them is touched. Which values are held
// follows from the level, the schedule and the round alone.
#![tactic(auto)]

ghost use Rattle.std.specs.Prelude.{◌≡◌, suc, ◌+◌, ◌*◌, ◌^◌, ◌≤◌, ◌<◌, T, length, drop};
ghost use Rattle.oneway.specs.Step.{known, step};
ghost use Rattle.oneway.specs.Step.{width as width_of};
ghost use Rattle.slots.specs.Hashing.{Opening, Opened, Hashing, Hashed};
ghost use Rattle.slots.specs.Moves.{Moves, Advancing, Advanced, Fits};

use lists::copy;
use oneway::Chain;
use pebbling::hashes::{hashes_done, hashes_in, held_count_after};
use pebbling::powers::{bits, power};
use pebbling::{RoundNumber, RoundsLeft, rounds_left};
use std::ops::Add;

// The bytes read of the old slots and written of the new ones, and how often f was applied. The count stands between the two
// lengths: side by side they would be added as one vector, and that has to wait for both to be stored.
#[derive(Clone, Copy, Debug, PartialEq, Eq)]
pub struct Moved {
    pub read: usize,
    pub hashes: u32,
    pub written: usize,
}

// Two moves, one behind the other, as one.
impl Add for Moved {
    type Output = Moved;

    ghost can_add = { λ upper lower. Fits upper.read lower.read upper.written lower.written upper.hashes lower.hashes };

    ghost add_gives = { λ upper lower both. (both.read ≡ upper.read + lower.read) × (both.written ≡ upper.written + lower.written)
        × (both.hashes ≡ upper.hashes + lower.hashes) };

    fn add(self, lower: Moved) -> Moved {
        Moved {
            read: self.read + lower.read,
            written: self.written + lower.written,
            hashes: self.hashes + lower.hashes,
        }
    }
}

// Before hash h + 1 of P_k, whose newest value stands at `at`. Where that value is finished, one more is held after the hash:
// it is kept, and written once more in front of itself. Answers where the value to be hashed stands.
fn open(w: usize, k: u32, h: u32, at: usize, new: &mut [u8]) -> usize
    requires { Opening w k h at new.old }
    ensures { Opened w k h at new.old result new.new }
{
    let before = held_count_after(k, h);
    let after = held_count_after(k, h + 1);
    if before < after {
        let to = at - w;
        new.copy_within(at..at + w, to);
        return to;
    }
    at
}

// n hashes of P_k, which has done h, on the values from `at` on; they come to stand from the front. Answers how often f was
// applied: this is the one place where a round applies it.
fn hash(chain: Chain, k: u32, h: u32, n: u32, at: usize, new: &mut [u8]) -> u32
    requires known_function { T (known chain.function) }
    requires hashing { Hashing (width_of chain) k h n at new.old }
    ensures { Hashed (width_of chain) (step chain) k h n at new.old result new.new }
{
    let w = oneway::width(chain);
    let mut newest = at;
    // Counted beside the call, and nowhere else: no contract speaks of work.
    let mut applied = 0;
    for _ in 0..n {
        let to = open(w, k, h + applied, newest, new);
        let end = to + w;
        oneway::apply(chain, &mut new[to..end]);
        applied += 1;
        newest = to;
    }
    applied
}

// P_k of a card: its chain and its schedule, by its number as pebbling takes it, with it. The slots that are read and those that are written are lent beside it, since each walk
// goes on with a part of its own of either.
#[derive(Clone, Copy, Debug, PartialEq, Eq)]
struct Pebbler {
    chain: Chain,
    schedule: u32,
    k: u32,
}

impl Pebbler {
    // P_k in a preparing round. Its values go behind the room for those that the round begins, and it hashes; a round without a
    // hash only moves them.
    fn prepare(self, round: RoundNumber, old: &[u8], new: &mut [u8]) -> Moved
        requires advancing { Advancing self.chain self.schedule self.k round.0 old.now new.old }
        requires round_bound { round.0 < 2 ^ self.k }
        ensures { Advanced self.chain self.schedule self.k round.0 old.now new.old result.read result.written result.hashes new.new }
    {
        let k = self.k;
        let w = oneway::width(self.chain);
        let h = hashes_done(self.schedule, k, round);
        let n = hashes_in(self.schedule, k, round);
        let read = held_count_after(k, h) as usize * w;
        if n == 0 {
            copy(&old[..read], new);
            return Moved {
                read,
                written: read,
                hashes: 0,
            };
        }
        let written = held_count_after(k, h + n) as usize * w;
        let at = written - read;
        copy(&old[..read], &mut new[at..]);
        let applied = hash(self.chain, k, h, n, at, new);
        Moved {
            read,
            written,
            hashes: applied,
        }
    }

    // P_k in its round 2^k: its first value is the tick and stays behind, and the others move.
    fn put_out(self, old: &[u8], new: &mut [u8]) -> Moved
        requires { (self.k ≤ 20) × (width_of self.chain * suc self.k ≤ length old.now) × (width_of self.chain * self.k ≤ length new.old) }
        ensures { Moves (width_of self.chain) (suc self.k) self.k 0 (drop 1) old.now new.old result.read result.written result.hashes new.new }
    {
        let w = oneway::width(self.chain);
        let written = self.k as usize * w;
        let read = w + written;
        copy(&old[w..read], new);
        Moved {
            read,
            written,
            hashes: 0,
        }
    }

    // P_0 to P_(k-1) side by side, each in this round, and the rounds left until none of them runs; one that has ended is followed
    // into its own children, 2^i rounds on. The highest bit of the rounds left names the highest that runs, P_j: its round is the
    // round less the rounds of those that have ended, and its rounds left are these. Up to its round 2^j its values stand behind
    // those of P_0 to P_(j-1), which are in the same round then and have 2^j rounds left less; in round 2^j they have ended.
    fn children(self, round: RoundNumber, left: RoundsLeft, old: &[u8], new: &mut [u8]) -> Moved
        requires advancing { Advancing self.chain self.schedule self.k (2 ^ self.k + round.0) old.now new.old }
        requires round_nonzero { (0 < round.0) × (round.0 + left.0 ≡ 2 ^ self.k) }
        ensures { Advanced self.chain self.schedule self.k (2 ^ self.k + round.0) old.now new.old result.read result.written result.hashes new.new }
    {
        let r = round.0;
        let c = left.0;
        let j = bits(c) - 1;
        let half = power(j);
        let ended = power(self.k) - 2 * half;
        let n = r - ended;
        let highest = Pebbler { k: j, ..self };
        if c == half {
            return highest.put_out(old, new);
        }
        let own = RoundNumber(n);
        let rest = c - half;
        let upper = highest.children(own, RoundsLeft(rest), old, new);
        let read = upper.read;
        let written = upper.written;
        let lower = highest.prepare(own, &old[read..], &mut new[written..]);
        upper + lower
    }
}

// A round of P_k, its children with it. Up to round 2^k it runs itself, and from the next round its children run.
pub fn advance(
    chain: Chain,
    schedule: u32,
    k: u32,
    round: RoundNumber,
    old: &[u8],
    new: &mut [u8],
) -> Moved
    requires { Advancing chain schedule k round.0 old.now new.old }
    ensures { Advanced chain schedule k round.0 old.now new.old result.read result.written result.hashes new.new }
{
    let pebbler = Pebbler { chain, schedule, k };
    let r = round.0;
    let whole = power(k);
    if r < whole {
        return pebbler.prepare(round, old, new);
    }
    if r == whole {
        return pebbler.put_out(old, new);
    }
    let n = r - whole;
    let left = rounds_left(k, round);
    pebbler.children(RoundNumber(n), left, old, new)
}
