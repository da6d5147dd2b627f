// Writes positions into a lent list, pebbler by pebbler in the order in which they fall, and adds up the hashes of the round
// on the way. The bounds of schedule, k and round stand in each clause, as in the public functions that are asked for the same numbers.
ghost use Rattle.std.specs.Prelude.{◌≡◌, suc, ◌+◌, ◌^◌, ◌≤◌, ◌<◌, length};
ghost use Rattle.lists.specs.Written.{Written};
ghost use Rattle.pebbling.specs.Recursion.{held, positions, work};
ghost use Rattle.pebbling.specs.Recursion.{schedule as hashes_of};

use super::RoundNumber;
use super::hashes::{hashes_done, hashes_in};
use super::powers::{bits, power};

// What listing pebblers comes to: the entry behind their last position, and their hashes in the round.
#[derive(Clone, Copy, Debug, PartialEq, Eq)]
pub struct Listing {
    pub end: usize,
    pub hashes: u32,
}

// The hashes of P_k itself in its round: round 2^k has none.
fn own_hashes(schedule: u32, k: u32, round: RoundNumber) -> u32
    requires { (schedule ≤ 3) × (k ≤ 20) × (0 < round.0) × (round.0 ≤ 2 ^ k) }
    ensures { result ≡ work (hashes_of schedule) k round.0 }
{
    let r = round.0;
    if r == power(k) {
        return 0;
    }
    hashes_in(schedule, k, round)
}

// P_k itself, h hashes into its preparing rounds: its newest y, and behind it the finished ones up to y_k.
// Writes from `at` on, and returns the entry behind the last.
fn list_own(k: u32, h: u32, base: u32, at: usize, list: &mut [u32]) -> usize
    requires { (k ≤ 20) × (h < 2 ^ k) × (base ≤ 1048576) × (at + length (held k h base) ≤ length list.old) }
    ensures { Written (held k h base) at list.old result list.new }
{
    let whole = power(k);
    list[at] = base + h;
    let first = bits(whole - h);
    // The entry is counted beside i: of what is written through a zipped `iter_mut` a proof knows no element.
    let mut next = at + 1;
    for i in first..k + 1 {
        list[next] = base + (whole - power(i));
        next += 1;
    }
    next
}

// P_k in any of its rounds, with its children. Its round 2^k + n is round n of a P_(k-1) over the lower half of its
// positions, and round 2^(k-1) + n of one over the upper half, which is listed first and has run all its rounds once n is
// 2^(k-1).
pub fn list_all(
    schedule: u32,
    k: u32,
    round: RoundNumber,
    base: u32,
    at: usize,
    list: &mut [u32],
) -> Listing
    requires { (schedule ≤ 3) × (k ≤ 20) × (0 < round.0) × (round.0 < 2 ^ suc k) × (base + 2 ^ k ≤ 1048576)
        × (at + length (positions (hashes_of schedule) k round.0 base) ≤ length list.old) }
    ensures { Written (positions (hashes_of schedule) k round.0 base) at list.old result.end list.new
        × (result.hashes ≡ work (hashes_of schedule) k round.0) }
{
    let r = round.0;
    let whole = power(k);
    if r <= whole {
        let h = hashes_done(schedule, k, round);
        let end = list_own(k, h, base, at, list);
        let hashes = own_hashes(schedule, k, round);
        return Listing { end, hashes };
    }
    let n = r - whole;
    let j = k - 1;
    let half = power(j);
    if half <= n {
        return list_all(schedule, j, RoundNumber(n), base, at, list);
    }
    let m = half + n;
    let middle = base + half;
    let upper = list_all(schedule, j, RoundNumber(m), middle, at, list);
    let next = upper.end;
    let lower = list_all(schedule, j, RoundNumber(n), base, next, list);
    let first = upper.hashes;
    let second = lower.hashes;
    let hashes = first + second;
    Listing {
        end: lower.end,
        hashes,
    }
}
