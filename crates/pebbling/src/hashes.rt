// One pebbler P_k up to its round 2^k: the hashes of a preparing round under each schedule, the hashes done
// before a round, and the values held after so many hashes.
ghost use Rattle.std.specs.Prelude.{◌≡◌, ◌+◌, ◌-◌, ◌^◌, ◌≤◌, ◌<◌};
ghost use Rattle.pebbling.specs.Len.{len};
ghost use Rattle.pebbling.specs.OptimalLeft.{left as hashes_left};
ghost use Rattle.pebbling.specs.Promises.{Curve, Done, Holds};
ghost use Rattle.pebbling.specs.Recursion.{rushing, speed2, optimal};
ghost use Rattle.pebbling.specs.Recursion.{schedule as hashes_of};

use super::powers::{bits, power};
use super::{RoundNumber, RoundsLeft, rounds_left};

// P_k in a preparing round, with k from 1 on.
#[derive(Clone, Copy, Debug, PartialEq, Eq)]
struct Preparing {
    k: u32,
    round: RoundNumber,
    ghost within: { (0 < k) × (k ≤ 20) × (round.0 < 2 ^ k) },
}

impl Preparing {
    // Everything in the last preparing round.
    fn rushing_in(self) -> u32
        ensures { result ≡ rushing self.k self.round.0 }
    {
        let r = self.round.0;
        let last = power(self.k) - 1;
        if r == last { last } else { 0 }
    }

    // Nothing in the first half, then two, and one at the end.
    fn speed2_in(self) -> u32
        ensures { result ≡ speed2 self.k self.round.0 }
    {
        let r = self.round.0;
        let half = power(self.k - 1);
        let last = power(self.k) - 1;
        if r < half {
            return 0;
        }
        if r < last { 2 } else { 1 }
    }

    // Nothing in the first half, then the article's formula: the lengths are those of what is left to round 2^k, and of
    // the remainder of 2r by the power of two above it.
    fn optimal_in(self) -> u32
        ensures { result ≡ optimal self.k self.round.0 }
    {
        let r = self.round.0;
        let half = power(self.k - 1);
        if r < half {
            return 0;
        }
        let left = rounds_left(self.k, self.round);
        let above = power(bits(left.0 - power(self.k)));
        let rest = bits(2 * r % above);
        ((self.k + r) % 2 + (self.k + 1) - rest) / 2
    }

    // Nothing in the first half, and then two a round.
    fn speed2_done(self) -> u32
        requires { 0 < self.round.0 }
        ensures { Done speed2 self.k self.round.0 result }
    {
        let r = self.round.0;
        if r < power(self.k - 1) {
            return 0;
        }
        2 * r - power(self.k)
    }

    // Nothing in the first half, and then all but what is left.
    fn optimal_done(self) -> u32
        requires { 0 < self.round.0 }
        ensures { Done optimal self.k self.round.0 result }
    {
        let r = self.round.0;
        let half = power(self.k - 1);
        if r < half {
            return 0;
        }
        let whole = power(self.k);
        let left = rounds_left(self.k, self.round);
        whole - 1 - optimal_left(self.k, whole, left)
    }
}

// The hashes of P_k in its preparing round, by the schedule's number: a choice between formulas, which closures would only hide.
pub fn hashes_in(schedule: u32, k: u32, round: RoundNumber) -> u32
    requires { (schedule ≤ 3) × (0 < k) × (k ≤ 20) × (round.0 < 2 ^ k) }
    ensures { result ≡ hashes_of schedule k round.0 }
{
    let preparing = Preparing { k, round };
    match schedule {
        0 => preparing.rushing_in(),
        1 => 1,
        2 => preparing.speed2_in(),
        _ => preparing.optimal_in(),
    }
}

// n * (k - len n) + 2^(len n). From n to n + 1 it rises by k - len n: while the length stays that is plain, and where
// n + 1 is a power of two the second term gains the n + 1 that the first one loses. So it is a sum of such steps.
fn curve(k: u32, n: u32) -> u32
    requires { (k ≤ 22) × (n ≤ 1048576) × (len n ≤ k) }
    ensures { Curve k n result }
{
    let l = bits(n);
    n * (k - l) + power(l)
}

// The hashes that an optimal P_k has still to do, by its rounds left: they are done before its round 2^k, to which it
// has c rounds, 2^k less; `whole` is 2^k. With z for what c lacks to the power of two above it, the round itself has
// half of k - len z hashes, or half of k + 1 where c is a power of two, rounded up where k + c is odd. From one power of
// two to the next c grows and z falls, so twice what is left is a constant less the curve at z. The constant is the
// curve for k + 2 at the power above, less 2: that gives 0 at c = 0, and a step of k + 1 at each power. All the rounding
// comes to that of the sum, since an odd sum is only ever followed by an odd step.
//
// For k = 4 rounds 8 to 15 have 2, 2, 1, 1, 2, 2, 2 and 3 hashes. Before round 8, c = 8, above = 16 and z = 8: the
// curves are 48 and 16, and half of 0 + (48 - 16 - 2) is 15. Before round 9, c = 7, above = 8 and z = 1: they are 32
// and 5, and half of 1 + (32 - 5 - 2) is 13. Then 11, 10, 9, 7, 5 and 3 are left, and 0 before round 16.
fn optimal_left(k: u32, whole: u32, left: RoundsLeft) -> u32
    requires { (0 < k) × (k ≤ 20) × (whole ≡ 2 ^ k) × (2 ^ k ≤ left.0) × (left.0 ≤ 2 ^ k + 2 ^ (k - 1)) }
    ensures { result ≡ hashes_left k (left.0 - 2 ^ k) }
{
    let c = left.0 - whole;
    let above = power(bits(c));
    let twice = curve(k + 2, above) - curve(k, above - c) - 2;
    ((k + c) % 2 + twice) / 2
}

// The hashes that P_k has done before its round, which is at most 2^k, by the schedule's number likewise. Before round
// 2^k every schedule has done all of them.
pub fn hashes_done(schedule: u32, k: u32, round: RoundNumber) -> u32
    requires { (schedule ≤ 3) × (k ≤ 20) × (0 < round.0) × (round.0 ≤ 2 ^ k) }
    ensures { Done (hashes_of schedule) k round.0 result }
{
    let r = round.0;
    let whole = power(k);
    if r == whole {
        return whole - 1;
    }
    let preparing = Preparing { k, round };
    match schedule {
        0 => 0,
        1 => r - 1,
        2 => preparing.speed2_done(),
        _ => preparing.optimal_done(),
    }
}

// How many values P_k holds, h hashes into its preparing rounds.
pub fn held_count_after(k: u32, h: u32) -> u32
    requires { (k ≤ 20) × (h < 2 ^ k) }
    ensures { Holds k h result }
{
    k + 2 - bits(power(k) - h)
}
