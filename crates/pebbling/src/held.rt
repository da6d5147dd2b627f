// How many values a card holds before a round: in numbers only, by one way down the levels. What stands in the slots is not looked at.
ghost use Rattle.std.specs.Prelude.{◌≡◌, suc, ◌+◌, ◌^◌, ◌≤◌, ◌<◌, length};
ghost use Rattle.pebbling.specs.Promises.{Aside};
ghost use Rattle.pebbling.specs.Recursion.{schedule as hashes_of, positions};
ghost use Rattle.pebbling.specs.SideBySide.{side_held_count};

use super::RoundNumber;
use super::hashes::{hashes_done, held_count_after};
use super::powers::power;

// The children of P_k, side by side in their round, and `more` besides. The last of them is P_(k-1). Past its round 2^(k-1) only its own
// children are left; up to then it holds its y's, and before then the children below it run too.
fn held_count_aside(schedule: u32, k: u32, round: RoundNumber, more: u32) -> u32
    requires { Aside schedule k round.0 more }
    ensures { result ≡ more + side_held_count (hashes_of schedule) k round.0 }
{
    let n = round.0;
    let j = k - 1;
    let half = power(j);
    if half < n {
        let later = n - half;
        return held_count_aside(schedule, j, RoundNumber(later), more);
    }
    let own = held_count_after(j, hashes_done(schedule, j, round));
    let all = more + own;
    if n == half {
        return all;
    }
    held_count_aside(schedule, j, round, all)
}

// The values that P_k holds before its round, its children with it.
pub fn held_count(schedule: u32, k: u32, round: RoundNumber) -> u32
    requires { (schedule ≤ 3) × (k ≤ 20) × (0 < round.0) × (round.0 < 2 ^ suc k) }
    ensures { (result ≡ length (positions (hashes_of schedule) k round.0 0)) × (result ≤ 41) }
{
    let r = round.0;
    let whole = power(k);
    if whole < r {
        let n = r - whole;
        return held_count_aside(schedule, k, RoundNumber(n), 0);
    }
    held_count_after(k, hashes_done(schedule, k, round))
}
