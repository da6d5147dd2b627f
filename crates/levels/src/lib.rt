// Cards of any number of ticks: how many there may be, the level of the smallest card that has so many, and the round with which
// it begins. Ticks are a count of their own, neither a round number nor rounds left.
#![tactic(auto)]

ghost use Rattle.std.specs.Prelude.{◌≡◌, suc, ◌-◌, ◌^◌, ◌≤◌, ◌<◌};
ghost use Rattle.levels.specs.Levels.{allowed as is_allowed, level as level_of};

use pebbling::RoundNumber;
use pebbling::powers::{bits, power};

// The most ticks that a card can have: 2^20.
const MOST: u32 = 1_048_576;

// Whether a card can have so many ticks: from 1 to the most.
pub fn allowed(ticks: u32) -> bool
    ensures { result ≡ is_allowed ticks }
{
    (1..=MOST).contains(&ticks)
}

// The least k with 2^k at least the ticks: so many binary digits has the number before them.
pub fn level(ticks: u32) -> u32
    requires { (0 < ticks) × (ticks ≤ 1048576) }
    ensures { (result ≡ level_of ticks) × (result ≤ 20) }
{
    bits(ticks - 1)
}

// The round with which a card of level k and so many ticks begins. Its last round is 2^(k+1) - 1 and pays tick 0; before it comes a
// round for each other tick.
pub fn first_round(k: u32, ticks: u32) -> RoundNumber
    requires { (k ≤ 20) × (0 < ticks) × (ticks ≤ 2 ^ k) }
    ensures { result.0 ≡ 2 ^ suc k - ticks }
{
    let last = power(k + 1) - 1;
    let first = last - (ticks - 1);
    RoundNumber(first)
}
