// What a card holds before a round and hashes in it, in numbers only: no value of the chain is looked at.
// `hashes` has one pebbler's schedule and the hashes that it has done, `held` counts the values of all the
// pebblers that run, and `positions` below is the position list. Each costs time by k and never by 2^k.
//
// Schedule and k are numbers, and their bounds stand in each clause: the definitions are over numbers, calls and records' bytes carry them,
// and a type would ask more of who calls these functions.
#![tactic(auto)]

ghost use Rattle.std.specs.Prelude.{suc, ◌^◌, ◌≤◌};
ghost use Rattle.pebbling.specs.Promises.{Left};
ghost use Rattle.pebbling.specs.PositionList.{Positioned};

use refusals::Refusal;

pub mod hashes;
pub mod held;
mod position_list;
pub mod powers;

// A round of a pebbler, counted from 1. The rounds of P_k are 1 to 2^(k+1) - 1.
#[derive(Clone, Copy, Debug, PartialEq, Eq, PartialOrd, Ord)]
pub struct RoundNumber(pub u32);

// The rounds that a pebbler has not run yet, counted down to 0.
#[derive(Clone, Copy, Debug, PartialEq, Eq, PartialOrd, Ord)]
pub struct RoundsLeft(pub u32);

// Before round r of P_k: 2^(k+1) - r rounds are left. The one way from the one count to the other.
pub fn rounds_left(k: u32, round: RoundNumber) -> RoundsLeft
    requires { (k ≤ 20) × (round.0 ≤ 2 ^ suc k) }
    ensures { Left k round.0 result.0 }
{
    let r = round.0;
    let left = powers::power(k + 1) - r;
    RoundsLeft(left)
}

// The positions of the longest list: no k and schedule have more.
pub const MOST_POSITIONS: usize = 38;

// What the position list answers where it refuses nothing: how many positions were written, since C lends the list, and the hashes of the
// round.
#[derive(Clone, Copy, Debug, PartialEq, Eq)]
pub struct Listed {
    pub count: u32,
    pub hashes: u32,
}

// The position list: writes the positions that a card of 2^k ticks holds before `round` to the front of
// `list`, in falling order. Refuses k over 20 (2), a schedule over 3 (3), a round that is not from 1 to
// 2^(k+1) (5), and a list with fewer entries than positions (4), in this order, and then changes nothing.
// Entries behind the positions stay.
pub fn positions(k: u32, schedule: u32, round: u32, list: &mut [u32]) -> Result<Listed, Refusal>
    ensures { Positioned k schedule round list.old result list.new }
{
    if 20 < k {
        return Err(Refusal::TooManyTicks);
    }
    if 3 < schedule {
        return Err(Refusal::UnknownSchedule);
    }
    let round = RoundNumber(round);
    if round.0 == 0 {
        return Err(Refusal::BadRecord);
    }
    let end = powers::power(k + 1);
    if end < round.0 {
        return Err(Refusal::BadRecord);
    }
    if round.0 == end {
        return Ok(Listed {
            count: 0,
            hashes: 0,
        });
    }
    // Aside first: how many there are is known then, and a list that is too short stays as it is.
    let mut aside = [0u32; MOST_POSITIONS];
    let listed = position_list::list_all(schedule, k, round, 0, 0, &mut aside);
    let entries = listed.end;
    if list.len() < entries {
        return Err(Refusal::WrongLength);
    }
    lists::copy(&aside[..entries], list);
    let count = entries as u32;
    Ok(Listed {
        count,
        hashes: listed.hashes,
    })
}
