// The card: a record of a chain's values, which a round moves on by the published recursion, and the calls on it. `layout` reads and
// writes the record, and `checked` has what a head says of its record. The attributes before functions name the definitions that the check
// opens to find a proof.
#![tactic(auto)]

ghost use Rattle.std.specs.Prelude.{◌≡◌, ◌≤◌, ◌<◌, T};
ghost use Rattle.lists.specs.Writing.{over};
ghost use Rattle.card.specs.Record.{card_bytes};
ghost use Rattle.oneway.specs.Step.{known};
ghost use Rattle.card.specs.Promises.{Started, Rebuilt, StartedTicks, Rounded, Anchored, AnchoredTicks};
ghost use Rattle.card.specs.Sound.{Sound};
ghost use Rattle.card.specs.Steps.{elements_at, Layable, Beginning, Begun, Running, Turned, Payable, Paid, ElementPut};

use checked::Checked;
use oneway::Chain;
use pebbling::RoundNumber;
use refusals::Refusal;

mod checked;
mod layout;

// The slots of the largest record: no k and schedule ask for more than 38, and no function's values are wider than 16 bytes. An array of so
// many is used up to a record's own slots, since nothing here asks for memory.
const MOST: usize = 608;

// What the first 16 bytes of a record say: the chain's function, the schedule, k, and the next round.
// Function and schedule are numbers, no enums, since a record may say any, which `layout::check_numbers` then refuses.
#[derive(Clone, Copy, Debug, PartialEq, Eq)]
pub struct Head {
    pub function: u32,
    pub schedule: u32,
    pub k: u32,
    pub round: RoundNumber,
}

// What a round that is not refused comes to: quiet or a tick with its position, and the hashes done. An enum, since the rules name the form:
// who reads it takes the tick apart by let-else, and quiet goes to the other branch.
#[derive(Clone, Copy, Debug, PartialEq, Eq)]
pub enum Outcome {
    Quiet { hashes: u32 },
    Tick { position: u32, hashes: u32 },
}

// A record with the chain's values at these positions from slot 0 on. The slots are made as zeros, so those behind the values are free.
#[tactic(auto, unfolding(crate::specs::Record::size))]
fn lay(checked: Checked, held: &[u32], seed: &[u8], card: &mut [u8])
    requires { Layable checked.head held.now seed.now card.old }
    ensures { card.new ≡ over (card_bytes checked.head (elements_at held.now seed.now checked.head)) card.old }
{
    let n = checked.slots_size();
    let mut slots = [0u8; MOST];
    refill::refill(checked.chain(), seed, held, &mut slots);
    layout::put(checked, &slots[..n], card);
}

// What start and rebuild come to once their numbers are checked: refusal 4, where the seed has not the chain's width or the record no room
// for its slots, or the record.
#[tactic(auto, unfolding(crate::specs::Refused::room_for, crate::specs::Record::size))]
fn begin(checked: Checked, held: &[u32], seed: &[u8], card: &mut [u8]) -> Result<(), Refusal>
    requires { Beginning checked.head held.now }
    ensures { Begun checked.head held.now seed.now card.old result card.new }
{
    if seed.len() != checked.width() {
        return Err(Refusal::WrongLength);
    }
    let end = 16 + checked.slots_size();
    if card.len() < end {
        return Err(Refusal::WrongLength);
    }
    lay(checked, held, seed, card);
    Ok(())
}

// Lays out a card of 2^k ticks in the lent record, to begin with round 1. Refuses an unknown function (1), k over 20 (2), a schedule
// over 3 (3), and a seed not of the function's width or a record that is too short (4), in this order. Bytes behind the record stay.
#[tactic(auto, unfolding(crate::specs::Promises::start_must_say, crate::specs::Promises::start_card, crate::specs::Refused::start_judged))]
pub fn start(
    function: u32,
    k: u32,
    schedule: u32,
    seed: &[u8],
    card: &mut [u8],
) -> Result<(), Refusal>
    ensures { Started function k schedule seed.now card.old result card.new }
{
    let round = RoundNumber(1);
    let head = Head {
        function,
        schedule,
        k,
        round,
    };
    let checked = layout::check_numbers(head)?;
    // Before round 1 position 0 is held: the seed.
    begin(checked, &[0], seed, card)
}

// Lays out, in the lent record, a card of 2^k ticks as it is before a round from 1 to 2^(k+1): the very record that a start and the
// rounds before that one leave. It goes once along the chain, up to the highest position that is held. Refuses an unknown function (1),
// k over 20 (2), a schedule over 3 (3), a round out of its range (5), and a seed not of the function's width or a record that is too
// short (4), in this order. Bytes behind the record stay.
#[tactic(auto, unfolding(crate::specs::Promises::rebuild_must_say, crate::specs::Promises::rebuild_card, crate::specs::Refused::rebuild_judged, crate::specs::Refused::numbers))]
pub fn rebuild(
    function: u32,
    k: u32,
    schedule: u32,
    round: u32,
    seed: &[u8],
    card: &mut [u8],
) -> Result<(), Refusal>
    ensures { Rebuilt function k schedule round seed.now card.old result card.new }
{
    if !oneway::known(function) {
        return Err(Refusal::UnknownFunction);
    }
    // The position list makes the tests of k, schedule and round, in this order; what it is lent is long enough for any.
    let mut held = [0u32; pebbling::MOST_POSITIONS];
    let listed = pebbling::positions(k, schedule, round, &mut held)?;
    let round = RoundNumber(round);
    let head = Head {
        function,
        schedule,
        k,
        round,
    };
    let end = listed.count as usize;
    begin(Checked { head }, &held[..end], seed, card)
}

// Lays out a card of so many ticks in the lent record: k is the least with 2^k at least the ticks, and the card begins with round
// 2^(k+1) - ticks, so that every round pays one. Refuses an unknown function (1), a schedule over 3 (3), ticks that are not from 1 to
// 1,048,576 (10), and a seed not of the function's width or a record that is too short (4), in this order. Bytes behind the record stay.
// C has both this call and `start`; what they share is `begin`.
#[tactic(auto, unfolding(crate::specs::Promises::start_ticks_must_say, crate::specs::Promises::start_ticks_card, crate::specs::Refused::start_ticks_judged))]
pub fn start_ticks(
    function: u32,
    ticks: u32,
    schedule: u32,
    seed: &[u8],
    card: &mut [u8],
) -> Result<(), Refusal>
    ensures { StartedTicks function ticks schedule seed.now card.old result card.new }
{
    if !oneway::known(function) {
        return Err(Refusal::UnknownFunction);
    }
    if 3 < schedule {
        return Err(Refusal::UnknownSchedule);
    }
    if !levels::allowed(ticks) {
        return Err(Refusal::BadTicks);
    }
    let k = levels::level(ticks);
    let first = levels::first_round(k, ticks);
    rebuild(function, k, schedule, first.0, seed, card)
}

// What the round answers, and its tick: from round 2^k on the first slot is put out, and its position is the number of rounds left
// after this one.
fn pay(checked: Checked, hashes: u32, slots: &[u8], out: &mut [u8]) -> Outcome
    requires { Payable checked.head slots.now out.old }
    ensures { Paid checked.head hashes slots.now out.old result out.new }
{
    let Head { k, round, .. } = checked.head;
    if round.0 < pebbling::powers::power(k) {
        return Outcome::Quiet { hashes };
    }
    let w = checked.width();
    lists::copy(&slots[..w], out);
    let left = pebbling::rounds_left(k, round);
    let position = left.0 - 1;
    Outcome::Tick { position, hashes }
}

// The round on the slots: from the record into a scratch that is made as zeros, so that the slots behind the values come out free. Only
// then is anything written: the tick, and the record with its slots and the next round.
#[tactic(auto, unfolding(crate::specs::Record::size))]
fn run(checked: Checked, card: &mut [u8], out: &mut [u8]) -> Result<Outcome, Refusal>
    requires { Running checked.head card.old out.old }
    ensures { Turned checked.head card.old out.old result card.new out.new }
{
    let n = checked.slots_size();
    let end = 16 + n;
    let Head {
        schedule,
        k,
        round,
        ..
    } = checked.head;
    let mut next = [0u8; MOST];
    let moved = slots::advance(
        checked.chain(),
        schedule,
        k,
        round,
        &card[16..end],
        &mut next,
    );
    if n < moved.written {
        return Err(Refusal::NoRoom);
    }
    let outcome = pay(checked, moved.hashes, &card[16..end], out);
    layout::put(checked.later(), &next[..n], card);
    Ok(outcome)
}

// Refusals 6 and 4 of a card that has passed inspection, and then its round.
#[tactic(auto, unfolding(crate::specs::Refused::ready))]
fn turn(checked: Checked, card: &mut [u8], out: &mut [u8]) -> Result<Outcome, Refusal>
    requires { Sound card.old checked.head }
    ensures { Turned checked.head card.old out.old result card.new out.new }
{
    let Head { k, round, .. } = checked.head;
    let end = pebbling::powers::power(k + 1);
    let wide = checked.width();
    if round.0 == end {
        return Err(Refusal::Spent);
    }
    if out.len() < wide {
        return Err(Refusal::WrongLength);
    }
    run(checked, card, out)
}

// Runs one round of the card in the lent record. A tick goes to the front of the out buffer; a quiet round leaves it alone. Refuses,
// in this order: a record of fewer than 16 bytes (4), one without the mark or its zero bytes (5), an unknown function (1), k over 20
// (2), a schedule over 3 (3), a record too short for its slots (4), a round out of its range or a free slot that is not zero (5), a
// card with no round left (6), an out buffer too short for a value (4), and more values after the round than slots (8).
#[tactic(auto, unfolding(crate::specs::Promises::round_must_say, crate::specs::Promises::round_card, crate::specs::Promises::round_out, crate::specs::Refused::round_judged))]
pub fn round(card: &mut [u8], out: &mut [u8]) -> Result<Outcome, Refusal>
    ensures { Rounded card.old out.old result card.new out.new }
{
    let checked = layout::inspect(card)?;
    turn(checked, card, out)
}

// The chain's element n, at the front of the out buffer, or refusal 4 for the seed's width or a short out buffer.
fn put_element(chain: Chain, n: u32, seed: &[u8], out: &mut [u8]) -> Result<(), Refusal>
    requires { T (known chain.function) }
    ensures { ElementPut chain n seed.now out.old result out.new }
{
    let w = oneway::width(chain);
    if seed.len() != w {
        return Err(Refusal::WrongLength);
    }
    if out.len() < w {
        return Err(Refusal::WrongLength);
    }
    lists::copy(seed, out);
    records::walk(chain, n, &mut out[..w]);
    Ok(())
}

// Writes the anchor of a card of 2^k ticks, the chain's element 2^k from the seed, to the front of the out buffer. Refuses an unknown
// function (1), k over 20 (2), and a seed not of the function's width or an out buffer that is too short (4), in this order.
#[tactic(auto, unfolding(crate::specs::Promises::anchor_must_say, crate::specs::Promises::anchor_out, crate::specs::Refused::anchor_judged))]
pub fn anchor(function: u32, k: u32, seed: &[u8], out: &mut [u8]) -> Result<(), Refusal>
    ensures { Anchored (record { function = function }) k seed.now out.old result out.new }
{
    if !oneway::known(function) {
        return Err(Refusal::UnknownFunction);
    }
    if 20 < k {
        return Err(Refusal::TooManyTicks);
    }
    let chain = Chain { function };
    put_element(chain, pebbling::powers::power(k), seed, out)
}

// Writes the anchor of a card of so many ticks, the chain's element of that number, to the front of the out buffer. Refuses an unknown
// function (1), ticks that are not from 1 to 1,048,576 (10), and a seed not of the function's width or an out buffer that is too short
// (4), in this order.
// C has both this call and `anchor`; what they share is `put_element`.
#[tactic(auto, unfolding(crate::specs::Promises::anchor_ticks_must_say, crate::specs::Promises::anchor_ticks_out, crate::specs::Refused::anchor_ticks_judged))]
pub fn anchor_ticks(function: u32, ticks: u32, seed: &[u8], out: &mut [u8]) -> Result<(), Refusal>
    ensures { AnchoredTicks (record { function = function }) ticks seed.now out.old result out.new }
{
    if !oneway::known(function) {
        return Err(Refusal::UnknownFunction);
    }
    if !levels::allowed(ticks) {
        return Err(Refusal::BadTicks);
    }
    let chain = Chain { function };
    put_element(chain, ticks, seed, out)
}
