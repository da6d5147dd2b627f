// The lines of a card's rounds. Each round is run on the card, and its line tells what the round answered.
ghost use Rattle.std.specs.Prelude.{◌≡◌, suc, ◌+◌, ◌-◌, ◌^◌, ◌≤◌, length};
ghost use Rattle.pebbling.specs.Recursion.{schedule as schedule_of, work, total as total_of};
ghost use Rattle.listing.specs.Listing.{position_list, held_fields, round_line, round_lines};
ghost use Rattle.listing.specs.Steps.{Put, answer_line, answer_hashes, Round, card_before};

use super::text::Page;
use card::Outcome;
use pebbling::RoundNumber;
use refusals::Refusal;

// Positions, joined by commas, and a space behind the last.
fn put_positions(list: &[u32], page: &mut Page<'_>)
    requires { page.old.at + length (position_list list.now) ≤ length page.old.text.now }
    ensures { Put (position_list list.now) page.old page.new }
{
    let Some((last, others)) = list.split_last() else {
        return;
    };
    for position in others {
        page.put_field(*position, b',');
    }
    page.put_field(*last, b' ');
}

// A round's line but for its last field.
fn put_held(round: RoundNumber, hashes: u32, list: &[u32], page: &mut Page<'_>)
    requires { (length list.now ≤ 18) × (page.old.at + length (held_fields round.0 hashes list.now) ≤ length page.old.text.now) }
    ensures { Put (held_fields round.0 hashes list.now) page.old page.new }
{
    page.put_field(round.0, b' ');
    page.put_field(hashes, b' ');
    page.put_field(list.len() as u32, b' ');
    put_positions(list, page);
}

// The line of a round, by its answer: a quiet round's ends in "-", and a tick's in its position. Answers the hashes that it tells of. The
// rules name this form (docs/READING.md): the tick is taken apart, and quiet goes to the other branch. A round that is refused has no line.
fn put_answer(
    round: RoundNumber,
    list: &[u32],
    answer: Result<Outcome, Refusal>,
    page: &mut Page<'_>,
) -> u32
    requires { (length list.now ≤ 18) × (page.old.at + length (answer_line round.0 list.now answer) ≤ length page.old.text.now) }
    ensures line { Put (answer_line round.0 list.now answer) page.old page.new }
    ensures hashes { result ≡ answer_hashes answer }
{
    let Ok(Outcome::Tick { position, hashes }) = answer else {
        let Ok(Outcome::Quiet { hashes }) = answer else {
            return 0;
        };
        put_held(round, hashes, list, page);
        page.put(b"-\n");
        return hashes;
    };
    put_held(round, hashes, list, page);
    page.put_field(position, b'\n');
    hashes
}

// Asks for the positions, runs the card's round and writes its line. With k up to 10 no card holds more than 18 values.
fn put_round(schedule: u32, k: u32, round: RoundNumber, card: &mut [u8], page: &mut Page<'_>) -> u32
    requires round { Round schedule k round.0 }
    requires card_value { card.old ≡ card_before schedule k round.0 }
    requires round_in_bounds { page.old.at + length (round_line schedule k round.0) ≤ length page.old.text.now }
    ensures line { Put (round_line schedule k round.0) page.old page.new }
    ensures hashes { result ≡ work (schedule_of schedule) k round.0 }
    ensures card_after { card.new ≡ card_before schedule k (suc round.0) }
{
    // Room for the most, since nothing here asks for memory.
    let mut list = [0u32; 18];
    let listed = pebbling::positions(k, schedule, round.0, &mut list).unwrap();
    let mut out = [0u8; 16];
    let answer = card::round(card, &mut out);
    put_answer(round, &list[..listed.count as usize], answer, page)
}

// All rounds of the card. The hashes are summed over the rounds' own answers.
pub fn put_rounds(schedule: u32, k: u32, card: &mut [u8], page: &mut Page<'_>) -> u32
    requires schedule_bound { (schedule ≤ 3) × (k ≤ 10) }
    requires card_value { card.old ≡ card_before schedule k 1 }
    requires at_bound { (page.old.at ≤ 1000) × (length page.old.text.now ≡ 262144) }
    ensures lines { Put (round_lines schedule k (2 ^ suc k - 1)) page.old page.new }
    ensures hashes { result ≡ total_of (work (schedule_of schedule) k) (2 ^ suc k - 1) }
{
    let stop = pebbling::powers::power(k + 1);
    let mut total: u32 = 0;
    for round in 1..stop {
        total += put_round(schedule, k, RoundNumber(round), card, page);
    }
    total
}
