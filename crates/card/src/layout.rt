// How a card's record is read and written: docs/RULES.md, "Records".
ghost use Rattle.std.specs.Prelude.{◌≡◌, ◌++◌, ◌+◌, ◌≤◌, length};
ghost use Rattle.lists.specs.Writing.{over};
ghost use Rattle.card.specs.Record.{head_bytes, head_of, all_zero, laid_out};
ghost use Rattle.card.specs.Refused.{numbers, inspect_slots, inspect_of};
ghost use Rattle.card.specs.Judged.{judged};

use super::Head;
use super::checked::Checked;
use pebbling::RoundNumber;
use records::word;
use refusals::Refusal;

// Each card record begins with these two bytes.
const MARK: [u8; 2] = *b"\xB7\x01";

// Whether every byte is zero. No byte ends the fold early, so it runs over many at a time.
#[tactic(auto, unfolding(crate::specs::Record::all_zero))]
fn zeros(bytes: &[u8]) -> bool
    ensures { result ≡ all_zero bytes.now }
{
    bytes.iter().fold(0, |seen, b| seen | b) == 0
}

// The mark, and the bytes that are always zero.
#[tactic(auto, unfolding(crate::specs::Record::laid_out))]
fn laid_out(card: &[u8]) -> bool
    requires { 16 ≤ length card.now }
    ensures { result ≡ laid_out card.now }
{
    card.starts_with(&MARK) && zeros(&card[5..8]) && zeros(&card[12..16])
}

// What the first 16 bytes say, whatever it is.
#[tactic(auto, unfolding(crate::specs::Record::head_of))]
fn read_head(card: &[u8]) -> Head
    requires { 16 ≤ length card.now }
    ensures { result ≡ head_of card.now }
{
    let function = u32::from(card[2]);
    let schedule = u32::from(card[3]);
    let k = u32::from(card[4]);
    let round = RoundNumber(word(&card[8..12]));
    Head {
        function,
        schedule,
        k,
        round,
    }
}

// Refusals 1, 2 and 3.
#[tactic(auto, unfolding(crate::specs::Refused::numbers))]
pub fn check_numbers(head: Head) -> Result<Checked, Refusal>
    ensures { judged result ≡ numbers head }
{
    if !oneway::known(head.function) {
        return Err(Refusal::UnknownFunction);
    }
    if 20 < head.k {
        return Err(Refusal::TooManyTicks);
    }
    if 3 < head.schedule {
        return Err(Refusal::UnknownSchedule);
    }
    Ok(Checked { head })
}

// From the record's length on: its slots, its round and the slots that are free.
#[tactic(auto, unfolding(crate::specs::Refused::inspect_slots, crate::specs::Refused::in_range, crate::specs::Record::free_slots, crate::specs::Record::size))]
fn inspect_slots(card: &[u8], checked: Checked) -> Result<Checked, Refusal>
    ensures { judged result ≡ inspect_slots card.now checked.head }
{
    let end = 16 + checked.slots_size();
    if card.len() < end {
        return Err(Refusal::WrongLength);
    }
    let Head { k, round, .. } = checked.head;
    if round.0 == 0 {
        return Err(Refusal::BadRecord);
    }
    if pebbling::powers::power(k + 1) < round.0 {
        return Err(Refusal::BadRecord);
    }
    let from = 16 + checked.held_size();
    if !zeros(&card[from..end]) {
        return Err(Refusal::BadRecord);
    }
    Ok(checked)
}

// A card's record up to its free slots: what every call that is lent one looks at first.
#[tactic(auto, unfolding(crate::specs::Refused::inspect_of))]
pub fn inspect(card: &[u8]) -> Result<Checked, Refusal>
    ensures { judged result ≡ inspect_of card.now }
{
    if card.len() < 16 {
        return Err(Refusal::WrongLength);
    }
    if !laid_out(card) {
        return Err(Refusal::BadRecord);
    }
    let checked = check_numbers(read_head(card))?;
    inspect_slots(card, checked)
}

// A head as the first 16 bytes of its record.
#[tactic(auto, unfolding(crate::specs::Record::head_bytes))]
fn head_bytes(checked: Checked) -> [u8; 16]
    ensures { result ≡ head_bytes checked.head }
{
    let Head {
        function,
        schedule,
        k,
        round,
    } = checked.head;
    let r = records::word_bytes(round.0);
    [
        MARK[0],
        MARK[1],
        function as u8,
        schedule as u8,
        k as u8,
        0,
        0,
        0,
        r[0],
        r[1],
        r[2],
        r[3],
        0,
        0,
        0,
        0,
    ]
}

// Writes a head and the bytes of its slots to the front of a record.
pub fn put(checked: Checked, filled: &[u8], card: &mut [u8])
    requires { 16 + length filled.now ≤ length card.old }
    ensures { card.new ≡ over (head_bytes checked.head ++ filled.now) card.old }
{
    let bytes = head_bytes(checked);
    lists::copy(&bytes, card);
    lists::copy(filled, &mut card[16..]);
}
