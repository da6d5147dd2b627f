// The numbers said at the counter. Every call of the card and of the post that turns its input down
// answers one of these cases, and `number` gives what the counter says of it.
#![tactic(auto)]

ghost use Rattle.std.specs.Prelude.{◌≡◌};
ghost use Rattle.refusals.specs.Numbers.{number_of};

#[derive(Clone, Copy, Debug, PartialEq, Eq)]
pub enum Refusal {
    // The function number names no one-way function.
    UnknownFunction = 1,
    // k is over 20.
    TooManyTicks = 2,
    // The schedule number is over 3.
    UnknownSchedule = 3,
    // A seed, anchor or value is not of the function's width, or a record, list or out buffer is too short.
    WrongLength = 4,
    // A record is not as laid out, or a round number or paid count is out of its range.
    BadRecord = 5,
    // The card has no round left, or the post is paid in full.
    Spent = 6,
    // The gap limit is not from 1 to 64.
    BadGap = 7,
    // After the round more values would be held than the record has slots.
    NoRoom = 8,
    // No number of steps within the gap limit and the unpaid ticks leads to the value held.
    NotTaken = 9,
    // The ticks that a card is to have are not from 1 to 1,048,576.
    BadTicks = 10,
}

// The number that the counter says for a refusal, from 1 up; docs/RULES.md has the table.
pub fn number(refusal: Refusal) -> u32
    ensures { result ≡ number_of refusal }
{
    refusal as u32
}
