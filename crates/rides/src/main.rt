// Whole rides: a card is run to its end against a post that is offered every tick, with a gap limit of 1. A ride is over when something
// is refused; a card of 2^k ticks has 2^(k+1) - 1 rounds and says 6 to the next, one of n ticks has n. Each line has what was refused
// and when, the ticks that the post credited, all hashes, the most in a paying round, the most values held before a round, what settle
// says of the post's record, and what the post says when it is offered the last tick again: 6 where 2^k are paid. Behind the rides
// stand cards beside which a rebuild was made before some rounds, with how many of those records were the same.
#![tactic(auto)]

use card::Outcome;
use pebbling::RoundNumber;
use printing::{print_number, print_schedule};
use refusals::Refusal;
use std::io;

const SEED: [u8; 16] = *b"perchmellow seed";

// The bytes of the largest card record.
const CARD: usize = 624;

// The bytes of a post record.
const POST: usize = 40;

// The rounds of the largest card, with the one that it refuses.
const ROUNDS: u32 = 2_097_152;

// The card beside which rebuilds are made has 2^10 ticks.
const BESIDE_K: u32 = 10;

// The rounds before which they are made: preparing rounds, the first, middle and last of them; paying rounds, likewise; and 2^11, where
// the card is spent.
const BESIDE: [u32; 21] = [
    1, 2, 3, 257, 511, 512, 513, 768, 1022, 1023, 1024, 1025, 1026, 1279, 1535, 1536, 1537, 1792,
    2046, 2047, 2048,
];

// What the card and the rebuilds are lent: bytes that are not zero, so that free slots and what is behind the record show.
const LENT: [u8; CARD] = [255u8; CARD];

// The figures of a ride so far. A ride has some ten million hashes at most, so that no sum wraps.
#[derive(Clone, Copy, Debug, PartialEq, Eq, Default)]
struct Ride {
    credited: u32,
    hashes: u32,
    most: u32,
    held: u32,
}

fn says(rt: &impl Print, who: &str, why: Refusal) -> io::Result<()> {
    print!(rt; ", {who} says ")?;
    print_number(rt, refusals::number(why))
}

// Something was refused: the ride does not go on.
fn over(rt: &impl Print, who: &str, why: Refusal) -> io::Result<Option<Ride>> {
    says(rt, who, why)?;
    Ok(None)
}

// A tick is offered to the post.
fn pay(
    rt: &impl Print,
    ride: Ride,
    hashes: u32,
    tick: &[u8; 16],
    post: &mut [u8; POST],
) -> io::Result<Option<Ride>> {
    match post::offer(post, tick, 1) {
        Err(why) => over(rt, "post", why),
        Ok(ticks) => Ok(Some(Ride {
            credited: ride.credited.wrapping_add(ticks),
            hashes: ride.hashes.wrapping_add(hashes),
            most: ride.most.max(hashes),
            ..ride
        })),
    }
}

// A round of the card, and of the post where there is a tick.
fn run_round(
    rt: &impl Print,
    ride: Ride,
    card: &mut [u8; CARD],
    post: &mut [u8; POST],
) -> io::Result<Option<Ride>> {
    let mut out = [0u8; 16];
    match card::round(card, &mut out) {
        Err(why) => over(rt, "card", why),
        Ok(Outcome::Tick { hashes, .. }) => pay(rt, ride, hashes, &out, post),
        Ok(Outcome::Quiet { hashes }) => Ok(Some(Ride {
            hashes: ride.hashes.wrapping_add(hashes),
            ..ride
        })),
    }
}

// The position list is asked how much is held before a round.
fn count_held(
    rt: &impl Print,
    ride: Ride,
    k: u32,
    schedule: u32,
    round: RoundNumber,
) -> io::Result<Option<Ride>> {
    let mut list = [0u32; pebbling::MOST_POSITIONS];
    match pebbling::positions(k, schedule, round.0, &mut list) {
        Err(why) => over(rt, "position list", why),
        Ok(listed) => Ok(Some(Ride {
            held: ride.held.max(listed.count),
            ..ride
        })),
    }
}

// The card's next round, by its record.
fn next_round(card: &[u8; CARD]) -> RoundNumber {
    RoundNumber(u32::from_le_bytes([card[8], card[9], card[10], card[11]]))
}

// All rounds, up to the first refusal.
fn run_rounds(
    rt: &impl Print,
    k: u32,
    schedule: u32,
    card: &mut [u8; CARD],
    post: &mut [u8; POST],
) -> io::Result<Ride> {
    let mut ride = Ride::default();
    let mut rounds: u32 = 0;
    for round in 1..=ROUNDS {
        let next = next_round(card);
        let Some(counted) = count_held(rt, ride, k, schedule, next)? else {
            break;
        };
        let Some(after) = run_round(rt, counted, card, post)? else {
            break;
        };
        ride = after;
        rounds = round;
    }
    print!(rt; " after {rounds} rounds")?;
    Ok(ride)
}

// Whether a call was not refused, and who refused it.
fn agrees(rt: &impl Print, call: &str, answer: Result<(), Refusal>) -> io::Result<bool> {
    if let Err(why) = answer {
        says(rt, call, why)?;
    }
    Ok(answer.is_ok())
}

fn print_settled(rt: &impl Print, answer: Result<bool, Refusal>) -> io::Result<()> {
    match answer {
        Err(why) => says(rt, "settle", why),
        Ok(true) => print!(rt; ", settle says yes"),
        Ok(false) => print!(rt; ", settle says no"),
    }
}

// What settle says of the post's value held and its ticks paid.
fn settle(
    rt: &impl Print,
    function: u32,
    k: u32,
    anchor: &[u8; 16],
    post: &[u8; POST],
) -> io::Result<()> {
    let paid = u32::from_le_bytes([post[4], post[5], post[6], post[7]]);
    print_settled(rt, post::settle(function, k, anchor, &post[24..40], paid))?;
    print!(rt; " to {paid} paid")
}

// What the post says to its value held, the last tick: 0 where it takes it.
fn offer_again(rt: &impl Print, post: &[u8; POST]) -> io::Result<()> {
    let mut again = *post;
    match post::offer(&mut again, &post[24..40], 1) {
        Err(why) => says(rt, "post", why)?,
        Ok(_) => print!(rt; ", post says 0")?,
    }
    print!(rt; " to the last tick again")
}

fn print_figures(rt: &impl Print, ride: Ride) -> io::Result<()> {
    let Ride {
        credited,
        hashes,
        most,
        held,
    } = ride;
    print!(rt; ": {credited} ticks credited, {hashes} hashes")?;
    print!(rt; ", at most {most} in a paying round, at most {held} values held")
}

// The function and the schedule of a card, by the numbers that the calls take. The card and the post that it rides with are lent beside it, since a ride changes
// both and reads them apart.
#[derive(Clone, Copy, Debug, PartialEq, Eq)]
struct Kind {
    function: u32,
    schedule: u32,
}

impl Kind {
    fn print_head(self, rt: &impl Print) -> io::Result<()> {
        let function = self.function;
        print!(rt; "function {function}, ")?;
        print_schedule(rt, self.schedule)
    }

    // A post is enrolled for a card, and the ride is run.
    fn run_ride(
        self,
        rt: &impl Print,
        k: u32,
        anchor: &[u8; 16],
        card: &mut [u8; CARD],
    ) -> io::Result<()> {
        let mut post = [0u8; POST];
        let enrolled = post::enrol(self.function, k, anchor, &mut post);
        if agrees(rt, "enrol", enrolled)? {
            print_figures(rt, run_rounds(rt, k, self.schedule, card, &mut post)?)?;
            settle(rt, self.function, k, anchor, &post)?;
            offer_again(rt, &post)?;
        }
        Ok(())
    }

    // A card of 2^k ticks.
    fn run(self, rt: &impl Print, k: u32) -> io::Result<()> {
        let mut anchor = [0u8; 16];
        let mut card = [0u8; CARD];
        self.print_head(rt)?;
        print!(rt; ", k = {k}")?;
        let told = card::anchor(self.function, k, &SEED, &mut anchor);
        agrees(rt, "anchor", told)?;
        let started = card::start(self.function, k, self.schedule, &SEED, &mut card);
        agrees(rt, "start", started)?;
        self.run_ride(rt, k, &anchor, &mut card)?;
        println!(rt)
    }

    // A card of n ticks, with a post for the k that stands in the card's record. One that is refused has no k to ride with.
    fn run_ticks(self, rt: &impl Print, ticks: u32) -> io::Result<()> {
        let mut anchor = [0u8; 16];
        let mut card = [0u8; CARD];
        self.print_head(rt)?;
        print!(rt; ", ticks = {ticks}")?;
        let told = card::anchor_ticks(self.function, ticks, &SEED, &mut anchor);
        agrees(rt, "anchor", told)?;
        let started = card::start_ticks(self.function, ticks, self.schedule, &SEED, &mut card);
        if agrees(rt, "start", started)? {
            let k = u32::from(card[4]);
            print!(rt; ", k = {k}")?;
            self.run_ride(rt, k, &anchor, &mut card)?;
        }
        println!(rt)
    }

    // Whether a rebuild before a round leaves the very bytes of the card that was run there.
    fn rebuilds(self, rt: &impl Print, round: u32, card: &[u8; CARD]) -> io::Result<bool> {
        let mut rebuilt = LENT;
        let answer = card::rebuild(
            self.function,
            BESIDE_K,
            self.schedule,
            round,
            &SEED,
            &mut rebuilt,
        );
        Ok(agrees(rt, "rebuild", answer)? && rebuilt == *card)
    }

    // A card is run to its end, and rebuilds are made beside it: how many left its bytes.
    fn count_rebuilt(self, rt: &impl Print, card: &mut [u8; CARD]) -> io::Result<u32> {
        let mut count: u32 = 0;
        for round in BESIDE {
            run_up_to(round, card);
            if self.rebuilds(rt, round, card)? {
                count = count.saturating_add(1);
            }
        }
        Ok(count)
    }

    fn run_beside(self, rt: &impl Print) -> io::Result<()> {
        let mut card = LENT;
        self.print_head(rt)?;
        print!(rt; ", k = {BESIDE_K}")?;
        let started = card::start(self.function, BESIDE_K, self.schedule, &SEED, &mut card);
        agrees(rt, "start", started)?;
        let count = self.count_rebuilt(rt, &mut card)?;
        println!(rt; ", rebuilt before 21 rounds from 1 to 2048: {count} the same")
    }

    // A rebuild before a round that the card does not have.
    fn rebuild_refused(self, rt: &impl Print, round: u32) -> io::Result<()> {
        self.print_head(rt)?;
        print!(rt; ", k = 10, round {round}")?;
        self.rebuilds(rt, round, &LENT)?;
        println!(rt)
    }
}

// Rounds of a card, until the next is this one.
fn run_up_to(round: u32, card: &mut [u8; CARD]) {
    for _ in 0..round {
        if next_round(card).0 < round {
            let mut out = [0u8; 16];
            let _ = card::round(card, &mut out);
        }
    }
}

fn run_function(rt: &impl Print, function: u32) -> io::Result<()> {
    for (schedule, k) in [
        (3, 15),
        (3, 16),
        (3, 20),
        (0, 15),
        (1, 15),
        (2, 15),
        (3, 21),
    ] {
        Kind { function, schedule }.run(rt, k)?;
    }
    Ok(())
}

fn run_function_ticks(rt: &impl Print, function: u32) -> io::Result<()> {
    for (schedule, ticks) in [
        (3, 0),
        (3, 1_048_577),
        (3, 1),
        (3, 2),
        (3, 3),
        (3, 300),
        (1, 300),
        (3, 65_537),
    ] {
        Kind { function, schedule }.run_ticks(rt, ticks)?;
    }
    Ok(())
}

fn run_function_beside(rt: &impl Print, function: u32) -> io::Result<()> {
    for schedule in 0..4 {
        Kind { function, schedule }.run_beside(rt)?;
    }
    let optimal = Kind {
        function,
        schedule: 3,
    };
    optimal.rebuild_refused(rt, 0)?;
    optimal.rebuild_refused(rt, 2049)
}

fn main(rt: HostRuntime) -> io::Result<()> {
    run_function(&rt, 0)?;
    run_function(&rt, 1)?;
    run_function_ticks(&rt, 0)?;
    let optimal = Kind {
        function: 0,
        schedule: 3,
    };
    optimal.run_ticks(&rt, 1_048_575)?;
    run_function_ticks(&rt, 1)?;
    run_function_beside(&rt, 0)?;
    run_function_beside(&rt, 1)
}
