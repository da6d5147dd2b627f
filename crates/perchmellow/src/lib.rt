// The calls for C and Rust: one function a call. Each hands what it is lent to the call of that name and answers the call's answer as
// one word: bits 0-7 the refusal's number, 0 for none; bits 8-15 a kind, 1 for a tick, a credit or a yes, else 0; bits 16-39 the first
// number (position, how many positions, ticks credited); bits 40-63 the second (hashes). `perchmellow_c` exports them under their names.
#![tactic(auto)]

ghost use Rattle.std.specs.Prelude.{◌≡◌, ◌≤◌};
ghost use Rattle.card.specs.Promises.{Started, Rebuilt, StartedTicks, Rounded, Anchored, AnchoredTicks};
ghost use Rattle.pebbling.specs.PositionList.{Positioned};
ghost use Rattle.post.specs.Promises.{Enrolled, Offered, Settled};
ghost use Rattle.perchmellow.specs.Fits.{Fits, RoundFits, PositionsFit, OfferFits};
ghost use Rattle.perchmellow.specs.Word.{packed as packed_of, refused_word, Exported};
ghost use Rattle.perchmellow.specs.Word.{done_word, round_word, positions_word, enrol_word, offer_word, settle_word};

use card::Outcome;
use pebbling::Listed;
use refusals::Refusal;

// ---- answers as words

// The kind is a number here, since C reads it out of the word as one.
fn packed(kind: u64, first: u32, second: u32) -> u64
    requires kind_bound { kind ≤ 1 }
    requires fits { Fits first second }
    ensures { result ≡ packed_of 0 kind first second }
{
    (kind << 8) | (u64::from(first) << 16) | (u64::from(second) << 40)
}

fn refused(why: Refusal) -> u64
    ensures { result ≡ refused_word why }
{
    u64::from(refusals::number(why))
}

// Start, rebuild, anchor and enrol have nothing to say but that they are done.
fn done_word(answer: Result<(), Refusal>) -> u64
    ensures { result ≡ done_word answer }
{
    answer.map_or_else(refused, |_| 0)
}

fn round_word(answer: Result<Outcome, Refusal>) -> u64
    requires { RoundFits answer }
    ensures { result ≡ round_word answer }
{
    answer.map_or_else(refused, |outcome| match outcome {
        Outcome::Quiet { hashes } => packed(0, 0, hashes),
        Outcome::Tick { position, hashes } => packed(1, position, hashes),
    })
}

fn positions_word(answer: Result<Listed, Refusal>) -> u64
    requires { PositionsFit answer }
    ensures { result ≡ positions_word answer }
{
    answer.map_or_else(refused, |listed| packed(0, listed.count, listed.hashes))
}

fn offer_word(answer: Result<u32, Refusal>) -> u64
    requires { OfferFits answer }
    ensures { result ≡ offer_word answer }
{
    answer.map_or_else(refused, |ticks| packed(1, ticks, 0))
}

fn settle_word(answer: Result<bool, Refusal>) -> u64
    ensures { result ≡ settle_word answer }
{
    answer.map_or_else(refused, |yes| if yes { 256 } else { 0 })
}

// ---- the calls

// card::start, for C and Rust.
pub fn perchmellow_start(function: u32, k: u32, schedule: u32, seed: &[u8], card: &mut [u8]) -> u64
    ensures { Exported done_word (λ a. Started function k schedule seed.now card.old a card.new) result }
{
    done_word(card::start(function, k, schedule, seed, card))
}

// card::rebuild, for C and Rust.
pub fn perchmellow_rebuild(
    function: u32,
    k: u32,
    schedule: u32,
    round: u32,
    seed: &[u8],
    card: &mut [u8],
) -> u64
    ensures { Exported done_word (λ a. Rebuilt function k schedule round seed.now card.old a card.new) result }
{
    done_word(card::rebuild(function, k, schedule, round, seed, card))
}

// card::start_ticks, for C and Rust.
pub fn perchmellow_start_ticks(
    function: u32,
    ticks: u32,
    schedule: u32,
    seed: &[u8],
    card: &mut [u8],
) -> u64
    ensures { Exported done_word (λ a. StartedTicks function ticks schedule seed.now card.old a card.new) result }
{
    done_word(card::start_ticks(function, ticks, schedule, seed, card))
}

// card::round, for C and Rust.
pub fn perchmellow_round(card: &mut [u8], out: &mut [u8]) -> u64
    ensures { Exported round_word (λ a. Rounded card.old out.old a card.new out.new) result }
{
    round_word(card::round(card, out))
}

// pebbling::positions, for C and Rust.
pub fn perchmellow_positions(k: u32, schedule: u32, round: u32, list: &mut [u32]) -> u64
    ensures { Exported positions_word (λ a. Positioned k schedule round list.old a list.new) result }
{
    positions_word(pebbling::positions(k, schedule, round, list))
}

// card::anchor, for C and Rust.
pub fn perchmellow_anchor(function: u32, k: u32, seed: &[u8], out: &mut [u8]) -> u64
    ensures { Exported done_word (λ a. Anchored (record { function = function }) k seed.now out.old a out.new) result }
{
    done_word(card::anchor(function, k, seed, out))
}

// card::anchor_ticks, for C and Rust.
pub fn perchmellow_anchor_ticks(function: u32, ticks: u32, seed: &[u8], out: &mut [u8]) -> u64
    ensures { Exported done_word (λ a. AnchoredTicks (record { function = function }) ticks seed.now out.old a out.new) result }
{
    done_word(card::anchor_ticks(function, ticks, seed, out))
}

// post::enrol, for C and Rust.
pub fn perchmellow_enrol(function: u32, k: u32, anchor: &[u8], post: &mut [u8]) -> u64
    ensures { Exported enrol_word (λ a. Enrolled function k anchor.now post.old a post.new) result }
{
    done_word(post::enrol(function, k, anchor, post))
}

// post::offer, for C and Rust.
pub fn perchmellow_offer(post: &mut [u8], value: &[u8], gap: u32) -> u64
    ensures { Exported offer_word (λ a. Offered post.old value.now gap a post.new) result }
{
    offer_word(post::offer(post, value, gap))
}

// post::settle, for C and Rust.
pub fn perchmellow_settle(function: u32, k: u32, anchor: &[u8], last: &[u8], paid: u32) -> u64
    ensures { Exported settle_word (Settled function k anchor.now last.now paid) result }
{
    settle_word(post::settle(function, k, anchor, last, paid))
}
