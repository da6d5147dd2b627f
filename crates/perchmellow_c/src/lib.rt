// The library for C and Rust: each call of `perchmellow`, exported under its own name. include/perchmellow.h declares them.
// C asks for these arguments and words, and each clause stands here again since an export promises what its own clause says.
#![tactic(auto)]

ghost use Rattle.card.specs.Promises.{Started, Rebuilt, StartedTicks, Rounded, Anchored, AnchoredTicks};
ghost use Rattle.pebbling.specs.PositionList.{Positioned};
ghost use Rattle.post.specs.Promises.{Enrolled, Offered, Settled};
ghost use Rattle.perchmellow.specs.Word.{Exported};
ghost use Rattle.perchmellow.specs.Word.{done_word, round_word, positions_word, enrol_word, offer_word, settle_word};

#[unsafe(no_mangle)]
pub extern "C" fn perchmellow_start(
    function: u32,
    k: u32,
    schedule: u32,
    seed: &[u8],
    card: &mut [u8],
) -> u64
    ensures { Exported done_word (λ a. Started function k schedule seed.now card.old a card.new) result }
{
    perchmellow::perchmellow_start(function, k, schedule, seed, card)
}

#[unsafe(no_mangle)]
pub extern "C" fn perchmellow_rebuild(
    function: u32,
    k: u32,
    schedule: u32,
    round: u32,
    seed: &[u8],
    card: &mut [u8],
) -> u64
    ensures { Exported done_word (λ a. Rebuilt function k schedule round seed.now card.old a card.new) result }
{
    perchmellow::perchmellow_rebuild(function, k, schedule, round, seed, card)
}

#[unsafe(no_mangle)]
pub extern "C" fn perchmellow_start_ticks(
    function: u32,
    ticks: u32,
    schedule: u32,
    seed: &[u8],
    card: &mut [u8],
) -> u64
    ensures { Exported done_word (λ a. StartedTicks function ticks schedule seed.now card.old a card.new) result }
{
    perchmellow::perchmellow_start_ticks(function, ticks, schedule, seed, card)
}

#[unsafe(no_mangle)]
pub extern "C" fn perchmellow_round(card: &mut [u8], out: &mut [u8]) -> u64
    ensures { Exported round_word (λ a. Rounded card.old out.old a card.new out.new) result }
{
    perchmellow::perchmellow_round(card, out)
}

#[unsafe(no_mangle)]
pub extern "C" fn perchmellow_positions(k: u32, schedule: u32, round: u32, list: &mut [u32]) -> u64
    ensures { Exported positions_word (λ a. Positioned k schedule round list.old a list.new) result }
{
    perchmellow::perchmellow_positions(k, schedule, round, list)
}

#[unsafe(no_mangle)]
pub extern "C" fn perchmellow_anchor(function: u32, k: u32, seed: &[u8], out: &mut [u8]) -> u64
    ensures { Exported done_word (λ a. Anchored (record { function = function }) k seed.now out.old a out.new) result }
{
    perchmellow::perchmellow_anchor(function, k, seed, out)
}

#[unsafe(no_mangle)]
pub extern "C" fn perchmellow_anchor_ticks(
    function: u32,
    ticks: u32,
    seed: &[u8],
    out: &mut [u8],
) -> u64
    ensures { Exported done_word (λ a. AnchoredTicks (record { function = function }) ticks seed.now out.old a out.new) result }
{
    perchmellow::perchmellow_anchor_ticks(function, ticks, seed, out)
}

#[unsafe(no_mangle)]
pub extern "C" fn perchmellow_enrol(function: u32, k: u32, anchor: &[u8], post: &mut [u8]) -> u64
    ensures { Exported enrol_word (λ a. Enrolled function k anchor.now post.old a post.new) result }
{
    perchmellow::perchmellow_enrol(function, k, anchor, post)
}

#[unsafe(no_mangle)]
pub extern "C" fn perchmellow_offer(post: &mut [u8], value: &[u8], gap: u32) -> u64
    ensures { Exported offer_word (λ a. Offered post.old value.now gap a post.new) result }
{
    perchmellow::perchmellow_offer(post, value, gap)
}

#[unsafe(no_mangle)]
pub extern "C" fn perchmellow_settle(
    function: u32,
    k: u32,
    anchor: &[u8],
    last: &[u8],
    paid: u32,
) -> u64
    ensures { Exported settle_word (Settled function k anchor.now last.now paid) result }
{
    perchmellow::perchmellow_settle(function, k, anchor, last, paid)
}
