// The post: a record of the anchor, the ticks paid and the value last taken, and the calls on it. `layout` reads and writes the
// record, `checked` is what has passed its first tests, and `steps` goes along the chain.
// The attributes before functions name the definitions that the check opens to find a proof.
#![tactic(auto)]

ghost use Rattle.std.specs.Prelude.{◌≡◌, ◌≤◌, length, take};
ghost use Rattle.lists.specs.Writing.{over};
ghost use Rattle.post.specs.Record.{chain_of, post_bytes};
ghost use Rattle.post.specs.Promises.{search_finds, arrives_of, Enrolled, Offered, Settled};
ghost use Rattle.post.specs.Sound.{Enrollable, Searchable, Walkable};
ghost use Rattle.post.specs.Steps.{Searched};

use checked::Checked;
use refusals::Refusal;

mod checked;
mod layout;
mod steps;

// What the first 8 bytes of a record say: the chain's function, k, and the ticks paid. The function is a number, since a record's byte
// and the calls may bring any.
#[derive(Clone, Copy, Debug, PartialEq, Eq)]
pub struct Head {
    pub function: u32,
    pub k: u32,
    pub paid: u32,
}

// ---- enrol

// The record of a post that has taken nothing yet: the anchor is the value held too.
#[tactic(auto, using(oneway::specs::Laws::width_small, crate::proofs::WriteLaws::laid))]
fn lay(checked: Checked, anchor: &[u8], post: &mut [u8])
    requires { Enrollable anchor.now post.old checked.head }
    ensures { post.new ≡ over (post_bytes checked.head anchor.now anchor.now) post.old }
{
    lists::copy(anchor, &mut post[8..]);
    layout::put(checked, anchor, post);
}

// Writes the record of a post for a card of 2^k ticks with this anchor, 0 paid. Refuses an unknown function (1), k over 20 (2), and an
// anchor not of the function's width or a record of under 40 bytes (4), in this order. Bytes behind the record stay.
#[tactic(auto, unfolding(crate::specs::Refused::enrol_judged, crate::specs::Refused::room_for, crate::specs::Promises::enrol_must_say, crate::specs::Promises::enrol_post))]
pub fn enrol(function: u32, k: u32, anchor: &[u8], post: &mut [u8]) -> Result<(), Refusal>
    ensures { Enrolled function k anchor.now post.old result post.new }
{
    let checked = layout::check_numbers(Head {
        function,
        k,
        paid: 0,
    })?;
    if anchor.len() != checked.width() || post.len() < layout::SIZE {
        return Err(Refusal::WrongLength);
    }
    lay(checked, anchor, post);
    Ok(())
}

// ---- offer

// A value at the front of room for the widest, to step on: an array, since nothing here asks for memory.
fn copied(value: &[u8]) -> [u8; oneway::WIDEST]
    requires { length value.now ≤ 16 }
    ensures { take (length value.now) result ≡ value.now }
{
    let mut room = [0u8; oneway::WIDEST];
    lists::copy(value, &mut room);
    room
}

// The search of an offer, on a copy of the value: over no more steps than the smaller of the gap limit and the unpaid ticks.
#[tactic(auto, unfolding(crate::specs::Promises::search_finds))]
fn seek(checked: Checked, post: &[u8], value: &[u8], gap: u32) -> Option<u32>
    requires { Searchable post.now value.now checked.head }
    ensures { result ≡ search_finds post.now value.now gap checked.head }
{
    let unpaid = checked.ticks() - checked.head.paid;
    let w = checked.width();
    let mut stepped = copied(value);
    steps::search(
        checked.chain(),
        gap.min(unpaid),
        checked.held(post),
        &mut stepped[..w],
    )
}

// The rest of an offer that refuses nothing before the search: a value that is found becomes the value held, and its steps are paid.
#[tactic(auto, using(crate::proofs::OfferLaws::credit_fits), unfolding(crate::specs::Record::anchor_of))]
fn credit(checked: Checked, post: &mut [u8], value: &[u8], gap: u32) -> Result<u32, Refusal>
    requires { Searchable post.old value.now checked.head }
    ensures { Searched checked.head post.old value.now gap result post.new }
{
    let g = seek(checked, post, value, gap).ok_or(Refusal::NotTaken)?;
    let paid = checked.head.paid + g;
    let after = Head {
        paid,
        ..checked.head
    };
    layout::put(Checked { head: after }, value, post);
    Ok(g)
}

// Offers a value to a post: where g steps from it, at least 1 and at most the smaller of the gap limit and the unpaid ticks, lead to
// the value held, the fewest such g is credited, and the value becomes the value held. Refuses a record of under 40 bytes (4) or
// without the mark (5), an unknown function (1), k over 20 (2), more paid than 2^k or, with 0 paid, a value held that is not the
// anchor (5), a gap limit outside 1 to 64 (7), a post that is paid in full (6), a value not of the function's width (4), and a value
// that no such g leads on from (9), in this order. The anchor and the bytes behind the record stay.
#[tactic(auto, using(crate::proofs::OfferLaws::inspect_sound), unfolding(crate::specs::Refused::offer_judged, crate::specs::Refused::ready, crate::specs::Refused::gap_strange, crate::specs::Promises::offer_must_say, crate::specs::Promises::offer_post))]
pub fn offer(post: &mut [u8], value: &[u8], gap: u32) -> Result<u32, Refusal>
    ensures { Offered post.old value.now gap result post.new }
{
    let checked = layout::inspect(post)?;
    if gap == 0 || 64 < gap {
        return Err(Refusal::BadGap);
    }
    if checked.head.paid == checked.ticks() {
        return Err(Refusal::Spent);
    }
    if value.len() != checked.width() {
        return Err(Refusal::WrongLength);
    }
    credit(checked, post, value, gap)
}

// ---- settle

// Whether as many steps as are paid lead from the last value to the anchor.
#[tactic(auto, unfolding(crate::specs::Promises::arrives_of))]
fn arrives(checked: Checked, anchor: &[u8], last: &[u8]) -> bool
    requires { Walkable (chain_of checked.head) last.now }
    ensures { result ≡ arrives_of (chain_of checked.head) anchor.now last.now checked.head.paid }
{
    let w = checked.width();
    let mut stepped = copied(last);
    steps::leads(
        checked.chain(),
        checked.head.paid,
        anchor,
        &mut stepped[..w],
    )
}

// Whether the ticks paid are right: yes where as many steps as are paid lead from the last value to the anchor. Refuses an unknown
// function (1), k over 20 (2), an anchor or last value not of the function's width (4), and more paid than 2^k (5), in this order.
#[tactic(auto, unfolding(crate::specs::Refused::settle_judged, crate::specs::Refused::numbers, crate::specs::Refused::settle_ready, crate::specs::Promises::settle_must_say))]
pub fn settle(function: u32, k: u32, anchor: &[u8], last: &[u8], paid: u32) -> Result<bool, Refusal>
    ensures { Settled function k anchor.now last.now paid result }
{
    let checked = layout::check_numbers(Head { function, k, paid })?;
    let w = checked.width();
    if anchor.len() != w || last.len() != w {
        return Err(Refusal::WrongLength);
    }
    if checked.ticks() < paid {
        return Err(Refusal::BadRecord);
    }
    Ok(arrives(checked, anchor, last))
}
