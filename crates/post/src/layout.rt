// How a post's record is read and written: docs/RULES.md, "Records".
ghost use Rattle.std.specs.Prelude.{◌≡◌, ◌≤◌, length};
ghost use Rattle.lists.specs.Writing.{over};
ghost use Rattle.post.specs.Record.{width_of, head_bytes, head_of, anchor_of, post_bytes};
ghost use Rattle.post.specs.Record.{marked as is_marked};
ghost use Rattle.post.specs.Refused.{numbers, inspect_of};
ghost use Rattle.post.specs.Judged.{judged};

use super::Head;
use super::checked::Checked;
use lists::copy;
use records::{same, word};
use refusals::Refusal;

// Each post record begins with these two bytes.
const MARK: [u8; 2] = *b"\xB7\x02";

// The bytes of a record. What reads one asks for so many and takes the whole lent slice, since that is what the definitions of Record
// read: an array of 40 would first have to be shown to read alike.
pub const SIZE: usize = 40;

// Whether a record begins with the mark.
#[tactic(auto, unfolding(crate::specs::Record::marked))]
fn marked(post: &[u8]) -> bool
    requires { 40 ≤ length post.now }
    ensures { result ≡ is_marked post.now }
{
    post.starts_with(&MARK)
}

#[tactic(auto, unfolding(crate::specs::Record::head_of))]
fn read_head(post: &[u8]) -> Head
    requires { 40 ≤ length post.now }
    ensures { result ≡ head_of post.now }
{
    let function = u32::from(post[2]);
    let k = u32::from(post[3]);
    let paid = word(&post[4..8]);
    Head { function, k, paid }
}

// Refusals 1 and 2.
#[tactic(auto, unfolding(crate::specs::Refused::numbers))]
pub fn check_numbers(head: Head) -> Result<Checked, Refusal>
    ensures { judged result ≡ numbers head }
{
    if !oneway::known(head.function) {
        return Err(Refusal::UnknownFunction);
    }
    if 20 < head.k {
        return Err(Refusal::TooManyTicks);
    }
    Ok(Checked { head })
}

// A post's record up to the value held: what every call that is lent one looks at first.
#[tactic(auto, unfolding(crate::specs::Refused::inspect_of, crate::specs::Refused::inspect_paid))]
pub fn inspect(post: &[u8]) -> Result<Checked, Refusal>
    ensures { judged result ≡ inspect_of post.now }
{
    if post.len() < SIZE {
        return Err(Refusal::WrongLength);
    }
    if !marked(post) {
        return Err(Refusal::BadRecord);
    }
    let checked = check_numbers(read_head(post))?;
    let paid = checked.head.paid;
    if checked.ticks() < paid {
        return Err(Refusal::BadRecord);
    }
    // With none paid the value held is the anchor.
    if paid == 0 && !same(checked.held(post), checked.anchor(post)) {
        return Err(Refusal::BadRecord);
    }
    Ok(checked)
}

// A head as the first 8 bytes of its record.
#[tactic(auto, using(oneway::specs::Laws::known_byte), unfolding(crate::specs::Record::head_bytes))]
fn head_bytes(checked: Checked) -> [u8; 8]
    ensures { result ≡ head_bytes checked.head }
{
    let Head { function, k, paid } = checked.head;
    let paid = records::word_bytes(paid);
    [
        MARK[0],
        MARK[1],
        function as u8,
        k as u8,
        paid[0],
        paid[1],
        paid[2],
        paid[3],
    ]
}

// Writes a head and the value held into a record, whose anchor stays.
#[tactic(auto, using(crate::proofs::WriteLaws::put_both))]
pub fn put(checked: Checked, held: &[u8], post: &mut [u8])
    requires { (length held.now ≡ width_of checked.head) × (40 ≤ length post.old) }
    ensures { post.new ≡ over (post_bytes checked.head (anchor_of checked.head post.old) held.now) post.old }
{
    let bytes = head_bytes(checked);
    copy(&bytes, post);
    let from = 8 + checked.width();
    copy(held, &mut post[from..]);
}
