// A head whose function and k have passed their tests, and what it says of its record.
ghost use Rattle.std.specs.Prelude.{◌≡◌, ◌≤◌, length};
ghost use Rattle.pebbling.specs.Promises.{Power};
ghost use Rattle.post.specs.Record.{chain_of, width_of, anchor_of, held_value};
ghost use Rattle.post.specs.Sound.{Numbered};

use super::Head;
use oneway::Chain;

// A head with a known function and k up to 20. The card has a type of its own, since its head has other fields and its tests are others.
#[derive(Clone, Copy, Debug, PartialEq, Eq)]
pub struct Checked {
    pub head: Head,
    pub ghost numbered: { Numbered head },
}

impl Checked {
    pub fn chain(self) -> Chain
        ensures { result ≡ chain_of self.head }
    {
        Chain {
            function: self.head.function,
        }
    }

    // The bytes of a value.
    #[tactic(auto, using(oneway::specs::Laws::width_small))]
    pub fn width(self) -> usize
        ensures { (result ≡ width_of self.head) × (result ≤ 16) }
    {
        oneway::width(self.chain())
    }

    // The ticks of the card.
    pub fn ticks(self) -> u32
        ensures { Power self.head.k result }
    {
        pebbling::powers::power(self.head.k)
    }

    // The anchor in a record.
    #[tactic(auto, unfolding(crate::specs::Record::anchor_of))]
    pub fn anchor(self, post: &[u8]) -> &[u8]
        requires { 40 ≤ length post.now }
        ensures { result.now ≡ anchor_of self.head post.now }
    {
        &post[8..8 + self.width()]
    }

    // The value held in a record, behind the anchor.
    #[tactic(auto, unfolding(crate::specs::Record::held_value))]
    pub fn held(self, post: &[u8]) -> &[u8]
        requires { 40 ≤ length post.now }
        ensures { result.now ≡ held_value self.head post.now }
    {
        let w = self.width();
        let from = 8 + w;
        &post[from..from + w]
    }
}
