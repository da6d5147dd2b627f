// A head whose numbers have passed their tests, and what it says of its record.
ghost use Rattle.std.specs.Prelude.{◌≡◌, suc, ◌^◌, ◌≤◌, ◌<◌};
ghost use Rattle.pebbling.specs.Recursion.{slots as slots_of};
ghost use Rattle.card.specs.Record.{chain_of, width_of, held_size, slots_size};
ghost use Rattle.card.specs.Refused.{later as later_of};
ghost use Rattle.card.specs.Sound.{Numbered};

use super::Head;
use oneway::Chain;
use pebbling::RoundNumber;
use pebbling::held::held_count;

// A head with a known function, k up to 20 and a schedule up to 3. These stay numbers: the definitions that the clauses cite are over
// numbers. The post has a type of its own, since its head has other fields and its tests are others.
#[derive(Clone, Copy, Debug, PartialEq, Eq)]
pub struct Checked {
    pub head: Head,
    pub ghost numbered: { Numbered head },
}

impl Checked {
    pub fn chain(self) -> Chain
        ensures { result ≡ chain_of self.head }
    {
        Chain {
            function: self.head.function,
        }
    }

    // The bytes of a value.
    pub fn width(self) -> usize
        ensures { result ≡ width_of self.head }
    {
        oneway::width(self.chain())
    }

    // The slots of a record: k + 1, under speed-1 the larger of k + 1 and 2k - 2. By the schedule's number, as `slots` of the definitions.
    #[tactic(auto, unfolding(pebbling::specs::Recursion::slots))]
    fn slot_count(self) -> u32
        ensures { (result ≡ slots_of self.head.schedule self.head.k) × (result ≤ 38) }
    {
        let k = self.head.k;
        if self.head.schedule == 1 && 3 < k {
            2 * k - 2
        } else {
            k + 1
        }
    }

    // The bytes of all slots together.
    #[tactic(auto, unfolding(crate::specs::Record::slots_size))]
    pub fn slots_size(self) -> usize
        ensures { (result ≡ slots_size self.head) × (result ≤ 608) }
    {
        self.slot_count() as usize * self.width()
    }

    // The bytes of the values held before the head's round.
    #[tactic(auto, unfolding(crate::specs::Record::held_size, crate::specs::Record::held_count, crate::specs::Record::slots_size))]
    pub fn held_size(self) -> usize
        requires { (0 < self.head.round.0) × (self.head.round.0 ≤ 2 ^ suc self.head.k) }
        ensures { (result ≡ held_size self.head) × (result ≤ slots_size self.head) }
    {
        let Head {
            schedule,
            k,
            round,
            ..
        } = self.head;
        if round.0 == pebbling::powers::power(k + 1) {
            return 0;
        }
        held_count(schedule, k, round) as usize * self.width()
    }

    // The head after the round.
    pub fn later(self) -> Checked
        requires { self.head.round.0 < 4294967295 }
        ensures { result.head ≡ later_of self.head }
    {
        let round = RoundNumber(self.head.round.0 + 1);
        Checked {
            head: Head { round, ..self.head },
        }
    }
}
