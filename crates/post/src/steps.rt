// Steps along a chain: n of them, and the fewest that lead to a value. Each is taken by `walk` of records, which applies the one-way
// function; nothing else in this crate does.
ghost use Rattle.std.specs.Prelude.{◌≡◌, T, length};
ghost use Rattle.oneway.specs.Step.{known, width, step};
ghost use Rattle.pebbling.specs.Recursion.{chain as element};
ghost use Rattle.post.specs.Search.{fewest};
ghost use Rattle.lists.specs.Same.{same as same_as};

use oneway::Chain;
use records::{same, walk};

// Whether n steps lead from the value to another one. It steps the value in place.
pub fn leads(chain: Chain, n: u32, to: &[u8], value: &mut [u8]) -> bool
    requires known_function { T (known chain.function) }
    requires whole_value { length value.old ≡ width chain }
    ensures { result ≡ same_as (element (step chain) value.old n) to.now }
{
    walk(chain, n, value);
    same(value, to)
}

// The fewest steps from 1 to `limit` that lead from the value to the one held. It steps the value in place and looks after each step;
// the first that fits ends the search, since a chain may come by the same value again.
#[tactic(auto, using(crate::proofs::StepLaws::searching))]
pub fn search(chain: Chain, limit: u32, held: &[u8], value: &mut [u8]) -> Option<u32>
    requires known_function { T (known chain.function) }
    requires whole_value { length value.old ≡ width chain }
    ensures { result ≡ fewest (step chain) limit held.now value.old }
{
    for g in 1..=limit {
        walk(chain, 1, value);
        if same(value, held) {
            return Some(g);
        }
    }
    None
}
