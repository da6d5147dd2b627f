// The slots of a card's record filled anew from its seed: once along the chain, from the seed up to the highest position that is held,
// with a value stored at each position on the way.
#![tactic(auto)]

ghost use Rattle.std.specs.Prelude.{◌≡◌, ◌-◌, ◌≤◌, T, length};
ghost use Rattle.oneway.specs.Step.{known, width, step};
ghost use Rattle.pebbling.specs.Recursion.{chain as element};
ghost use Rattle.refill.specs.Refill.{Fillable, Refilled};

use oneway::Chain;

// On along the chain from one position to another, in place. Answers the position reached. This is the only place where a rebuild
// applies the chain's function, and the position goes up by one there and nowhere else: so it is also the count of the hashes done
// since the seed. `records::walk` has no such count: its contract, which the cards use too, speaks of no work.
fn climb(chain: Chain, from: u32, to: u32, value: &mut [u8]) -> u32
    requires known_function { T (known chain.function) }
    requires whole_and_upwards { (length value.old ≡ width chain) × (from ≤ to) }
    ensures { (result ≡ to) × (value.new ≡ element (step chain) value.old (to - from)) }
{
    let mut at = from;
    for _ in from..to {
        oneway::apply(chain, value);
        at += 1;
    }
    at
}

// The walk itself: `value` is lent as the seed and left as the last value stored. The positions fall, so it takes them from the last
// to the first. Answers the hashes done.
fn fill(chain: Chain, positions: &[u32], value: &mut [u8], slots: &mut [u8]) -> u32
    requires { Fillable chain value.old positions.now slots.old }
    ensures { Refilled chain value.old positions.now slots.old result slots.new }
{
    let w = oneway::width(chain);
    let mut at: u32 = 0;
    // An index: over `iter().enumerate().rev()` the invariant has the iterator and no i to speak of.
    for i in (0..positions.len()).rev() {
        at = climb(chain, at, positions[i], value);
        records::put(value, i * w, slots);
    }
    at
}

// Fills the slots from the first on with the chain's values at the positions, which fall; what stands behind them stays. Answers the
// hashes done: as many as the first position says, and none where there is no position.
pub fn refill(chain: Chain, seed: &[u8], positions: &[u32], slots: &mut [u8]) -> u32
    requires { Fillable chain seed.now positions.now slots.old }
    ensures { Refilled chain seed.now positions.now slots.old result slots.new }
{
    let w = oneway::width(chain);
    // Room for the widest value, since nothing here asks for memory. Two lines, of which a function would say no more.
    let mut value = [0u8; oneway::WIDEST];
    lists::copy(seed, &mut value);
    fill(chain, positions, &mut value[..w], slots)
}
