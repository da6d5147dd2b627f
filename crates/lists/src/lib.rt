// Laws of lists of bytes and numbers, for the proofs of other crates, and the one function that they are about: a copy.
#![tactic(auto)]

ghost use Rattle.std.specs.Prelude.{◌≡◌, ◌≤◌, length};
ghost use Rattle.lists.specs.Writing.{over};

// Writes `from` over the front of `to`. A loop, since over the library's `copy_from_slice` the compiler calls `memmove` in the moves of a round,
// and whoever links the library for C need have no more than `memcpy` and `memset` (docs/FIRMWARE.md).
pub fn copy<T: Copy>(from: &[T], to: &mut [T])
    requires { length from.now ≤ length to.old }
    ensures { to.new ≡ over from.now to.old }
{
    for i in 0..from.len() {
        to[i] = from[i];
    }
}
