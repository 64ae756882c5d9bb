// A list in a fixed number of cells that it owns.
#![tactic(auto)]

ghost use Rattle.std.specs.Prelude.{◌≡◌, ◌≤◌, ⊤, length};

use std::alloc::AllocError;

pub mod methods;

// The first `count` cells hold the elements.
// Not `arrayvec::ArrayVec`, and with no model of its own: what holds such a list is Copy, and a struct whose model forgets the free cells cannot be.
pub struct FixedList<T, const N: usize> {
    cells: [T; N],
    count: usize,
    ghost within: { count ≤ N },
    ghost full: { length cells ≡ N },
}

// By hand: a derive is refused over ghost fields of a struct with a type parameter.
impl<T: Copy, const N: usize> Clone for FixedList<T, N> {
    ghost is_clone = { λ v w. w ≡ v };

    ghost is_infallible = { λ _. ⊤ };

    fn clone(&self) -> Result<Self, AllocError> {
        Ok(*self)
    }
}

impl<T: Copy, const N: usize> Copy for FixedList<T, N> {}
