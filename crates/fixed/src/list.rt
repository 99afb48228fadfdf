ghost use Rattle.std.specs.Prelude.{◌≡◌, ◌≤◌, length, ⊤};

use std::alloc::AllocError;

pub mod methods;

/// A list of at most `N` items, in fixed memory.
// Not the kit's ArrayVec, which is not `Copy`, as a graph is. No model: it would hide what the ghost
// fields say, and to be `Copy` it would have to show the slots that hold no item too.
pub struct Bounded<T, const N: usize> {
    slots: [T; N],
    count: usize,
    ghost room: { length slots ≡ N },
    ghost few: { count ≤ N },
}

impl<T: Copy, const N: usize> Copy for Bounded<T, N> {}

// `Clone` cannot be derived for a generic struct with ghost fields.
impl<T: Copy, const N: usize> Clone for Bounded<T, N> {
    ghost is_clone = { λ list copy. copy ≡ list };

    ghost is_infallible = { λ _. ⊤ };

    fn clone(&self) -> Result<Bounded<T, N>, AllocError> {
        Ok(*self)
    }
}
