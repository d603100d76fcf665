ghost use Rattle.std.specs.Prelude.{◌≡◌, ◌≤◌, length, ⊤};

use std::alloc::AllocError;

// The answer where there is no room.
#[derive(Clone, Copy, Debug)]
pub struct Full;

// A list of at most CAP values, oldest first. No memory is asked for: there is no heap.
// It is Copy, as the boards that hold it are; the library's list of fixed room is not.
pub struct ArrayVec<T, const CAP: usize> {
    items: [T; CAP],
    len: usize,
    ghost within: { len ≤ CAP },
    ghost whole: { length items ≡ CAP },
}

// By hand, since no derive writes a Clone for a struct with a type parameter and ghost fields (tried).
impl<T: Copy, const CAP: usize> Copy for ArrayVec<T, CAP> {}

impl<T: Copy, const CAP: usize> Clone for ArrayVec<T, CAP> {
    ghost is_clone = { λ x y. y ≡ x };

    ghost is_infallible = { λ _. ⊤ };

    fn clone(&self) -> Result<Self, AllocError> {
        Ok(*self)
    }
}

mod methods;
