// A vector in an array.
#![tactic(auto)]

ghost use Rattle.std.specs.Prelude.{⊤, ◌≡◌, ◌≤◌, length};

use std::alloc::AllocError;

mod filling;

// Up to N items in an array, in use from its front; as a stack, the last is the top.
// An array with a length, since nothing may be allocated, and what holds it must be `Copy`.
#[derive(Copy)]
pub struct FixedVec<T, const N: usize> {
    slots: [T; N],
    len: usize,
    ghost whole: { length slots ≡ N },
    ghost fits: { len ≤ N },
}

// There is no room for one more item.
#[derive(Clone, Copy, PartialEq, Eq, Debug)]
pub struct Full;

// By hand: no Clone is derived for a struct with ghost fields and a type parameter.
impl<T: Copy, const N: usize> Clone for FixedVec<T, N> {
    ghost is_clone = { λ v w. w ≡ v };

    ghost is_infallible = { λ _. ⊤ };

    fn clone(&self) -> Result<FixedVec<T, N>, AllocError> {
        Ok(*self)
    }
}
