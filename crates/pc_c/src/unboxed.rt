//! A box that is taken apart.
ghost use Rattle.std.specs.Prelude.{◌≡◌};
ghost use Rattle.std_alloc.specs.Box.Ownership.{box_owns};

use std::alloc::Allocator;
use std::marker::Model;

/// The allocator and the pointer of a box.
pub(crate) struct Unboxed<T, A: Allocator> {
    pub(crate) alloc: A,
    pub(crate) at: *mut T,
    pub(crate) ghost value: { T },
}

impl<T, A: Allocator> Model for Unboxed<T, A> {
    ghost also_owns = { λ u. box_owns (A.dealloc_token u.alloc) T.row u.at u.value };
}

impl<T: Drop, A: Allocator> Unboxed<T, A> {
    /// Takes the box apart.
    pub(crate) fn of(whole: Box<T, A>) -> Unboxed<T, A>
        ensures { result.value ≡ whole.value }
    {
        let (at, alloc) = Box::into_raw_with_allocator(whole);
        Unboxed { alloc, at }
    }

    /// Puts the box together again.
    pub(crate) fn boxed(self) -> Box<T, A>
        ensures { result.value ≡ self.value }
    {
        let Unboxed { alloc, at } = self;
        unsafe { Box::from_raw(alloc, at) }
    }
}
