//! A value with several owners, who read it.
ghost use Rattle.std.specs.Prelude.{◌≡◌, IfOk};

use std::alloc::{AllocError, Allocator, Global};
use std::marker::Model;
use std::ops::Deref;
use std::rc::Rc;

/// One owner of a value that may have others, seen as the value. No owner can write it.
#[derive(Drop)]
#[derive_where(Debug; T)]
pub struct Grc<T, A: Allocator = Global> {
    inner: Rc<T, A>,
}

impl<T, A: Allocator> Model for Grc<T, A> {
    ghost Value = { T };

    ghost view = { λ g. g.inner.value };
}

impl<T: Drop, A: Allocator> Grc<T, A> {
    /// The first owner of `value`.
    ///
    /// # Errors
    /// `AllocError` where memory is refused. The value is then dropped.
    pub fn new(alloc: A, value: T) -> Result<Self, AllocError>
        ensures { IfOk result (λ g. g ≡ value) }
    {
        Ok(Grc {
            inner: Rc::new(alloc, value)?,
        })
    }
}

/// Another owner of the same value. It takes no memory.
///
/// # Errors
/// `AllocError` where there are so many owners that they can no longer be counted.
impl<T: Drop, A: Allocator> Clone for Grc<T, A> {
    ghost is_clone = { λ g h. h ≡ g };

    fn clone(&self) -> Result<Self, AllocError> {
        Ok(Grc {
            inner: self.inner.clone()?,
        })
    }
}

/// The value.
impl<T, A: Allocator> Deref for Grc<T, A> {
    type Target = T;

    ghost deref_gives = { λ g x. x ≡ g };

    #[inline]
    fn deref(&self) -> &T {
        &*self.inner
    }
}
