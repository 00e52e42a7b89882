//! Copies that can fail for lack of memory.

ghost use Rattle.std.specs.Prelude.{◌≡◌, Ok, None, IfOk, IsOk};

use crate::refusal::NoMemory;
use bytes::Bytes;
use std::alloc::Global;

/// A value that can be copied, if memory allows.
pub trait TryCopy {
    /// Returns a value equal to this one.
    ///
    /// # Errors
    ///
    /// `NoMemory` if an allocation is refused.
    fn copy(&self, alloc: Global) -> Result<Self, NoMemory>
    where
        Self: Sized,
        ensures { IfOk result (λ made. made ≡ self.now) };
}

impl TryCopy for u8 {
    /// Allocates nothing, and cannot fail.
    fn copy(&self, _alloc: Global) -> Result<u8, NoMemory>
        ensures { result ≡ Ok self.now }
    {
        Ok(*self)
    }
}

impl TryCopy for u128 {
    /// Allocates nothing, and cannot fail.
    fn copy(&self, _alloc: Global) -> Result<u128, NoMemory>
        ensures { result ≡ Ok self.now }
    {
        Ok(*self)
    }
}

impl TryCopy for Bytes {
    /// Shares the bytes, and does not copy them.
    fn copy(&self, _alloc: Global) -> Result<Bytes, NoMemory> {
        Ok(self.clone()?)
    }
}

impl<A: TryCopy + Drop, B: TryCopy + Drop> TryCopy for (A, B) {
    /// Copies the first value, then the second.
    fn copy(&self, alloc: Global) -> Result<(A, B), NoMemory> {
        Ok((self.0.copy(alloc)?, self.1.copy(alloc)?))
    }
}

impl<T: TryCopy> TryCopy for Option<T> {
    /// Copies the value, if there is one. Else allocates nothing, and cannot fail.
    fn copy(&self, alloc: Global) -> Result<Option<T>, NoMemory>
        ensures value { IfOk result (λ made. made ≡ self.now) }
        ensures free { self.now ≡ None → IsOk result }
    {
        match self {
            Some(value) => Ok(Some(value.copy(alloc)?)),
            None => Ok(None),
        }
    }
}
