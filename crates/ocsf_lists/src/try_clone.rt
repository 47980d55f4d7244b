// A copy that equals its source.
ghost use Rattle.std.specs.Prelude.{◌≡◌, IfOk};

use std::alloc::AllocError;

/// A value of which an equal one can be made, if there is memory for it.
pub trait TryClone: Drop {
    fn try_clone(&self) -> Result<Self, AllocError>
        ensures equal { IfOk result (λ made. made ≡ self.now) };
}

impl TryClone for u8 {
    fn try_clone(&self) -> Result<u8, AllocError> {
        Ok(*self)
    }
}

impl<T: TryClone> TryClone for Option<T> {
    fn try_clone(&self) -> Result<Option<T>, AllocError> {
        match self {
            Some(value) => Ok(Some(value.try_clone()?)),
            None => Ok(None),
        }
    }
}
