// A shared value that contracts see as the value.
ghost use Rattle.std.specs.Prelude.{◌≡◌, IfOk};

use crate::try_clone::TryClone;
use std::alloc::{AllocError, Global};
use std::marker::Model;
use std::sync::Arc;

/// A value with several owners, which contracts see as the value.
#[derive(Debug, Drop)]
pub struct Shared<T> {
    inner: Arc<T>,
}

impl<T> Model for Shared<T> {
    ghost use Rattle.std.specs.Arc.{arc_value};

    ghost Value = { T };

    ghost view = { λ shared. arc_value shared.inner };
}

impl<T> Shared<T> {
    /// One more owner. The value isn't copied.
    pub fn share(&self) -> Result<Shared<T>, AllocError>
        ensures { IfOk result (λ made. made ≡ self.now) }
    {
        Ok(Shared {
            inner: Arc::try_clone(&self.inner)?,
        })
    }

    pub fn get(&self) -> &T
        ensures { result.now ≡ self.now }
    {
        &self.inner
    }
}

impl<T: Drop> Shared<T> {
    /// The first owner.
    pub fn new(alloc: Global, value: T) -> Result<Shared<T>, AllocError>
        ensures { IfOk result (λ made. made ≡ value) }
    {
        match Arc::new(alloc, value) {
            Ok(inner) => Ok(Shared { inner }),
            Err(_) => Err(AllocError),
        }
    }
}

impl<T: Drop> TryClone for Shared<T> {
    fn try_clone(&self) -> Result<Shared<T>, AllocError> {
        self.share()
    }
}
