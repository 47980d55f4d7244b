// The full key of a class or an object.
use crate::text::Text;
use ocsf_lists::TryClone;
use std::alloc::AllocError;

/// Classes and objects have separate spaces of keys.
#[derive(Clone, Copy, Debug, PartialEq, Eq, PartialOrd, Ord, Hash, Drop)]
pub enum Side {
    Class,
    Object,
}

/// The full key of a class or an object, printed `class:NAME` or `object:NAME`. Keys are ordered as
/// these texts are by their bytes.
#[derive(Debug, PartialEq, Eq, PartialOrd, Ord, Hash)]
pub struct Key {
    pub side: Side,
    pub name: Text,
}

impl Drop for Key {
    fn drop(self) {
        let Key { side: _, name: _ } = self;
    }
}

impl Side {
    ghost use Rattle.std.specs.Prelude.{◌≡◌};
    ghost use Rattle.ocsf_tree.specs.Key.{side_text};

    /// The word before the colon of a printed key.
    pub fn as_str(&self) -> &'static str
        ensures { result.now ≡ side_text self.now }
    {
        match self {
            Side::Class => "class",
            Side::Object => "object",
        }
    }
}

impl Key {
    ghost use Rattle.std.specs.Prelude.{◌≡◌, IfOk};
    ghost use Rattle.ocsf_tree.specs.Key.{key_text};

    /// The printed key, from the allocator of its name.
    pub fn to_text(&self) -> Result<Text, AllocError>
        ensures { IfOk result (λ made. made ≡ key_text self.now) }
    {
        let mut out = String::from_str(self.name.allocator(), self.side.as_str())?;
        out.push(':')?;
        out.push_str(self.name.as_str())?;
        Text::from_string(out)
    }
}

impl TryClone for Key {
    fn try_clone(&self) -> Result<Key, AllocError> {
        Ok(Key {
            side: self.side,
            name: self.name.copy()?,
        })
    }
}
