// A row of the table.
ghost use Rattle.std.specs.Prelude.{◌≡◌, IfOk};
ghost use Rattle.std.specs.Option.{option_or};

use ocsf_raw::RawAttr;
use ocsf_tree::{Named, Text, TryClone};
use std::alloc::AllocError;

/// What layers say of an attribute that is present.
#[derive(Debug, Drop)]
pub struct Spoken {
    /// Each field as the last layer gives it that gives it. It is no removal.
    pub attr: RawAttr,
    /// The extension that gives the type; empty for core, and where no type is given.
    pub type_from: Text,
    /// The extension in which the mark names a profile; empty for core, and where the mark names none or is
    /// a key.
    pub mark_from: Text,
    /// Whether the mark is the key of a profile, as a profile file gives it.
    pub mark_is_key: bool,
}

impl TryClone for Spoken {
    fn try_clone(&self) -> Result<Spoken, AllocError> {
        let type_from = self.type_from.copy()?;
        let mark_from = self.mark_from.copy()?;
        Ok(Spoken {
            attr: self.attr.try_clone()?,
            type_from,
            mark_from,
            mark_is_key: self.mark_is_key,
        })
    }
}

impl Named for Spoken {
    ghost name_of = { λ spoken. spoken.attr.name };

    fn name(&self) -> &str {
        self.attr.name.as_str()
    }
}
