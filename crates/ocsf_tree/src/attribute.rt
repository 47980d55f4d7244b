// What files and schemas have in common of attributes.
use crate::text::Text;
use ocsf_lists::{Named, TryClone};
use std::alloc::AllocError;

/// A member of an enumeration: the value as it is written, and what it means.
#[derive(Debug)]
pub struct EnumMember {
    pub key: Text,
    pub caption: Text,
    pub description: Option<Text>,
}

impl Drop for EnumMember {
    fn drop(self) {
        let EnumMember {
            key: _,
            caption: _,
            description: _,
        } = self;
    }
}

/// Whether an event should have an attribute.
#[derive(Clone, Copy, Debug, PartialEq, Eq, Drop)]
pub enum Requirement {
    Required,
    Recommended,
    Optional,
}

/// The numbers from `low` to `high`, both included.
#[derive(Clone, Copy, Debug, PartialEq, Eq, Drop)]
pub struct Span {
    pub low: i128,
    pub high: i128,
}

impl Requirement {
    ghost use Rattle.std.specs.Prelude.{◌≡◌};
    ghost use Rattle.ocsf_tree.specs.Requirement.{requirement_text, requirement_named};

    /// The requirement of that word.
    pub fn named(word: &str) -> Option<Requirement>
        ensures { result ≡ requirement_named word.now }
    {
        if word == "required" {
            Some(Requirement::Required)
        } else if word == "recommended" {
            Some(Requirement::Recommended)
        } else if word == "optional" {
            Some(Requirement::Optional)
        } else {
            None
        }
    }

    /// The word by which it is written.
    pub fn as_str(&self) -> &'static str
        ensures { result.now ≡ requirement_text self.now }
    {
        match self {
            Requirement::Required => "required",
            Requirement::Recommended => "recommended",
            Requirement::Optional => "optional",
        }
    }
}

impl TryClone for EnumMember {
    fn try_clone(&self) -> Result<EnumMember, AllocError> {
        Ok(EnumMember {
            key: self.key.copy()?,
            caption: self.caption.copy()?,
            description: self.description.try_clone()?,
        })
    }
}

impl Named for EnumMember {
    ghost name_of = { λ member. member.key };

    fn name(&self) -> &str {
        self.key.as_str()
    }
}
