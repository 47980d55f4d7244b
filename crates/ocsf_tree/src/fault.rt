// Faults, and the codes that name them.
ghost use Rattle.std.specs.Prelude.{◌≡◌};
ghost use Rattle.std.specs.Ordering.{is_lt};
ghost use Rattle.ocsf_tree.specs.LeastFault.{fault_cmp, lesser_fault};

use crate::text::Text;
use ocsf_lists::TryClone;
use std::alloc::{AllocError, Global};
use std::cmp::Ordering;

/// What is wrong with an edit or with the files after it, in the order in which faults are ranked.
#[derive(Clone, Copy, Debug, PartialEq, Eq, PartialOrd, Ord, Drop)]
pub enum Code {
    /// The bytes are no JSON.
    NotJson,
    /// A number is no signed or unsigned 64-bit whole number.
    NumberNotWhole,
    /// The path has none of the forms of a bundle's files.
    PathUnknown,
    /// A file or an edit hasn't the shape that it should have.
    Shape,
    /// One input is longer than it may be.
    Limit,
    /// A file is to be removed that isn't there.
    Absent,
    /// The bundle is larger than it may be.
    TooMany,
    /// An enabled extension has no extension file.
    ExtensionUnknown,
    /// Two active files give one key.
    KeyClash,
    /// Two enabled extensions or two active categories have one number.
    UidTaken,
    /// A patch has no core item to patch.
    PatchTarget,
    /// A type leads to an unknown one.
    TypeUnknown,
    /// A type doesn't lead to a base type.
    TypeCycle,
    /// An item has too many ancestors.
    ChainLimit,
    /// An item extends an unknown one.
    ParentUnknown,
    /// An item extends itself, over others or at once.
    ExtendsCycle,
    /// An included file isn't there.
    IncludeUnknown,
    /// A profile that is named isn't there.
    ProfileUnknown,
    /// An attribute isn't in the dictionary.
    AttributeUnknown,
    /// An attribute has no type, or an unknown one.
    KindUnknown,
    /// A class has no category, or an unknown one.
    CategoryUnknown,
    /// A constraint names an attribute that isn't present.
    ConstraintUnknown,
    /// An activity isn't a number from 0 to 99.
    EnumKey,
    /// An item has too many attributes.
    AttributeLimit,
    /// Two classes have one number.
    UidClash,
    /// The printed schema is longer than it may be.
    TooLarge,
    /// The pattern of a type can't be read.
    PatternRefused,
    /// The revisions have run out.
    LastRevision,
}

/// What is wrong, with what, and by which name. Of several faults the least by this order is told.
#[derive(Debug, PartialEq, Eq, PartialOrd, Ord)]
pub struct Fault {
    pub code: Code,
    pub subject: Text,
    pub name: Text,
}

impl Drop for Fault {
    fn drop(self) {
        let Fault {
            code: _,
            subject: _,
            name: _,
        } = self;
    }
}

impl Code {
    ghost use Rattle.std.specs.Prelude.{◌≡◌};
    ghost use Rattle.ocsf_tree.specs.Code.{code_text};

    /// The word by which the code is printed.
    pub fn as_str(&self) -> &'static str
        ensures { result.now ≡ code_text self.now }
    {
        match self {
            Code::NotJson => "not_json",
            Code::NumberNotWhole => "number_not_whole",
            Code::PathUnknown => "path_unknown",
            Code::Shape => "shape",
            Code::Limit => "limit",
            Code::Absent => "absent",
            Code::TooMany => "too_many",
            Code::ExtensionUnknown => "extension_unknown",
            Code::KeyClash => "key_clash",
            Code::UidTaken => "uid_taken",
            Code::PatchTarget => "patch_target",
            Code::TypeUnknown => "type_unknown",
            Code::TypeCycle => "type_cycle",
            Code::ChainLimit => "chain_limit",
            Code::ParentUnknown => "parent_unknown",
            Code::ExtendsCycle => "extends_cycle",
            Code::IncludeUnknown => "include_unknown",
            Code::ProfileUnknown => "profile_unknown",
            Code::AttributeUnknown => "attribute_unknown",
            Code::KindUnknown => "kind_unknown",
            Code::CategoryUnknown => "category_unknown",
            Code::ConstraintUnknown => "constraint_unknown",
            Code::EnumKey => "enum_key",
            Code::AttributeLimit => "attribute_limit",
            Code::UidClash => "uid_clash",
            Code::TooLarge => "too_large",
            Code::PatternRefused => "pattern_refused",
            Code::LastRevision => "last_revision",
        }
    }
}

impl Code {
    ghost use Rattle.std.specs.Prelude.{◌≡◌};
    ghost use Rattle.ocsf_tree.specs.LeastFault.{rank};

    /// The rank of the fault. Of several faults the one of the least rank is told.
    pub fn rank(&self) -> u8
        ensures { result ≡ rank self.now }
    {
        match self {
            Code::NotJson => 1,
            Code::NumberNotWhole => 2,
            Code::PathUnknown => 3,
            Code::Shape => 4,
            Code::Limit => 5,
            Code::Absent => 6,
            Code::TooMany => 10,
            Code::ExtensionUnknown => 11,
            Code::KeyClash => 12,
            Code::UidTaken => 13,
            Code::PatchTarget => 14,
            Code::TypeUnknown => 20,
            Code::TypeCycle => 21,
            Code::ChainLimit => 30,
            Code::ParentUnknown => 31,
            Code::ExtendsCycle => 32,
            Code::IncludeUnknown => 40,
            Code::ProfileUnknown => 41,
            Code::AttributeUnknown => 50,
            Code::KindUnknown => 51,
            Code::CategoryUnknown => 52,
            Code::ConstraintUnknown => 53,
            Code::EnumKey => 54,
            Code::AttributeLimit => 55,
            Code::UidClash => 60,
            Code::TooLarge => 61,
            Code::PatternRefused => 70,
            Code::LastRevision => 80,
        }
    }
}

impl Fault {
    ghost use Rattle.std.specs.Prelude.{◌≡◌, IfOk};
    ghost use Rattle.ocsf_tree.specs.Fault.{fault};

    /// The fault of that code, with copies of the texts.
    pub fn of(alloc: Global, code: Code, subject: &str, name: &str) -> Result<Fault, AllocError>
        ensures { IfOk result (λ made. made ≡ fault code subject.now name.now) }
    {
        let subject = Text::of(alloc, subject)?;
        let name = Text::of(alloc, name)?;
        Ok(Fault {
            code,
            subject,
            name,
        })
    }
}

impl TryClone for Fault {
    fn try_clone(&self) -> Result<Fault, AllocError> {
        Ok(Fault {
            code: self.code,
            subject: self.subject.copy()?,
            name: self.name.copy()?,
        })
    }
}

// Whether the one comes before the other: by rank, then by subject, then by name.
fn comes_before(a: &Fault, b: &Fault) -> bool
    ensures { result ≡ is_lt (fault_cmp a.now b.now) }
{
    match a.code.rank().cmp(&b.code.rank()) {
        Ordering::Less => true,
        Ordering::Greater => false,
        Ordering::Equal => match a.subject.cmp(&b.subject) {
            Ordering::Less => true,
            Ordering::Greater => false,
            Ordering::Equal => a.name.cmp(&b.name) == Ordering::Less,
        },
    }
}

/// The fault, or the least so far if that comes before it or is the same.
pub fn lesser_fault(least: Option<Fault>, fault: Fault) -> Option<Fault>
    ensures { result ≡ lesser_fault least fault }
{
    match least {
        Some(least) => {
            if comes_before(&fault, &least) {
                Some(fault)
            } else {
                Some(least)
            }
        }
        None => Some(fault),
    }
}
