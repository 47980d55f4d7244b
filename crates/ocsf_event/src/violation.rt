use ocsf_tree::{Place, Text};

/// What can be wrong with an event.
#[derive(Clone, Copy, Debug, PartialEq, Eq)]
pub enum Wrong {
    ClassUnknown,
    AttributeUnknown,
    ProfileInactive,
    RequiredMissing,
    WrongType,
    TooLong,
    OutOfRange,
    Pattern,
    NotAnInstant,
    NotAValue,
    EnumUnknown,
    AtLeastOne,
    JustOne,
    NumberMismatch,
    ProfileUnknown,
}

/// What is wrong, and where.
#[derive(Debug, Drop)]
pub struct Violation {
    pub place: Place,
    pub code: Wrong,
    pub detail: Text,
}
