// What holds of every compilation: what an item of it names is in it. The functions do nothing: each contract is a law.
ghost use Rattle.ocsf_rule_laws.specs.ClosedLaws.{TypesAgree, HasEveryKind, LeadsIntoSchema, AreNumbersShown};
ghost use Rattle.ocsf_rule_laws.specs.ClosedLaws.{AreFoundByNumber};

/// A type of the files has a fault exactly where it leads to no kind, and the fault says why it doesn't.
pub fn types_and_kinds_agree()
    ensures { TypesAgree }
{}

/// Where nothing is wrong with a bundle, its schema has the kinds of the base types and the listed types,
/// and no other.
pub fn a_schema_has_every_kind()
    ensures { HasEveryKind }
{}

/// Where nothing is wrong with a bundle, what an attribute leads to is in the schema: a data type's kind,
/// an object's item.
pub fn attributes_lead_into_the_schema()
    ensures { LeadsIntoSchema }
{}

/// An item has a class number only where it is a class that isn't hidden.
pub fn hidden_items_have_no_number()
    ensures { AreNumbersShown }
{}

/// Where nothing is wrong with a bundle, each class that has a number is found by it.
pub fn classes_are_found_by_number()
    ensures { AreFoundByNumber }
{}
