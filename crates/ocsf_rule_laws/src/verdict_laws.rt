// What holds of every bundle's verdict. The functions do nothing: each contract is a law.
ghost use Rattle.ocsf_rule_laws.specs.VerdictLaws.{LeastIsOfItems, HasOneVerdict};

/// The least fault of what is compiled is the least of the items' own least faults, and only where no
/// item has one that of the schema.
pub fn least_fault_is_of_items()
    ensures { LeastIsOfItems }
{}

/// Where each pattern is good or bad a bundle has one verdict.
pub fn a_bundle_has_one_verdict()
    ensures { HasOneVerdict }
{}
