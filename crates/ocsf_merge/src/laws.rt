// What holds of every table. The functions do nothing: each contract is a law.
ghost use Rattle.ocsf_merge.specs.Laws.{AreRowsByName, HasRowOfEachPresent};

/// The rows of a table stand strictly by name.
pub fn rows_stand_by_name()
    ensures { AreRowsByName }
{}

/// A table has a row of just the attributes that are present.
pub fn rows_are_those_present()
    ensures { HasRowOfEachPresent }
{}
