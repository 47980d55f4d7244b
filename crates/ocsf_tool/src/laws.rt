// What holds of every line, folder and run, whatever program runs. The functions do nothing: each contract is a law.
ghost use Rattle.ocsf_tool.specs.Laws.{HasOneOutcome, HasOneSchema, LimitTakesItsBytes};

/// A line is accepted with one bundle or refused by one fault, where each pattern of the bundle that it leads to is one
/// that `regex` reads and that doesn't nest too deep, or one that it doesn't read.
pub fn a_line_has_one_outcome()
    ensures { HasOneOutcome }
{}

/// A folder comes to one schema or to one fault, where each pattern of its files is such a one.
pub fn a_folder_comes_to_one_schema_or_one_fault()
    ensures { HasOneSchema }
{}

/// A run ends at the limit only over a source that had 2^40 bytes left, where it tells them.
pub fn the_limit_takes_its_bytes()
    ensures { LimitTakesItsBytes }
{}
