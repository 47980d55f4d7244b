// What holds of the ways of all types. The function does nothing: its contract is a law.
ghost use Rattle.ocsf_kind.specs.Laws.{IsCycleOfMoves};

/// A type is in a cycle exactly where each of the first 33 names on its way is listed and no base.
pub fn cycles_have_no_end()
    ensures { IsCycleOfMoves }
{}
