// What holds of every whole output. The functions do nothing: each contract is a law.
ghost use Rattle.ocsf_run_laws.specs.RunLaws.{HasOneOutput, CompileHasOneOutput, ValidateHasOneOutput, HasSomeSchema};

/// Of all that `edits` may write over the same bytes to their end, it comes to one text, and a line of them is refused
/// or none is, where each pattern of the bundles that lines lead to is one that `regex` reads and that doesn't nest too
/// deep, or one that it doesn't read.
pub fn edits_has_one_output()
    ensures { HasOneOutput }
{}

/// Of all that `compile` may write over the same folder, it comes to one text, which is a schema or a refusal, where
/// each pattern of its files is such a one.
pub fn compile_has_one_output()
    ensures { CompileHasOneOutput }
{}

/// Of all that `validate` may write over the same folder and the same bytes to their end, it comes to one text, and an
/// answer of it is other than the empty report or none is, where each pattern of the folder's files is such a one.
pub fn validate_has_one_output()
    ensures { ValidateHasOneOutput }
{}

/// Whatever a folder lists, it comes to a schema or to a fault.
pub fn a_folder_comes_to_something()
    ensures { HasSomeSchema }
{}
