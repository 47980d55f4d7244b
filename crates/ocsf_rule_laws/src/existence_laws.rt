// What every tree, edit and bundle comes to, so that each has an answer besides want of memory. The
// functions do nothing: each contract is a law.
ghost use Rattle.ocsf_rule_laws.specs.ExistenceLaws.{HasFirstFault, SaysOrFails, LeadsOrFails, HasVerdict};

/// Whatever is wanted of it, a valid tree has a first fault by place, or none.
pub fn a_tree_has_a_first_fault_or_none()
    ensures { HasFirstFault }
{}

/// A valid tree says an edit, or has a first place at which it is none.
pub fn a_tree_says_an_edit_or_fails()
    ensures { SaysOrFails }
{}

/// Changes lead to files and enabled extensions, or one of them is the first that has a fault.
pub fn an_edit_leads_to_files_or_fails()
    ensures { LeadsOrFails }
{}

/// A bundle has a verdict.
pub fn a_bundle_has_a_verdict()
    ensures { HasVerdict }
{}
