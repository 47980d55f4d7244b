// What holds of every tree that may be an edit, and of every edit. The functions do nothing: each contract is a
// law.
ghost use Rattle.ocsf_tree.specs.declared.tree.Tree.{Tree};
ghost use Rattle.ocsf_bundle.specs.AfterLaws.{HasOneEdit, HasOneAfter};
ghost use Rattle.ocsf_bundle.specs.Edits.{IsOneEdit};

/// A tree is an edit exactly where no place has a fault, and then one edit.
pub fn edits_read_one_way()
    ensures { (tree : Tree) → IsOneEdit tree }
{}

/// A tree says one edit, or has one fault.
pub fn a_tree_says_one_edit_or_has_one_fault()
    ensures { HasOneEdit }
{}

/// An edit of a bundle leads to one bundle, or has one fault.
pub fn an_edit_leads_to_one_bundle_or_has_one_fault()
    ensures { HasOneAfter }
{}
