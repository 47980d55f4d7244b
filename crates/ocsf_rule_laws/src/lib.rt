//! What holds of the rules of compiling, whatever program compiles: equal looks give equal items, the least fault is of
//! the items, a bundle has one verdict, the patterns of a clean one are read, and every tree, edit and bundle comes to
//! something. The functions do nothing: each contract is a law.
#![tactic(auto)]

mod closed_laws;
mod existence_laws;
mod look_laws;
mod pattern_laws;
mod verdict_laws;

pub use closed_laws::{
    a_schema_has_every_kind, attributes_lead_into_the_schema, classes_are_found_by_number,
    hidden_items_have_no_number, types_and_kinds_agree,
};
pub use existence_laws::{
    a_bundle_has_a_verdict, a_tree_has_a_first_fault_or_none, a_tree_says_an_edit_or_fails,
    an_edit_leads_to_files_or_fails,
};
pub use look_laws::{
    same_looks_give_the_same_attribute, same_looks_give_the_same_category,
    same_looks_give_the_same_chain, same_looks_give_the_same_item, same_looks_give_the_same_layers,
};
pub use pattern_laws::a_clean_bundle_has_read_patterns;
pub use verdict_laws::{a_bundle_has_one_verdict, least_fault_is_of_items};
