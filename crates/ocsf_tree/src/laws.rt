// What holds of every tree, text and place. The functions do nothing: each contract is a law.
ghost use Rattle.ocsf_tree.specs.Laws.{IsAlwaysRead, IsReadOnce, IsTextOfOne, IsTextOfParts, IsKeyOrder, IsPlaceOrder};
ghost use Rattle.ocsf_tree.specs.LeastFault.{LeastIsLeast};

use crate::key::Key;

/// Every text is a tree, is no JSON, or holds a number that a tree can't hold.
pub fn every_text_reads()
    ensures { IsAlwaysRead }
{}

/// A text reads in one way.
pub fn reads_one_way()
    ensures { IsReadOnce }
{}

/// Valid trees that are printed alike are equal.
pub fn prints_tell_trees_apart()
    ensures { IsTextOfOne }
{}

/// The print of a list or an object joins the prints of what it holds.
pub fn prints_join()
    ensures { IsTextOfParts }
{}

/// Keys are ordered as their texts are by their bytes.
pub fn keys_go_by_their_texts()
    ensures { IsKeyOrder ⟦<Key as Ord>⟧.cmp }
{}

/// Places are ordered totally.
pub fn places_are_ordered()
    ensures { IsPlaceOrder }
{}

/// The least of several faults is one of them that no other comes before.
pub fn least_faults_are_least()
    ensures { LeastIsLeast }
{}
