// What the cells that an item reads are good for: what holds of every two bundles that show the same
// there. The functions do nothing: each contract is a law.
ghost use Rattle.ocsf_rule_laws.specs.LookLaws.{HaveSameChain, HaveSameLayers, HaveSameAttribute, HaveSameCategory};
ghost use Rattle.ocsf_rule_laws.specs.LookLaws.{HaveSameItem};

/// Two bundles that show the same at the cells read for the chain have the same chain.
pub fn same_looks_give_the_same_chain()
    ensures { HaveSameChain }
{}

/// And where they show the same at those read for the layers too, the same layers, whose entries name
/// the same profiles.
pub fn same_looks_give_the_same_layers()
    ensures { HaveSameLayers }
{}

/// Two bundles that show the same at the cells read for an attribute have the same dictionary entries
/// of it, and its type leads to the same.
pub fn same_looks_give_the_same_attribute()
    ensures { HaveSameAttribute }
{}

/// Two bundles that show the same at the cells read for the chain and the category have the same
/// category.
pub fn same_looks_give_the_same_category()
    ensures { HaveSameCategory }
{}

/// Two bundles that show the same at the cells that an item reads have the same item, which reads the
/// same cells, and the same least fault of it.
pub fn same_looks_give_the_same_item()
    ensures { HaveSameItem }
{}
