// What layers say of attributes, folded layer by layer.
ghost use Rattle.std.specs.Prelude.{◌≡◌, ◌++◌, ◌∷◌, [], List, IfOk, OnOk, OnErr};
ghost use Rattle.ocsf_raw.specs.Ordered.{AreEntriesOrdered};
ghost use Rattle.ocsf_merge.specs.Layers.{Layer, layer_of};
ghost use Rattle.ocsf_merge.specs.Table.{table_of};
ghost use Rattle.ocsf_merge.specs.Fold.{after_layer};

use crate::members::append_clones;
use crate::row::{first_row, row_after};
use crate::spoken::Spoken;
use ocsf_raw::{ProfileFile, RawAttr};
use ocsf_tree::{Row, TryClone};
use std::alloc::{AllocError, Global};
use std::cmp::Ordering;

/// What layers say of each attribute that is present.
#[derive(Debug, Drop)]
pub struct Table {
    /// Strictly by name.
    pub rows: Row<Spoken>,
}

impl Table {
    /// The table of no layers, which takes no memory.
    pub fn empty(alloc: Global) -> Table
        ensures { result.rows ≡ table_of [] }
    {
        Table {
            rows: Row::new(alloc),
        }
    }

    /// Adds one layer as the last. `from` is the extension of its file, empty for core; a profile file is given
    /// with its key, any other with `None` and the empty text. It takes time linear in the table and the layer.
    pub fn fold(
        &mut self,
        from: &str,
        profile: Option<&ProfileFile>,
        profile_key: &str,
        attributes: &[RawAttr],
    ) -> Result<(), AllocError>
        requires { AreEntriesOrdered attributes.now }
        ensures ok { OnOk result ((layers : List Layer) → self.old.rows ≡ table_of layers
            → self.new.rows ≡ table_of (layers
            ++ layer_of from.now profile.entry profile_key.now attributes.now ∷ [])) }
        ensures err { OnErr result (self.new ≡ self.old) }
    {
        self.rows = folded(&self.rows, from, profile, profile_key, attributes)?;
        Ok(())
    }
}

/// The rows after the layer.
fn folded(
    rows: &Row<Spoken>,
    from: &str,
    profile: Option<&ProfileFile>,
    profile_key: &str,
    attributes: &[RawAttr],
) -> Result<Row<Spoken>, AllocError>
    ensures { IfOk result (λ made. made
        ≡ after_layer (layer_of from.now profile.entry profile_key.now attributes.now) attributes.now rows.now) }
{
    let alloc = rows.allocator();
    let mut made = Row::new(alloc);
    let mut adds = attributes;
    let mut olds = rows.as_slice();
    while let [entry, more @ ..] = adds {
        if let [row, left @ ..] = olds {
            match entry.name.cmp(&row.attr.name) {
                Ordering::Less => {
                    if !entry.removed {
                        made.push(first_row(alloc, from, profile, profile_key, entry)?)?;
                    }
                    adds = more;
                }
                Ordering::Equal => {
                    if !entry.removed {
                        made.push(row_after(from, profile, profile_key, entry, row)?)?;
                    }
                    adds = more;
                    olds = left;
                }
                Ordering::Greater => {
                    made.push(row.try_clone()?)?;
                    olds = left;
                }
            }
        } else {
            if !entry.removed {
                made.push(first_row(alloc, from, profile, profile_key, entry)?)?;
            }
            adds = more;
        }
    }
    append_clones(&mut made, olds)?;
    Ok(made)
}
