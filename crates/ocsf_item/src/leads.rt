// What the type of an attribute leads to, where a dictionary has the attribute.
ghost use Rattle.std.specs.Prelude.{◌≡◌, ◌∷◌, ◌++◌, [], IfOk, OnOk};
ghost use Rattle.ocsf_bundle.specs.Looks.{is_there};
ghost use Rattle.ocsf_rules.specs.Names.{ext_of};
ghost use Rattle.ocsf_rules.specs.Attribute.{dict_said, target_of};
ghost use Rattle.ocsf_rules.specs.Reads.{dict_reads};
ghost use Rattle.ocsf_item.specs.Dictionary.{dict_cell};

use crate::site::Site;
use ocsf_bundle::{Cell, Shows};
use ocsf_merge::Spoken;
use ocsf_rules::DictSaid;
use ocsf_schema::Target;
use ocsf_tree::{Row, Text};
use ocsf_walk::{ext_of, is_shown, target_named, type_of};
use std::alloc::AllocError;

/// Whether a dictionary has the attribute, and what its type leads to.
#[derive(Drop)]
pub(crate) struct Leads {
    pub there: bool,
    pub target: Option<Target>,
}

fn shows_entry<B: Shows>(bundle: &B, name: &Text, cell: &Cell) -> bool
    requires { cell.now ≡ dict_cell name.now }
    ensures { result ≡ is_there ((B.looks bundle.now).dict name.now) }
{
    is_shown(bundle, cell)
}

/// Whether a dictionary has the attribute. The cell asked is read.
fn has_entry<B: Shows>(bundle: &B, name: &Text, reads: &mut Row<Cell>) -> Result<bool, AllocError>
    ensures there { IfOk result (λ there. there ≡ is_there ((B.looks bundle.now).dict name.now)) }
    ensures reads { OnOk result (reads.new ≡ reads.old ++ dict_cell name.now ∷ []) }
{
    let cell = Cell::Dict(name.copy()?);
    let there = shows_entry(bundle, name, &cell);
    reads.push(cell)?;
    Ok(there)
}

/// What the attribute's type leads to. The cells asked are read.
pub(crate) fn leads_to<B: Shows>(
    site: &Site<'_, B>,
    row: &Spoken,
    said: &DictSaid,
    reads: &mut Row<Cell>,
) -> Result<Leads, AllocError>
    requires { said.now ≡ dict_said ((B.looks site.now.bundle.now).dict row.now.attr.name) }
    ensures there { IfOk result (λ leads. leads.there
        ≡ is_there ((B.looks site.now.bundle.now).dict row.now.attr.name)) }
    ensures target { IfOk result (λ leads. leads.target
        ≡ target_of (B.looks site.now.bundle.now) (ext_of site.now.key.now.name) row.now) }
    ensures reads { OnOk result (reads.new
        ≡ reads.old ++ dict_reads (B.looks site.now.bundle.now) (ext_of site.now.key.now.name) row.now) }
{
    let there = has_entry(site.bundle, &row.attr.name, reads)?;
    if !there {
        return Ok(Leads {
            there,
            target: None,
        });
    }
    match type_of(said, row) {
        Some(written) => {
            let ext = ext_of(site.key.name.as_str());
            let target = target_named(site.alloc, site.bundle, ext, written, reads)?;
            Ok(Leads { there, target })
        }
        None => Ok(Leads {
            there,
            target: None,
        }),
    }
}
