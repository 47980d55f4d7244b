// What the layers say of each attribute, joined with the dictionary.
ghost use Rattle.std.specs.Prelude.{◌≡◌, ◌∷◌, [], IfOk, IfSome, OnOk, map, flat_map, unwrap_or};
ghost use Rattle.ocsf_rules.specs.Names.{ext_of};
ghost use Rattle.ocsf_rules.specs.Attribute.{dict_said, members_of, attr_of};
ghost use Rattle.ocsf_rules.specs.Compiled.{computed};
ghost use Rattle.ocsf_rules.specs.ItemFaults.{attribute_fault};
ghost use Rattle.ocsf_walk.specs.Ranges.{IsNumberedInRange};
ghost use Rattle.ocsf_rules.specs.Reads.{attribute_reads};
ghost use Rattle.ocsf_item.specs.Joined.{Joins};

use crate::attribute::{attr_from, members_of, profile_of};
use crate::dictionary::dict_said;
use crate::faults::with_attribute;
use crate::leads::leads_to;
use crate::site::Site;
use ocsf_bundle::{Cell, Shows};
use ocsf_merge::Spoken;
use ocsf_rules::{DictSaid, Numbered};
use ocsf_schema::Attr;
use ocsf_tree::{EnumMember, Fault, Row};
use ocsf_walk::{computed, type_of};
use std::alloc::{AllocError, Global};

/// The attributes joined so far.
#[derive(Drop)]
pub(crate) struct Joined {
    pub attrs: Row<Attr>,
    /// The cells read, as they come.
    pub reads: Row<Cell>,
    /// The least fault met.
    pub least: Option<Fault>,
}

/// The enumeration of the attribute: the computed one, where it has one.
fn members_in(
    alloc: Global,
    row: &Spoken,
    said: &DictSaid,
    numbered: &Option<Numbered>,
) -> Result<Row<EnumMember>, AllocError>
    requires { IfSome numbered.now IsNumberedInRange }
    ensures { IfOk result (λ made. made
        ≡ unwrap_or (computed numbered.now row.now.attr.name) (members_of said.now row.now)) }
{
    match computed(alloc, numbered, row.attr.name.as_str())? {
        Some(members) => Ok(members),
        None => members_of(alloc, said, row),
    }
}

/// One attribute more, of which the dictionaries say that.
fn join_said<B: Shows>(
    site: &Site<'_, B>,
    row: &Spoken,
    numbered: &Option<Numbered>,
    joined: &mut Joined,
    said: &DictSaid,
) -> Result<(), AllocError>
    requires range { IfSome numbered.now IsNumberedInRange }
    requires said { said.now ≡ dict_said ((B.looks site.now.bundle.now).dict row.now.attr.name) }
    ensures { let b = B.looks site.now.bundle.now in
        let k = site.now.key.now in
        OnOk result (Joins joined.old joined.new
        (attr_of b (ext_of k.name) (computed numbered.now row.now.attr.name) row.now ∷ [])
        (attribute_reads b (ext_of k.name) row.now) (attribute_fault b k row.now)) }
{
    let leads = leads_to(site, row, said, &mut joined.reads)?;
    let least = joined.least.take();
    let name = row.attr.name.as_str();
    let least = with_attribute(least, site.key, name, &leads, type_of(said, row))?;
    joined.least = least;
    let profile = profile_of(site.alloc, site.bundle, row, &mut joined.reads)?;
    let members = members_in(site.alloc, row, said, numbered)?;
    let attr = attr_from(row, said, leads.target, profile, members)?;
    joined.attrs.push(attr)?;
    Ok(())
}

/// One attribute more.
fn join<B: Shows>(
    site: &Site<'_, B>,
    row: &Spoken,
    numbered: &Option<Numbered>,
    joined: &mut Joined,
) -> Result<(), AllocError>
    requires { IfSome numbered.now IsNumberedInRange }
    ensures { let b = B.looks site.now.bundle.now in
        let k = site.now.key.now in
        OnOk result (Joins joined.old joined.new
        (attr_of b (ext_of k.name) (computed numbered.now row.now.attr.name) row.now ∷ [])
        (attribute_reads b (ext_of k.name) row.now) (attribute_fault b k row.now)) }
{
    let said = dict_said(site.alloc, site.bundle, &row.attr.name)?;
    join_said(site, row, numbered, joined, &said)
}

/// The attributes of these rows, in order.
pub(crate) fn join_all<B: Shows>(
    site: &Site<'_, B>,
    rows: &[Spoken],
    numbered: &Option<Numbered>,
    joined: &mut Joined,
) -> Result<(), AllocError>
    requires { IfSome numbered.now IsNumberedInRange }
    ensures { let b = B.looks site.now.bundle.now in
        let k = site.now.key.now in
        OnOk result (Joins joined.old joined.new
        (map (λ s. attr_of b (ext_of k.name) (computed numbered.now s.attr.name) s) rows.now)
        (flat_map (attribute_reads b (ext_of k.name)) rows.now) (flat_map (attribute_fault b k) rows.now)) }
{
    for row in rows {
        join(site, row, numbered, joined)?;
    }
    Ok(())
}
