// The parts of an item, and what is wrong with them.
ghost use Rattle.std.specs.Prelude.{◌≡◌, ◌++◌, [], None, IfOk, OnOk, IfSome, map, flat_map};
ghost use Rattle.ocsf_tree.specs.LeastFault.{least_fault, least_from};
ghost use Rattle.ocsf_lists.specs.ByName.{IsByName};
ghost use Rattle.ocsf_merge.specs.Table.{table_of};
ghost use Rattle.ocsf_rules.specs.Names.{ext_of};
ghost use Rattle.ocsf_rules.specs.Chain.{speakers, layers};
ghost use Rattle.ocsf_rules.specs.Attribute.{attr_of};
ghost use Rattle.ocsf_rules.specs.Compiled.{
  caption,
  description,
  is_hidden,
  category,
  class_number,
  numbered,
  computed,
  at_least_one,
  just_one,
};
ghost use Rattle.ocsf_rules.specs.ItemFaults.{
  own_faults,
  activity_faults,
  category_fault,
  attribute_fault,
  absent_fault,
  size_fault,
};
ghost use Rattle.ocsf_walk.specs.Ranges.{IsCategoryInRange, IsNumberedInRange};
ghost use Rattle.ocsf_rules.specs.Reads.{category_reads, attribute_reads};
ghost use Rattle.ocsf_walk.specs.Speakers.{speaker_of};

use crate::assemble::{Lists, Parts, list_or_none};
use crate::class::{ClassParts, class_parts};
use crate::faults::with_rest;
use crate::join::{Joined, join_all};
use crate::own::{Own, own_of};
use crate::site::Site;
use ocsf_bundle::{Cell, Shows};
use ocsf_merge::Spoken;
use ocsf_tree::{Fault, Row, Text};
use ocsf_walk::{Speaker, given_by};
use std::alloc::AllocError;

/// The parts of an item, and what was met on the way to them.
#[derive(Drop)]
pub(crate) struct Met {
    pub parts: Parts,
    /// The cells read, as they come.
    pub reads: Row<Cell>,
    /// The least fault of the item, but for its chain and its layers.
    pub least: Option<Fault>,
}

/// What an item has as a whole.
#[derive(Drop)]
struct Whole {
    own: Own,
    class: ClassParts,
    at_least_one: Row<Text>,
    just_one: Row<Text>,
}

/// What the item whose files and layers these are has as a whole. The cells tried for its category
/// are read, and the least fault is that of its activities and its category.
fn whole_of<B: Shows>(
    site: &Site<'_, B>,
    files: &[Speaker<'_>],
    rows: &[Spoken],
    reads: &mut Row<Cell>,
    least: &mut Option<Fault>,
) -> Result<Whole, AllocError>
    requires files { map speaker_of files.now ≡ speakers (B.looks site.now.bundle.now) site.now.key.now }
    requires rows { rows.now ≡ table_of (layers (B.looks site.now.bundle.now) site.now.key.now) }
    ensures caption { IfOk result (λ whole. whole.own.caption
        ≡ caption (B.looks site.now.bundle.now) site.now.key.now) }
    ensures description { IfOk result (λ whole. whole.own.description
        ≡ description (B.looks site.now.bundle.now) site.now.key.now) }
    ensures hidden { IfOk result (λ whole. whole.own.hidden
        ≡ is_hidden (B.looks site.now.bundle.now) site.now.key.now) }
    ensures category { IfOk result (λ whole. whole.class.category
        ≡ category (B.looks site.now.bundle.now) site.now.key.now) }
    ensures number { IfOk result (λ whole. whole.class.number
        ≡ class_number (B.looks site.now.bundle.now) site.now.key.now) }
    ensures numbered { activity_faults (B.looks site.now.bundle.now) site.now.key.now ≡ []
        → IfOk result (λ whole. whole.class.numbered ≡ numbered (B.looks site.now.bundle.now) site.now.key.now) }
    ensures least { OnOk result (least.new
        ≡ least_from (least_from None (activity_faults (B.looks site.now.bundle.now) site.now.key.now))
        (category_fault (B.looks site.now.bundle.now) site.now.key.now)) }
    ensures category_range { IfOk result (λ whole. IfSome whole.class.category IsCategoryInRange) }
    ensures range { IfOk result (λ whole. IfSome whole.class.numbered IsNumberedInRange) }
    ensures at_least_one { IfOk result (λ whole. whole.at_least_one
        ≡ at_least_one (B.looks site.now.bundle.now) site.now.key.now) }
    ensures just_one { IfOk result (λ whole. whole.just_one ≡ just_one (B.looks site.now.bundle.now) site.now.key.now) }
    ensures reads { OnOk result (reads.new
        ≡ reads.old ++ category_reads (B.looks site.now.bundle.now) site.now.key.now) }
{
    let own = own_of(site.alloc, site.bundle, site.key)?;
    let given = given_by(files)?;
    let mut class = class_parts(site, &own, given.category, rows, reads)?;
    let met = class.least.take();
    *least = met;
    Ok(Whole {
        own,
        class,
        at_least_one: list_or_none(site.alloc, given.at_least_one),
        just_one: list_or_none(site.alloc, given.just_one),
    })
}

/// The attributes of these rows, with the cells read after those, and the least fault with those of the
/// attributes, of the constraints and of too many attributes.
fn joined_of<B: Shows>(
    site: &Site<'_, B>,
    rows: &[Spoken],
    whole: &Whole,
    reads: Row<Cell>,
    least: Option<Fault>,
) -> Result<Joined, AllocError>
    requires range { IfSome whole.now.class.numbered IsNumberedInRange }
    requires by_name { IsByName (λ row. row.attr.name) rows.now }
    ensures attrs { IfOk result (λ made. made.attrs
        ≡ map (λ s. attr_of (B.looks site.now.bundle.now) (ext_of site.now.key.now.name)
        (computed whole.now.class.numbered s.attr.name) s) rows.now) }
    ensures reads { IfOk result (λ made. made.reads
        ≡ reads ++ flat_map (attribute_reads (B.looks site.now.bundle.now) (ext_of site.now.key.now.name)) rows.now) }
    ensures least { let b = B.looks site.now.bundle.now in
        let k = site.now.key.now in
        IfOk result (λ made. made.least
        ≡ least_from (least_from (least_from (least_from least (flat_map (attribute_fault b k) rows.now))
        (flat_map (absent_fault k rows.now) whole.now.at_least_one))
        (flat_map (absent_fault k rows.now) whole.now.just_one)) (size_fault k rows.now)) }
{
    let attrs = Row::with_capacity(site.alloc, rows.len())?;
    let mut joined = Joined {
        attrs,
        reads,
        least,
    };
    join_all(site, rows, &whole.class.numbered, &mut joined)?;
    let some = whole.at_least_one.as_slice();
    let one = whole.just_one.as_slice();
    let before = joined.least.take();
    let after = with_rest(before, site.key, rows, some, one)?;
    joined.least = after;
    Ok(joined)
}

/// The parts of the item whose files and layers these are.
pub(crate) fn item_parts<B: Shows>(
    site: &Site<'_, B>,
    files: &[Speaker<'_>],
    rows: &[Spoken],
    profiles: Row<Text>,
    reads: Row<Cell>,
) -> Result<Met, AllocError>
    requires files { map speaker_of files.now ≡ speakers (B.looks site.now.bundle.now) site.now.key.now }
    requires rows { rows.now ≡ table_of (layers (B.looks site.now.bundle.now) site.now.key.now) }
    ensures caption { IfOk result (λ met. met.parts.own.caption
        ≡ caption (B.looks site.now.bundle.now) site.now.key.now) }
    ensures description { IfOk result (λ met. met.parts.own.description
        ≡ description (B.looks site.now.bundle.now) site.now.key.now) }
    ensures hidden { IfOk result (λ met. met.parts.own.hidden
        ≡ is_hidden (B.looks site.now.bundle.now) site.now.key.now) }
    ensures category { IfOk result (λ met. met.parts.category
        ≡ category (B.looks site.now.bundle.now) site.now.key.now) }
    ensures number { IfOk result (λ met. met.parts.number
        ≡ class_number (B.looks site.now.bundle.now) site.now.key.now) }
    ensures profiles { IfOk result (λ met. met.parts.lists.profiles ≡ profiles) }
    ensures at_least_one { IfOk result (λ met. met.parts.lists.at_least_one
        ≡ at_least_one (B.looks site.now.bundle.now) site.now.key.now) }
    ensures just_one { IfOk result (λ met. met.parts.lists.just_one
        ≡ just_one (B.looks site.now.bundle.now) site.now.key.now) }
    ensures attrs { activity_faults (B.looks site.now.bundle.now) site.now.key.now ≡ []
        → IfOk result (λ met. met.parts.attrs
        ≡ map (λ s. attr_of (B.looks site.now.bundle.now) (ext_of site.now.key.now.name)
        (computed (numbered (B.looks site.now.bundle.now) site.now.key.now) s.attr.name) s)
        (table_of (layers (B.looks site.now.bundle.now) site.now.key.now))) }
    ensures reads { IfOk result (λ met. met.reads
        ≡ reads ++ category_reads (B.looks site.now.bundle.now) site.now.key.now
        ++ flat_map (attribute_reads (B.looks site.now.bundle.now) (ext_of site.now.key.now.name))
        (table_of (layers (B.looks site.now.bundle.now) site.now.key.now))) }
    ensures least { IfOk result (λ met. met.least
        ≡ least_fault (own_faults (B.looks site.now.bundle.now) site.now.key.now)) }
    ensures range { IfOk result (λ met. IfSome met.parts.category IsCategoryInRange) }
{
    let mut reads = reads;
    let mut least = None;
    let whole = whole_of(site, files, rows, &mut reads, &mut least)?;
    let joined = joined_of(site, rows, &whole, reads, least)?;
    let Whole {
        own,
        class,
        at_least_one,
        just_one,
    } = whole;
    let lists = Lists {
        profiles,
        at_least_one,
        just_one,
    };
    let parts = Parts {
        own,
        category: class.category,
        number: class.number,
        lists,
        attrs: joined.attrs,
    };
    Ok(Met {
        parts,
        reads: joined.reads,
        least: joined.least,
    })
}
