// What a class has besides: its category, its numbers and its computed enumerations.
ghost use Rattle.std.specs.Prelude.{◌≡◌, ◌++◌, ◌≤◌, [], None, IfOk, IfSome, OnOk};
ghost use Rattle.ocsf_lists.specs.Given.{last_given};
ghost use Rattle.ocsf_tree.specs.LeastFault.{least_from};
ghost use Rattle.ocsf_merge.specs.Table.{table_of};
ghost use Rattle.ocsf_rules.specs.Names.{ext_of};
ghost use Rattle.ocsf_rules.specs.Chain.{speakers, layers};
ghost use Rattle.ocsf_rules.specs.Compiled.{
  caption_or_key,
  ext_uid,
  written_in,
  category,
  class_number,
  activities,
  numbered,
  caption,
  uid,
};
ghost use Rattle.ocsf_rules.specs.ItemFaults.{activity_faults, category_fault};
ghost use Rattle.ocsf_walk.specs.Ranges.{IsCategoryInRange, IsNumberedInRange};
ghost use Rattle.ocsf_rules.specs.Reads.{category_reads};

use crate::categories::{category_named, class_number, ext_uid};
use crate::faults::{with_activities, with_category};
use crate::own::{Own, activities, caption_or_key};
use crate::site::Site;
use ocsf_bundle::{Cell, Shows};
use ocsf_merge::Spoken;
use ocsf_rules::{Category, Numbered, Written};
use ocsf_tree::{EnumMember, Fault, Key, Row, Text};
use ocsf_walk::{ext_of, numbered_by, written_by};
use std::alloc::{AllocError, Global};

/// What a class has besides. An object has none of it.
#[derive(Drop)]
pub(crate) struct ClassParts {
    pub category: Option<Category>,
    /// The number of the class.
    pub number: Option<u64>,
    /// What its enumerations are computed from, where each activity is a number.
    pub numbered: Option<Numbered>,
    /// The least fault of its activities and its category.
    pub least: Option<Fault>,
}

/// The category of a class, and the least fault so far with that of the category.
#[derive(Drop)]
struct Categorized {
    category: Option<Category>,
    least: Option<Fault>,
}

/// The category of a class for which that one is given. The cells tried for it are read.
fn category_parts<B: Shows>(
    site: &Site<'_, B>,
    own_uid: Option<u32>,
    given: Option<Written>,
    least: Option<Fault>,
    reads: &mut Row<Cell>,
) -> Result<Categorized, AllocError>
    requires uid { own_uid ≡ uid (B.looks site.now.bundle.now) site.now.key.now }
    requires given { given ≡ last_given written_in (speakers (B.looks site.now.bundle.now) site.now.key.now) }
    ensures category { IfOk result (λ made. made.category ≡ category (B.looks site.now.bundle.now) site.now.key.now) }
    ensures least { IfOk result (λ made. made.least
        ≡ least_from least (category_fault (B.looks site.now.bundle.now) site.now.key.now)) }
    ensures range { IfOk result (λ made. IfSome made.category IsCategoryInRange) }
    ensures reads { OnOk result (reads.new
        ≡ reads.old ++ category_reads (B.looks site.now.bundle.now) site.now.key.now) }
{
    let written = written_by(site.key, given);
    let category = category_named(site.alloc, site.bundle, &written, reads)?;
    let least = with_category(least, site.key, &category, &written, own_uid)?;
    Ok(Categorized { category, least })
}

/// What the numbers and the enumerations of an item are made from, besides its category.
#[derive(Drop)]
struct Counted {
    /// The uid of its extension, 0 for core.
    ext: u32,
    /// The caption, or the key where there is none.
    caption: Text,
    activities: Row<EnumMember>,
    /// The least fault of its activities.
    least: Option<Fault>,
}

fn counts_of<B: Shows>(
    alloc: Global,
    bundle: &B,
    key: &Key,
    own: &Own,
    rows: &[Spoken],
) -> Result<Counted, AllocError>
    requires caption { own.now.caption ≡ caption (B.looks bundle.now) key.now }
    requires uid { own.now.uid ≡ uid (B.looks bundle.now) key.now }
    requires rows { rows.now ≡ table_of (layers (B.looks bundle.now) key.now) }
    ensures ext { IfOk result (λ made. made.ext ≡ ext_uid (B.looks bundle.now) (ext_of key.now.name)) }
    ensures range { IfOk result (λ made. made.ext ≤ 999) }
    ensures caption { IfOk result (λ made. made.caption ≡ caption_or_key (B.looks bundle.now) key.now) }
    ensures activities { IfOk result (λ made. made.activities ≡ activities (B.looks bundle.now) key.now) }
    ensures least { IfOk result (λ made. made.least ≡ least_from None (activity_faults (B.looks bundle.now) key.now)) }
{
    let ext = ext_uid(alloc, bundle, ext_of(key.name.as_str()))?;
    let caption = caption_or_key(&own.caption, key)?;
    let activities = activities(alloc, bundle, rows)?;
    let least = with_activities(None, key, own.uid, activities.as_slice())?;
    Ok(Counted {
        ext,
        caption,
        activities,
        least,
    })
}

/// What a class has besides. The cells tried for its category are read.
pub(crate) fn class_parts<B: Shows>(
    site: &Site<'_, B>,
    own: &Own,
    given: Option<Written>,
    rows: &[Spoken],
    reads: &mut Row<Cell>,
) -> Result<ClassParts, AllocError>
    requires caption { own.now.caption ≡ caption (B.looks site.now.bundle.now) site.now.key.now }
    requires uid { own.now.uid ≡ uid (B.looks site.now.bundle.now) site.now.key.now }
    requires range { IfSome own.now.uid (λ uid. uid ≤ 999) }
    requires given { given ≡ last_given written_in (speakers (B.looks site.now.bundle.now) site.now.key.now) }
    requires rows { rows.now ≡ table_of (layers (B.looks site.now.bundle.now) site.now.key.now) }
    ensures category { IfOk result (λ parts. parts.category ≡ category (B.looks site.now.bundle.now) site.now.key.now) }
    ensures number { IfOk result (λ parts. parts.number ≡ class_number (B.looks site.now.bundle.now) site.now.key.now) }
    ensures numbered { activity_faults (B.looks site.now.bundle.now) site.now.key.now ≡ []
        → IfOk result (λ parts. parts.numbered ≡ numbered (B.looks site.now.bundle.now) site.now.key.now) }
    ensures least { IfOk result (λ parts. parts.least
        ≡ least_from (least_from None (activity_faults (B.looks site.now.bundle.now) site.now.key.now))
        (category_fault (B.looks site.now.bundle.now) site.now.key.now)) }
    ensures category_range { IfOk result (λ parts. IfSome parts.category IsCategoryInRange) }
    ensures range { IfOk result (λ parts. IfSome parts.numbered IsNumberedInRange) }
    ensures reads { OnOk result (reads.new
        ≡ reads.old ++ category_reads (B.looks site.now.bundle.now) site.now.key.now) }
{
    let counted = counts_of(site.alloc, site.bundle, site.key, own, rows)?;
    let Counted {
        ext,
        caption,
        activities,
        least,
    } = counted;
    let made = category_parts(site, own.uid, given, least, reads)?;
    let Categorized { category, least } = made;
    let number = class_number(ext, own.uid, &category);
    let numbered = numbered_by(number, caption, &category, activities)?;
    Ok(ClassParts {
        category,
        number,
        numbered,
        least,
    })
}
