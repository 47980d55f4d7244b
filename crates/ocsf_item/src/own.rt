// What an item has of its own: of its file and the patches of it.
ghost use Rattle.std.specs.Prelude.{◌≡◌, ◌≤◌, [], IfOk, IfSome, None, false, unwrap_or, is_none, codes, if◌then◌else◌};
ghost use Rattle.std.specs.Option.{option_map_or, option_and_then, option_copied};
ghost use Rattle.ocsf_lists.specs.ByName.{IsByName, at_name};
ghost use Rattle.ocsf_rules.specs.Chain.{own_file};
ghost use Rattle.ocsf_rules.specs.Compiled.{
  caption,
  description,
  caption_or_key,
  uid,
  is_hidden,
  is_class,
  starts_low,
  enumeration,
};

use crate::attribute::members_of;
use crate::dictionary::dict_said;
use ocsf_bundle::Shows;
use ocsf_merge::Spoken;
use ocsf_raw::ItemFile;
use ocsf_tree::{EnumMember, Key, Row, Text, find_by_name};
use ocsf_walk::{given_by, is_class, own_file, push_speakers_of};
use std::alloc::{AllocError, Global};

/// What an item has of its own.
#[derive(Drop)]
pub(crate) struct Own {
    pub caption: Option<Text>,
    pub description: Option<Text>,
    /// The number of a class.
    pub uid: Option<u32>,
    pub hidden: bool,
}

/// The number of a class, as its file gives it.
fn uid_of(key: &Key, file: Option<&ItemFile>) -> Option<u32>
    requires { IfSome file (λ file. IfSome file.now.uid (λ uid. uid ≤ 999)) }
    ensures uid { result
        ≡ (if is_class key.now then option_and_then (λ file. file.uid) (option_copied file.entry) else None) }
    ensures range { IfSome result (λ uid. uid ≤ 999) }
{
    if !is_class(key) {
        return None;
    }
    match file {
        Some(file) => file.uid,
        None => None,
    }
}

/// Whether the name starts with `_`.
fn starts_low(file: Option<&ItemFile>) -> bool
    ensures { result ≡ option_map_or starts_low (option_and_then (λ file. file.name) (option_copied file.entry)) false }
{
    let Some(file) = file else {
        return false;
    };
    match &file.name {
        Some(name) => is_low(name.as_str()),
        None => false,
    }
}

fn is_low(name: &str) -> bool
    ensures { result ≡ starts_low name.now }
{
    if let [first, ..] = name.as_bytes() {
        *first == b'_'
    } else {
        false
    }
}

/// Whether an item with that number and that file is hidden.
fn hidden(key: &Key, uid: Option<u32>, file: Option<&ItemFile>) -> bool
    ensures { result ≡ (if is_class key.now then is_none uid
        else option_map_or starts_low (option_and_then (λ file. file.name) (option_copied file.entry)) false) }
{
    if is_class(key) {
        uid.is_none()
    } else {
        starts_low(file)
    }
}

/// What the item has of its own.
pub(crate) fn own_of<B: Shows>(alloc: Global, bundle: &B, key: &Key) -> Result<Own, AllocError>
    ensures caption { IfOk result (λ own. own.caption ≡ caption (B.looks bundle.now) key.now) }
    ensures description { IfOk result (λ own. own.description ≡ description (B.looks bundle.now) key.now) }
    ensures uid { IfOk result (λ own. own.uid ≡ uid (B.looks bundle.now) key.now) }
    ensures hidden { IfOk result (λ own. own.hidden ≡ is_hidden (B.looks bundle.now) key.now) }
    ensures range { IfOk result (λ own. IfSome own.uid (λ uid. uid ≤ 999)) }
{
    let file = own_file(bundle, key)?;
    let uid = uid_of(key, file);
    let hidden = hidden(key, uid, file);
    let mut speakers = Vec::new(alloc);
    push_speakers_of(alloc, bundle, key, &mut speakers)?;
    let given = given_by(speakers.as_slice())?;
    Ok(Own {
        caption: given.caption,
        description: given.description,
        uid,
        hidden,
    })
}

/// The caption, or the key where there is none.
pub(crate) fn caption_or_key(caption: &Option<Text>, key: &Key) -> Result<Text, AllocError>
    ensures { IfOk result (λ made. made ≡ unwrap_or caption.now key.now.name) }
{
    match caption {
        Some(caption) => caption.copy(),
        None => key.name.copy(),
    }
}

/// The enumeration of the attribute.
fn enumeration<B: Shows>(
    alloc: Global,
    bundle: &B,
    row: &Spoken,
) -> Result<Row<EnumMember>, AllocError>
    ensures { IfOk result (λ made. made ≡ enumeration (B.looks bundle.now) row.now) }
{
    let said = dict_said(alloc, bundle, &row.attr.name)?;
    members_of(alloc, &said, row)
}

/// The enumeration of `activity_id`, if that is present.
pub(crate) fn activities<B: Shows>(
    alloc: Global,
    bundle: &B,
    rows: &[Spoken],
) -> Result<Row<EnumMember>, AllocError>
    requires { IsByName (λ row. row.attr.name) rows.now }
    ensures { IfOk result (λ made. made
        ≡ option_map_or (enumeration (B.looks bundle.now))
        (at_name (λ row. row.attr.name) (codes "activity_id") rows.now) []) }
{
    match find_by_name(rows, "activity_id") {
        Some(row) => enumeration(alloc, bundle, row),
        None => Ok(Row::new(alloc)),
    }
}
