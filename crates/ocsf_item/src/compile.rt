// One item, compiled.
ghost use Rattle.std.specs.Prelude.{◌≡◌, ◌++◌, IfOk, IfErr, None, map, flat_map, reverse, slice_get};
ghost use Rattle.ocsf_tree.specs.declared.key.Key.{Key};
ghost use Rattle.std.specs.Option.{option_map};
ghost use Rattle.ocsf_tree.specs.LeastFault.{least_fault};
ghost use Rattle.ocsf_merge.specs.Table.{table_of};
ghost use Rattle.ocsf_rules.specs.Names.{ext_of};
ghost use Rattle.ocsf_rules.specs.Chain.{chain, parent, speakers, layers};
ghost use Rattle.ocsf_rules.specs.Compiled.{profile_keys, item};
ghost use Rattle.ocsf_rules.specs.ItemFaults.{chain_faults, layers_faults, item_fault};
ghost use Rattle.ocsf_rules.specs.Reads.{ext_reads, key_reads, speaker_reads, category_reads, attribute_reads, reads};
ghost use Rattle.ocsf_walk.specs.Speakers.{speaker_of};
ghost use Rattle.ocsf_item.specs.Built.{IsLeastFault};

use crate::assemble::assembled;
use crate::build_error::BuildError;
use crate::order::in_order;
use crate::parts::{Met, item_parts};
use crate::site::Site;
use ocsf_bundle::{Cell, Shows};
use ocsf_merge::{Spoken, Table};
use ocsf_schema::Item;
use ocsf_tree::{Key, Row, Text, TryClone};
use ocsf_walk::{Speaker, Walk, chain_fault, chain_of, ext_of, hear_files, speakers_along};
use std::alloc::{AllocError, Global};

/// The chain of an item, whose faults were looked at.
#[derive(Drop)]
struct Climbed {
    /// The key itself, its parent and so on.
    keys: Row<Key>,
    reads: Row<Cell>,
}

/// The extension of the item is read.
fn ext_reads(alloc: Global, key: &Key) -> Result<Row<Cell>, AllocError>
    ensures { IfOk result (λ made. made ≡ ext_reads (ext_of key.now.name)) }
{
    let mut reads = Row::new(alloc);
    let ext = ext_of(key.name.as_str());
    if !ext.is_empty() {
        reads.push(Cell::Ext(Text::of(alloc, ext)?))?;
    }
    Ok(reads)
}

/// The chain of the item, if nothing is wrong with it.
fn sound_chain<B: Shows>(alloc: Global, bundle: &B, key: &Key) -> Result<Climbed, BuildError>
    ensures keys { IfOk result (λ made. made.keys ≡ chain (B.looks bundle.now) key.now) }
    ensures reads { IfOk result (λ made. made.reads
        ≡ ext_reads (ext_of key.now.name)
        ++ flat_map (key_reads (B.looks bundle.now)) (chain (B.looks bundle.now) key.now)) }
    ensures sound { IfOk result (λ made. least_fault (chain_faults (B.looks bundle.now) key.now) ≡ None) }
    ensures fault { IfErr result (IsLeastFault (B.looks bundle.now) key.now) }
{
    let mut reads = ext_reads(alloc, key)?;
    let made = chain_of(alloc, bundle, key, &mut reads)?;
    let keys = made.keys;
    match chain_fault(bundle, key, keys.as_slice(), made.least)? {
        Some(fault) => Err(BuildError::Fault(fault)),
        None => Ok(Climbed { keys, reads }),
    }
}

/// The layers of an item, folded, whose faults were looked at.
#[derive(Drop)]
struct Heard<'a> {
    /// The files that speak along the chain.
    speakers: Vec<Speaker<'a>>,
    rows: Row<Spoken>,
    /// The profiles of the layers, as they come.
    profiles: Row<Text>,
    reads: Row<Cell>,
}

/// The layers of the item, if nothing is wrong with them, nor with its chain.
fn sound_layers<'a, B: Shows>(
    alloc: Global,
    bundle: &'a B,
    key: &Key,
    climbed: Climbed,
) -> Result<Heard<'a>, BuildError>
    requires keys { climbed.keys ≡ chain (B.looks bundle.now) key.now }
    requires sound { least_fault (chain_faults (B.looks bundle.now) key.now) ≡ None }
    ensures speakers { IfOk result (λ made. map speaker_of made.speakers.items
        ≡ speakers (B.looks bundle.now) key.now) }
    ensures rows { IfOk result (λ made. made.rows ≡ table_of (layers (B.looks bundle.now) key.now)) }
    ensures profiles { IfOk result (λ made. made.profiles ≡ profile_keys (layers (B.looks bundle.now) key.now)) }
    ensures reads { IfOk result (λ made. made.reads
        ≡ climbed.reads ++ flat_map (speaker_reads (B.looks bundle.now)) (speakers (B.looks bundle.now) key.now)) }
    ensures sound { IfOk result (λ made. least_fault (layers_faults (B.looks bundle.now) key.now) ≡ None) }
    ensures fault { IfErr result (IsLeastFault (B.looks bundle.now) key.now) }
{
    let mut keys = climbed.keys;
    keys.reverse();
    let speakers = speakers_along(alloc, bundle, keys.as_slice())?;
    let mut walk = Walk {
        table: Table::empty(alloc),
        profiles: Row::new(alloc),
        reads: climbed.reads,
        least: None,
    };
    hear_files(bundle, &mut walk, speakers.as_slice())?;
    let Walk {
        table,
        profiles,
        reads,
        least,
    } = walk;
    match least {
        Some(fault) => Err(BuildError::Fault(fault)),
        None => Ok(Heard {
            speakers,
            rows: table.rows,
            profiles,
            reads,
        }),
    }
}

/// An item with the cells that it reads.
#[derive(Drop)]
pub(crate) struct Compiled {
    pub item: Item,
    pub reads: Row<Cell>,
}

/// The item whose files and layers these are, if nothing is wrong with it. The cells read come after those.
fn sound_item<B: Shows>(
    site: &Site<'_, B>,
    up: Option<Text>,
    heard: Heard<'_>,
) -> Result<Compiled, BuildError>
    requires up { up ≡ option_map (λ (p : Key). p.name) (parent (B.looks site.now.bundle.now) site.now.key.now) }
    requires files { map speaker_of heard.speakers.items ≡ speakers (B.looks site.now.bundle.now) site.now.key.now }
    requires rows { heard.rows ≡ table_of (layers (B.looks site.now.bundle.now) site.now.key.now) }
    requires profiles { heard.profiles ≡ profile_keys (layers (B.looks site.now.bundle.now) site.now.key.now) }
    requires chain { least_fault (chain_faults (B.looks site.now.bundle.now) site.now.key.now) ≡ None }
    requires layers { least_fault (layers_faults (B.looks site.now.bundle.now) site.now.key.now) ≡ None }
    ensures item { IfOk result (λ made. made.item ≡ item (B.looks site.now.bundle.now) site.now.key.now) }
    ensures reads { IfOk result (λ made. made.reads
        ≡ heard.entry.reads ++ category_reads (B.looks site.now.bundle.now) site.now.key.now
        ++ flat_map (attribute_reads (B.looks site.now.bundle.now) (ext_of site.now.key.now.name))
        (table_of (layers (B.looks site.now.bundle.now) site.now.key.now))) }
    ensures sound { IfOk result (λ made. item_fault (B.looks site.now.bundle.now) site.now.key.now ≡ None) }
    ensures fault { IfErr result (IsLeastFault (B.looks site.now.bundle.now) site.now.key.now) }
{
    let Heard {
        speakers,
        rows,
        profiles,
        reads,
    } = heard;
    let met = item_parts(site, speakers.as_slice(), rows.as_slice(), profiles, reads)?;
    let Met {
        parts,
        reads,
        least,
    } = met;
    match least {
        Some(fault) => Err(BuildError::Fault(fault)),
        None => {
            let item = assembled(site.alloc, site.key, up, parts)?;
            Ok(Compiled { item, reads })
        }
    }
}

/// The key of the parent, the second of the chain.
fn parent_key(keys: &[Key]) -> Result<Option<Text>, AllocError>
    ensures { IfOk result (λ made. made ≡ option_map (λ (p : Key). p.name) (slice_get keys.now 1)) }
{
    match keys.get(1) {
        Some(parent) => Ok(Some(parent.name.copy()?)),
        None => Ok(None),
    }
}

/// The item of the key with the cells that it reads, in order, each once, or its least fault.
pub(crate) fn compiled_item<B: Shows>(
    alloc: Global,
    bundle: &B,
    key: &Key,
) -> Result<Compiled, BuildError>
    ensures item { IfOk result (λ made. made.item ≡ item (B.looks bundle.now) key.now) }
    ensures reads { IfOk result (λ made. made.reads ≡ reads (B.looks bundle.now) key.now) }
    ensures sound { IfOk result (λ made. item_fault (B.looks bundle.now) key.now ≡ None) }
    ensures fault { IfErr result (IsLeastFault (B.looks bundle.now) key.now) }
{
    let climbed = match sound_chain(alloc, bundle, key) {
        Ok(climbed) => climbed,
        Err(error) => return Err(error),
    };
    let up = parent_key(climbed.keys.as_slice())?;
    let heard = match sound_layers(alloc, bundle, key, climbed) {
        Ok(heard) => heard,
        Err(error) => return Err(error),
    };
    let site = Site { alloc, bundle, key };
    let made = sound_item(&site, up, heard);
    match made {
        Ok(made) => {
            let item = made.item;
            let reads = in_order(alloc, made.reads)?;
            Ok(Compiled { item, reads })
        }
        Err(error) => Err(error),
    }
}
