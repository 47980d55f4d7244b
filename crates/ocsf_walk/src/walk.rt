// The walk along the files that speak: their layers are folded as they are heard.
ghost use Rattle.std.specs.Prelude.{◌≡◌, [], ◌∷◌, OnOk, IfOk, None, flat_map, map};
ghost use Rattle.std.specs.Option.{option_copied};
ghost use Rattle.ocsf_raw.specs.Ordered.{AreEntriesOrdered};
ghost use Rattle.ocsf_tree.specs.Key.{key_text};
ghost use Rattle.ocsf_rules.specs.Names.{key_in, found, tried, profile_cells, include_cells};
ghost use Rattle.ocsf_rules.specs.Chain.{plain_layer, profile_layer, include_layer, listed_layer, layers_of};
ghost use Rattle.ocsf_rules.specs.ItemFaults.{
  entry_fault,
  layer_faults,
  unknown_profile,
  include_faults,
  listed_faults,
  speaker_faults,
  fault,
};
ghost use Rattle.ocsf_rules.specs.Reads.{entry_reads, layer_reads, include_reads, listed_reads, speaker_reads};
ghost use Rattle.ocsf_walk.specs.Speakers.{speaker_of, AreSpeakersOrdered};
ghost use Rattle.ocsf_walk.specs.Walk.{Hears, profile_cell, include_cell, layers_at};

use crate::names::{ext_of, include_cells, key_in, profile_cells, resolve};
use crate::speakers::Speaker;
use ocsf_bundle::{Cell, Part, Shows};
use ocsf_merge::Table;
use ocsf_raw::{Mark, ProfileFile, RawAttr};
use ocsf_tree::{Code, Fault, Key, Row, Text, TryClone, lesser_fault};
use std::alloc::AllocError;

/// What was heard so far.
#[derive(Drop)]
pub struct Walk {
    pub table: Table,
    /// The profiles of its layers, as they come.
    pub profiles: Row<Text>,
    /// The cells read, as they come.
    pub reads: Row<Cell>,
    /// The least fault met.
    pub least: Option<Fault>,
}

/// For whom a file speaks.
#[derive(Clone, Copy, Drop)]
struct Voice<'a> {
    /// The key on the chain that it speaks for.
    by: &'a Key,
    /// Its extension, empty for core.
    ext: &'a str,
}

/// One fault more.
fn blame(walk: &mut Walk, code: Code, by: &Key, name: &str) -> Result<(), AllocError>
    ensures { OnOk result (Hears walk.old walk.new [] [] (fault code (key_text by.now) name.now ∷ [])) }
{
    let subject = by.to_text()?;
    let name = Text::of(by.name.allocator(), name)?;
    let fault = Fault {
        code,
        subject,
        name,
    };
    let least = walk.least.take();
    walk.least = lesser_fault(least, fault);
    Ok(())
}

/// The first of these cells that shows something. The cells tried are read.
fn try_cells<'a, B: Shows>(
    bundle: &B,
    walk: &mut Walk,
    cells: &'a [Cell],
) -> Result<Option<&'a Cell>, AllocError>
    ensures found { IfOk result (λ made. option_copied made ≡ found (B.looks bundle.now) cells.now) }
    ensures hears { OnOk result (Hears walk.old walk.new [] (tried (B.looks bundle.now) cells.now) []) }
{
    let made = resolve(bundle, cells, &mut walk.reads)?;
    Ok(made)
}

/// The profile that a file of that extension names.
fn find_profile<B: Shows>(
    bundle: &B,
    walk: &mut Walk,
    voice: &Voice<'_>,
    name: &str,
) -> Result<Option<Cell>, AllocError>
    ensures found { IfOk result (λ made. made ≡ found (B.looks bundle.now) (profile_cells voice.now.ext.now name.now)) }
    ensures hears { let b = B.looks bundle.now in
        OnOk result (Hears walk.old walk.new []
        (tried b (profile_cells voice.now.ext.now name.now))
        (unknown_profile b voice.now.by.now voice.now.ext.now name.now)) }
{
    let cells = profile_cells(voice.by.name.allocator(), voice.ext, name)?;
    match try_cells(bundle, walk, cells.as_slice())? {
        Some(cell) => Ok(Some(cell.try_clone()?)),
        None => {
            blame(walk, Code::ProfileUnknown, voice.by, name)?;
            Ok(None)
        }
    }
}

/// The profile that the mark of an entry names.
fn hear_mark<B: Shows>(
    bundle: &B,
    walk: &mut Walk,
    voice: &Voice<'_>,
    entry: &RawAttr,
) -> Result<(), AllocError>
    ensures { let b = B.looks bundle.now in
        OnOk result (Hears walk.old walk.new []
        (entry_reads b voice.now.ext.now entry.now)
        (entry_fault b voice.now.by.now voice.now.ext.now entry.now)) }
{
    if entry.removed {
        return Ok(());
    }
    if let Mark::Named(name) = &entry.mark {
        find_profile(bundle, walk, voice, name.as_str())?;
        return Ok(());
    }
    Ok(())
}

/// The profiles that the marks of a layer's entries name.
fn hear_marks<B: Shows>(
    bundle: &B,
    walk: &mut Walk,
    voice: &Voice<'_>,
    entries: &[RawAttr],
) -> Result<(), AllocError>
    ensures { let b = B.looks bundle.now in
        OnOk result (Hears walk.old walk.new []
        (flat_map (entry_reads b voice.now.ext.now) entries.now)
        (flat_map (entry_fault b voice.now.by.now voice.now.ext.now) entries.now)) }
{
    for entry in entries {
        hear_mark(bundle, walk, voice, entry)?;
    }
    Ok(())
}

/// The entries of a layer that is no profile file.
fn hear_plain<B: Shows>(
    bundle: &B,
    walk: &mut Walk,
    voice: &Voice<'_>,
    entries: &[RawAttr],
) -> Result<(), AllocError>
    requires { AreEntriesOrdered entries.now }
    ensures { let b = B.looks bundle.now in
        OnOk result (Hears walk.old walk.new (plain_layer voice.now.ext.now entries.now ∷ [])
        (flat_map (entry_reads b voice.now.ext.now) entries.now)
        (flat_map (entry_fault b voice.now.by.now voice.now.ext.now) entries.now)) }
{
    hear_marks(bundle, walk, voice, entries)?;
    walk.table.fold(voice.ext, None, "", entries)?;
    Ok(())
}

/// The profile file of that key, as a layer without its marks.
fn fold_profile(
    walk: &mut Walk,
    ext: &str,
    key: &Text,
    file: &ProfileFile,
) -> Result<(), AllocError>
    requires { AreEntriesOrdered file.now.attributes }
    ensures { OnOk result (Hears walk.old walk.new
        (profile_layer ext.now key.now file.now ∷ []) (profile_cell key.now ∷ []) []) }
{
    walk.reads.push(Cell::Profile(key.copy()?))?;
    walk.profiles.push(key.copy()?)?;
    walk.table
        .fold(ext, Some(file), key.as_str(), file.attributes.as_slice())?;
    Ok(())
}

/// The profile file of that key.
fn hear_profile<B: Shows>(
    bundle: &B,
    walk: &mut Walk,
    voice: &Voice<'_>,
    key: &Text,
    file: &ProfileFile,
) -> Result<(), AllocError>
    requires { AreEntriesOrdered file.now.attributes }
    ensures { let b = B.looks bundle.now in
        let layer = profile_layer voice.now.ext.now key.now file.now in
        OnOk result (Hears walk.old walk.new
        (layer ∷ []) (layer_reads b layer) (layer_faults b voice.now.by.now layer)) }
{
    fold_profile(walk, voice.ext, key, file)?;
    hear_marks(bundle, walk, voice, file.attributes.as_slice())?;
    Ok(())
}

/// The profile file that is included in an extension, empty for core.
fn hear_included<B: Shows>(
    bundle: &B,
    walk: &mut Walk,
    voice: &Voice<'_>,
    file: &ProfileFile,
) -> Result<(), AllocError>
    requires { AreEntriesOrdered file.now.attributes }
    ensures { let b = B.looks bundle.now in
        let layer = profile_layer voice.now.ext.now (key_in voice.now.ext.now file.now.name) file.now in
        OnOk result (Hears walk.old walk.new
        (layer ∷ []) (layer_reads b layer) (layer_faults b voice.now.by.now layer)) }
{
    let key = key_in(voice.by.name.allocator(), voice.ext, file.name.as_str())?;
    hear_profile(bundle, walk, voice, &key, file)?;
    Ok(())
}

/// The file at that path, if one stands there, as a layer.
fn hear_include_at<B: Shows>(
    bundle: &B,
    walk: &mut Walk,
    voice: &Voice<'_>,
    path: &Text,
    cell: &Cell,
) -> Result<(), AllocError>
    requires { cell.now ≡ include_cell voice.now.ext.now path.now }
    ensures { let b = B.looks bundle.now in
        let layers = layers_at b (include_cell voice.now.ext.now path.now) in
        OnOk result (Hears walk.old walk.new layers
        (flat_map (layer_reads b) layers) (flat_map (layer_faults b voice.now.by.now) layers)) }
{
    match bundle.look(cell, 0) {
        Some(Part::Profile(file)) => {
            hear_included(bundle, walk, voice, file)?;
            Ok(())
        }
        Some(Part::Include(entries)) => {
            hear_plain(bundle, walk, voice, entries)?;
            Ok(())
        }
        _ => Ok(()),
    }
}

/// The profile of that key, if there is one, as a layer.
fn hear_profile_at<B: Shows>(
    bundle: &B,
    walk: &mut Walk,
    by: &Key,
    key: &Text,
    cell: &Cell,
) -> Result<(), AllocError>
    requires { cell.now ≡ profile_cell key.now }
    ensures { let b = B.looks bundle.now in
        let layers = layers_at b (profile_cell key.now) in
        OnOk result (Hears walk.old walk.new layers
        (flat_map (layer_reads b) layers) (flat_map (layer_faults b by.now) layers)) }
{
    match bundle.look(cell, 0) {
        Some(Part::Profile(file)) => {
            let ext = ext_of(key.as_str());
            let voice = Voice { by, ext };
            hear_profile(bundle, walk, &voice, key, file)?;
            Ok(())
        }
        _ => Ok(()),
    }
}

/// The layer that the cell of an included file or of a profile shows.
fn hear_cell<B: Shows>(bundle: &B, walk: &mut Walk, by: &Key, cell: &Cell) -> Result<(), AllocError>
    ensures { let b = B.looks bundle.now in
        OnOk result (Hears walk.old walk.new (layers_at b cell.now)
        (flat_map (layer_reads b) (layers_at b cell.now))
        (flat_map (layer_faults b by.now) (layers_at b cell.now))) }
{
    match cell {
        Cell::Include { from, path } => {
            let ext = from.as_str();
            let voice = Voice { by, ext };
            hear_include_at(bundle, walk, &voice, path, cell)
        }
        Cell::Profile(key) => hear_profile_at(bundle, walk, by, key, cell),
        _ => Ok(()),
    }
}

/// The included file as a layer. It may be a profile file.
fn hear_include<B: Shows>(
    bundle: &B,
    walk: &mut Walk,
    voice: &Voice<'_>,
    path: &Text,
) -> Result<(), AllocError>
    ensures { let b = B.looks bundle.now in
        OnOk result (Hears walk.old walk.new (include_layer b voice.now.ext.now path.now)
        (include_reads b voice.now.ext.now path.now)
        (include_faults b voice.now.by.now voice.now.ext.now path.now)) }
{
    let cells = include_cells(voice.by.name.allocator(), voice.ext, path.as_str())?;
    let made = try_cells(bundle, walk, cells.as_slice())?;
    match made {
        Some(cell) => {
            hear_cell(bundle, walk, voice.by, cell)?;
            Ok(())
        }
        None => {
            blame(walk, Code::IncludeUnknown, voice.by, path.as_str())?;
            Ok(())
        }
    }
}

/// The listed profile as a layer.
fn hear_listed<B: Shows>(
    bundle: &B,
    walk: &mut Walk,
    voice: &Voice<'_>,
    name: &Text,
) -> Result<(), AllocError>
    ensures { let b = B.looks bundle.now in
        OnOk result (Hears walk.old walk.new (listed_layer b voice.now.ext.now name.now)
        (listed_reads b voice.now.ext.now name.now)
        (listed_faults b voice.now.by.now voice.now.ext.now name.now)) }
{
    let made = find_profile(bundle, walk, voice, name.as_str())?;
    match made {
        Some(cell) => {
            hear_cell(bundle, walk, voice.by, &cell)?;
            Ok(())
        }
        None => Ok(()),
    }
}

/// The included files, as written.
fn hear_includes<B: Shows>(
    bundle: &B,
    walk: &mut Walk,
    voice: &Voice<'_>,
    paths: &[Text],
) -> Result<(), AllocError>
    ensures { let b = B.looks bundle.now in
        OnOk result (Hears walk.old walk.new (flat_map (include_layer b voice.now.ext.now) paths.now)
        (flat_map (include_reads b voice.now.ext.now) paths.now)
        (flat_map (include_faults b voice.now.by.now voice.now.ext.now) paths.now)) }
{
    for path in paths {
        hear_include(bundle, walk, voice, path)?;
    }
    Ok(())
}

/// The listed profiles, as written.
fn hear_profiles<B: Shows>(
    bundle: &B,
    walk: &mut Walk,
    voice: &Voice<'_>,
    names: &[Text],
) -> Result<(), AllocError>
    ensures { let b = B.looks bundle.now in
        OnOk result (Hears walk.old walk.new (flat_map (listed_layer b voice.now.ext.now) names.now)
        (flat_map (listed_reads b voice.now.ext.now) names.now)
        (flat_map (listed_faults b voice.now.by.now voice.now.ext.now) names.now)) }
{
    for name in names {
        hear_listed(bundle, walk, voice, name)?;
    }
    Ok(())
}

/// All that one file gives.
fn hear_file<B: Shows>(bundle: &B, walk: &mut Walk, speaker: &Speaker<'_>) -> Result<(), AllocError>
    requires { AreEntriesOrdered speaker.now.file.now.attributes }
    ensures { let b = B.looks bundle.now in
        OnOk result (Hears walk.old walk.new (layers_of b (speaker_of speaker.now))
        (speaker_reads b (speaker_of speaker.now))
        (speaker_faults b (speaker_of speaker.now))) }
{
    let ext = speaker.ext.as_str();
    let voice = Voice {
        by: &speaker.by,
        ext,
    };
    let file = speaker.file;
    hear_includes(bundle, walk, &voice, file.includes.as_slice())?;
    hear_profiles(bundle, walk, &voice, file.profiles.as_slice())?;
    hear_plain(bundle, walk, &voice, file.attributes.as_slice())?;
    Ok(())
}

/// All that these files give, one after another.
pub fn hear_files<B: Shows>(
    bundle: &B,
    walk: &mut Walk,
    speakers: &[Speaker<'_>],
) -> Result<(), AllocError>
    requires { AreSpeakersOrdered speakers.now }
    ensures { let b = B.looks bundle.now in
        let ss = map speaker_of speakers.now in
        OnOk result (Hears walk.old walk.new (flat_map (layers_of b) ss)
        (flat_map (speaker_reads b) ss) (flat_map (speaker_faults b) ss)) }
{
    for speaker in speakers {
        hear_file(bundle, walk, speaker)?;
    }
    Ok(())
}
