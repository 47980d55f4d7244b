// The fields of an item that its files give as a whole.
ghost use Rattle.std.specs.Prelude.{◌≡◌, None, map, IfOk, OnOk, if◌then◌else◌};
ghost use Rattle.std.specs.Option.{option_or};
ghost use Rattle.ocsf_rules.specs.Compiled.{is_class, written_in};
ghost use Rattle.ocsf_walk.specs.Given.{given_by, given_over};
ghost use Rattle.ocsf_walk.specs.Speakers.{speaker_of};

use crate::speakers::Speaker;
use ocsf_rules::Written;
use ocsf_tree::{Key, Row, Side, Text, TryClone};
use std::alloc::AllocError;

/// The fields that some files give, each as the last of them gives it that gives it.
#[derive(Drop)]
pub struct Given {
    pub caption: Option<Text>,
    pub description: Option<Text>,
    pub category: Option<Written>,
    pub at_least_one: Option<Row<Text>>,
    pub just_one: Option<Row<Text>>,
}

/// What is given takes the place of what was said before.
pub fn give<T: TryClone>(given: &Option<T>, field: &mut Option<T>) -> Result<(), AllocError>
    ensures { OnOk result (field.new ≡ option_or given.now field.old) }
{
    match given {
        Some(given) => {
            let given = given.try_clone()?;
            *field = Some(given);
            Ok(())
        }
        None => Ok(()),
    }
}

/// Whether the key is that of a class.
pub fn is_class(key: &Key) -> bool
    ensures { result ≡ is_class key.now }
{
    match key.side {
        Side::Class => true,
        Side::Object => false,
    }
}

/// The category of a class as it is written.
pub fn written_by(key: &Key, given: Option<Written>) -> Option<Written>
    ensures { result ≡ (if is_class key.now then given else None) }
{
    if is_class(key) { given } else { None }
}

/// The category as the file writes it, if it gives one.
fn written_in(speaker: &Speaker<'_>) -> Result<Option<Written>, AllocError>
    ensures { IfOk result (λ made. made ≡ written_in (speaker_of speaker.now)) }
{
    match &speaker.file.category {
        Some(name) => {
            let name = name.copy()?;
            let ext = speaker.ext.copy()?;
            Ok(Some(Written { name, ext }))
        }
        None => Ok(None),
    }
}

/// The category of the file takes the place of what was given before.
fn give_category(speaker: &Speaker<'_>, category: &mut Option<Written>) -> Result<(), AllocError>
    ensures { OnOk result (category.new ≡ option_or (written_in (speaker_of speaker.now)) category.old) }
{
    match written_in(speaker)? {
        Some(written) => {
            *category = Some(written);
            Ok(())
        }
        None => Ok(()),
    }
}

/// One file more, the last.
fn add_file(given: &mut Given, speaker: &Speaker<'_>) -> Result<(), AllocError>
    ensures { OnOk result (given.new ≡ given_over (speaker_of speaker.now) given.old) }
{
    let file = speaker.file;
    give(&file.caption, &mut given.caption)?;
    give(&file.description, &mut given.description)?;
    give_category(speaker, &mut given.category)?;
    give(&file.at_least_one, &mut given.at_least_one)?;
    give(&file.just_one, &mut given.just_one)?;
    Ok(())
}

/// What these files give.
pub fn given_by(speakers: &[Speaker<'_>]) -> Result<Given, AllocError>
    ensures { IfOk result (λ made. made ≡ given_by (map speaker_of speakers.now)) }
{
    let mut given = Given {
        caption: None,
        description: None,
        category: None,
        at_least_one: None,
        just_one: None,
    };
    for speaker in speakers {
        add_file(&mut given, speaker)?;
    }
    Ok(given)
}
