// A field that two records give: that of the later one counts.
ghost use Rattle.std.specs.Prelude.{◌≡◌, IfOk};
ghost use Rattle.std.specs.Option.{option_or};

use ocsf_tree::{Text, TryClone};
use std::alloc::AllocError;

/// The new value where there is one, else the old one.
pub fn later<T: TryClone>(new: &Option<T>, old: &Option<T>) -> Result<Option<T>, AllocError>
    ensures { IfOk result (λ made. made ≡ option_or new.now old.now) }
{
    match new {
        Some(_) => new.try_clone(),
        None => old.try_clone(),
    }
}

/// Two texts, each the new one where there is one, else the old one.
pub fn both_later(
    first: &Option<Text>,
    old_first: &Option<Text>,
    second: &Option<Text>,
    old_second: &Option<Text>,
) -> Result<(Option<Text>, Option<Text>), AllocError>
    ensures first { IfOk result (λ made. made.0 ≡ option_or first.now old_first.now) }
    ensures second { IfOk result (λ made. made.1 ≡ option_or second.now old_second.now) }
{
    let made = later(first, old_first)?;
    let other = later(second, old_second)?;
    Ok((made, other))
}
