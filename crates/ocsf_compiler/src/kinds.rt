// What types lead to.
ghost use Rattle.std.specs.Prelude.{◌≡◌, ℕ, List, ◌++◌, IfOk, filter_map};
ghost use Rattle.std.specs.Result.{result_ok};
ghost use Rattle.ocsf_lists.specs.ByName.{IsByName, put_by_name};
ghost use Rattle.ocsf_kind.specs.Kinds.{kind_of};
ghost use Rattle.ocsf_bundle.specs.Listing.{in_byte_order};
ghost use Rattle.ocsf_rules.specs.MergedDictionary.{base_types};

use ocsf_kind::{KindError, kind_of};
use ocsf_raw::TypeEntry;
use ocsf_schema::Kind;
use ocsf_tree::{Row, Text};
use std::alloc::{AllocError, Global};

fn with_name(alloc: Global, names: Row<Text>, name: &str) -> Result<Row<Text>, AllocError>
    requires { IsByName (λ (n : List ℕ). n) names }
    ensures names { IfOk result (λ made. made ≡ put_by_name (λ n. n) name.now names) }
    ensures by_name { IfOk result (IsByName (λ (n : List ℕ). n)) }
{
    let mut names = names;
    names.put(Text::of(alloc, name)?)?;
    Ok(names)
}

/// The base types and these, in byte order, each once.
pub fn data_types(alloc: Global, listed: Row<Text>) -> Result<Row<Text>, AllocError>
    requires { IsByName (λ (n : List ℕ). n) listed }
    ensures { IfOk result (λ made. made ≡ in_byte_order (base_types ++ listed)) }
{
    let listed = with_name(alloc, listed, "string_t")?;
    let listed = with_name(alloc, listed, "long_t")?;
    let listed = with_name(alloc, listed, "json_t")?;
    let listed = with_name(alloc, listed, "integer_t")?;
    let listed = with_name(alloc, listed, "float_t")?;
    with_name(alloc, listed, "boolean_t")
}

/// The kind of the type, where it leads to a base.
fn kind_led_to(alloc: Global, name: &str, types: &[TypeEntry]) -> Result<Option<Kind>, AllocError>
    requires { IsByName (λ entry. entry.name) types.now }
    ensures { IfOk result (λ made. made ≡ result_ok (kind_of types.now name.now)) }
{
    match kind_of(alloc, name, types) {
        Ok(kind) => Ok(Some(kind)),
        Err(KindError::Unknown(_)) => Ok(None),
        Err(KindError::Cycle) => Ok(None),
        Err(KindError::Memory) => Err(AllocError),
    }
}

/// The kind of each of these types that leads to a base.
pub fn kinds(alloc: Global, names: &[Text], types: &[TypeEntry]) -> Result<Row<Kind>, AllocError>
    requires { IsByName (λ entry. entry.name) types.now }
    ensures { IfOk result (λ made. made ≡ filter_map (λ name. result_ok (kind_of types.now name)) names.now) }
{
    let mut made = Row::with_capacity(alloc, names.len())?;
    for name in names {
        let Some(kind) = kind_led_to(alloc, name.as_str(), types)? else {
            continue;
        };
        made.push(kind)?;
    }
    Ok(made)
}
