// What a data type leads to.
ghost use Rattle.std.specs.Prelude.{◌≡◌, ◌++◌, [], IfOk, unwrap_or, Some};
ghost use Rattle.std.specs.Option.{option_copied, option_map};
ghost use Rattle.std.specs.List.{cons_option};
ghost use Rattle.ocsf_lists.specs.ByName.{IsByName};
ghost use Rattle.ocsf_kind.specs.Kinds.{limit_of, IsKindOf};

use ocsf_raw::TypeEntry;
use ocsf_schema::{Base, Kind, Limit};
use ocsf_tree::{Row, Text, TryClone, find_by_name};
use std::alloc::{AllocError, Global};

/// The moves from type to type in which a base has to be reached.
const MOST_MOVES: u32 = 32;

/// Why a type has no kind.
#[derive(Debug, Drop)]
pub enum KindError {
    /// It leads to this name, which is neither a base type nor listed.
    Unknown(Text),
    /// It takes more than 32 moves.
    Cycle,
    /// There is no memory for it.
    Memory,
}

impl From<AllocError> for KindError {
    ghost use Rattle.std.specs.Prelude.{◌≡◌};
    ghost use Rattle.ocsf_kind.specs.declared.kinds.KindError.TheVariants.{Memory};

    ghost from_gives = { λ error made. made ≡ Memory };

    fn from(_error: AllocError) -> KindError {
        KindError::Memory
    }
}

fn limit_of(entry: &TypeEntry) -> Result<Limit, AllocError>
    ensures { IfOk result (λ made. made ≡ limit_of entry.now) }
{
    Ok(Limit {
        type_name: entry.name.copy()?,
        max_len: entry.max_len,
        range: entry.range,
        pattern: entry.pattern.try_clone()?,
        instant: entry.name.as_str() == "datetime_t",
        values: entry.values.try_clone()?,
    })
}

fn parent_of(entry: &TypeEntry) -> &str
    ensures { result.now ≡ unwrap_or entry.now.parent [] }
{
    match &entry.parent {
        Some(parent) => parent.as_str(),
        None => "",
    }
}

/// The kind of a way that has reached its base, with the base's own limit where it is listed.
fn ended(
    alloc: Global,
    name: &str,
    base: Base,
    entry: Option<&TypeEntry>,
    mut limits: Row<Limit>,
) -> Result<Kind, AllocError>
    ensures { IfOk result (λ made. made ≡ record {
      name = name.now;
      base = base;
      limits = limits ++ cons_option (option_map limit_of (option_copied entry.entry)) [];
    }) }
{
    if let Some(entry) = entry {
        limits.push(limit_of(entry)?)?;
    }
    Ok(Kind {
        name: Text::of(alloc, name)?,
        base,
        limits,
    })
}

/// What the type of that name leads to: the base, and the limits of each listed type on the way to it, the
/// type's own first and that of a listed base last. Each type on the way is found by binary search.
pub fn kind_of(alloc: Global, name: &str, types: &[TypeEntry]) -> Result<Kind, KindError>
    requires { IsByName (λ entry. entry.name) types.now }
    ensures { IsKindOf types.now name.now result }
{
    let mut limits = Row::new(alloc);
    let mut now = name;
    let mut left = MOST_MOVES;
    'way: loop {
        let entry = find_by_name(types, now);
        if let Some(base) = Base::named(now) {
            return Ok(ended(alloc, name, base, entry, limits)?);
        }
        let Some(entry) = entry else {
            return Err(KindError::Unknown(Text::of(alloc, now)?));
        };
        limits.push(limit_of(entry)?)?;
        if left == 0 {
            return Err(KindError::Cycle);
        }
        left -= 1;
        now = parent_of(entry);
    }
}
