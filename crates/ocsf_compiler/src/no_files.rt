// The schema of no files.
ghost use Rattle.std.specs.Prelude.{◌≡◌, IfOk};
ghost use Rattle.ocsf_rules.specs.Compilation.{IsCompilation};
ghost use Rattle.ocsf_compiler.specs.NoFiles.{no_files};

use crate::parts::{parts_of, types_of};
use ocsf_bundle::Bundle;
use ocsf_schema::Schema;
use ocsf_tree::Row;
use std::alloc::{AllocError, Global};

/// The schema of a bundle without files, which has no items.
fn schema_without_items(alloc: Global, bundle: &Bundle) -> Result<Schema, AllocError>
    requires files { bundle.now ≡ no_files }
    ensures schema { IfOk result (IsCompilation bundle.now) }
{
    let types = types_of(alloc, bundle)?;
    let parts = parts_of(alloc, bundle, types.as_slice(), Row::new(alloc))?;
    let schema = Schema::of(alloc, parts)?;
    Ok(schema)
}

/// The schema that no files are compiled to. Whether they have a fault isn't asked.
pub fn empty_schema(alloc: Global) -> Result<Schema, AllocError>
    ensures { IfOk result (IsCompilation no_files) }
{
    let bundle = Bundle::empty(alloc);
    let schema = schema_without_items(alloc, &bundle)?;
    Ok(schema)
}
