// What bundles are compiled to: the printed schema, or the least fault.
ghost use Rattle.std.specs.Prelude.{◌≡◌};

use crate::bundles::{bundle_of, push_fault, push_refused};
use ocsf_bundle::Bundle;
use ocsf_compiler::{CompileError, compile};
use ocsf_edge::{MemorySink, Seq};
use ocsf_raw::RawError;
use ocsf_schema::{Schema, Steps};
use ocsf_table::push_bytes;
use std::alloc::{AllocError, Global};
use std::marker::Brand;
use std::sync::ledger::{Blank, Ledger};

fn compiled<L: Ledger>(alloc: Global, blank: Blank, bundle: &Bundle) -> Result<Schema, CompileError>
    requires name { blank.name ≡ L.name }
    requires parts { blank.parts ≡ L.parts }
    requires one { blank.parts ≡ 1 }
{
    let mut steps: Steps<L> = Steps::open(blank);
    compile(alloc, bundle, &mut steps)
}

/// What the files are compiled to.
pub fn schema_of(alloc: Global, bundle: &Bundle) -> Result<Schema, CompileError> {
    compiled::<Brand>(alloc, Blank::new(1), bundle)
}

fn push_printed(alloc: Global, out: &mut String, schema: &Schema) -> Result<(), AllocError> {
    let mut sink = MemorySink::new(alloc, Seq::new(alloc));
    if schema.write_to(&mut sink).is_err() {
        return Err(AllocError);
    }
    push_bytes(out, sink.written())
}

pub fn push_not_compiled(out: &mut String, error: &CompileError) -> Result<(), AllocError> {
    match error {
        CompileError::Fault(fault) => push_fault(out, fault),
        CompileError::Memory => Err(AllocError),
    }
}

fn push_made(
    alloc: Global,
    out: &mut String,
    made: &Result<Schema, CompileError>,
) -> Result<(), AllocError> {
    match made {
        Ok(schema) => push_printed(alloc, out, schema),
        Err(error) => push_not_compiled(out, error),
    }
}

fn push_over(
    alloc: Global,
    out: &mut String,
    outcome: &Result<Bundle, RawError>,
) -> Result<(), AllocError> {
    match outcome {
        Ok(bundle) => push_made(alloc, out, &schema_of(alloc, bundle)),
        Err(error) => push_refused(out, error),
    }
}

/// Writes the printed schema of the files that the row's edit leaves, or their least fault.
pub fn push_schema(alloc: Global, out: &mut String, text: &str) -> Result<(), AllocError> {
    push_over(alloc, out, &bundle_of(alloc, text))
}
