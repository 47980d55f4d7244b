// A bundle with its schema, after so many edits.
ghost use Rattle.std.specs.Prelude.{◌≡◌, None, IfOk, IfErr, OnOk};
ghost use Rattle.ocsf_rules.specs.Compilation.{IsCompilation};
ghost use Rattle.ocsf_rules.specs.Verdict.{IsVerdict};
ghost use Rattle.ocsf_compiler.specs.Compiles.{IsRefusedFor};
ghost use Rattle.ocsf_compiler.specs.NoFiles.{no_files};

use ocsf_bundle::Bundle;
use ocsf_compiler::{CompileError, compile, empty_schema};
use ocsf_schema::{Schema, Steps};
use std::alloc::{AllocError, Global};
use std::marker::Brand;
use std::sync::ledger::{Blank, Ledger};

/// A bundle with the schema that it is compiled to, and how many edits led to it.
#[derive(Drop)]
pub struct Compilation {
    pub bundle: Bundle,
    pub schema: Schema,
    pub revision: u32,
    pub ghost from_scratch: { IsCompilation bundle schema },
}

fn counted<L: Ledger>(alloc: Global, bundle: &Bundle, blank: Blank) -> Result<Schema, CompileError>
    requires name { blank.name ≡ L.name }
    requires parts { blank.parts ≡ L.parts }
    requires one { blank.parts ≡ 1 }
    ensures schema { IfOk result (IsCompilation bundle.now) }
    ensures clean { OnOk result (IsVerdict bundle.now None) }
    ensures refused { IfErr result (IsRefusedFor bundle.now) }
{
    let mut steps: Steps<L> = Steps::open(blank);
    compile(alloc, bundle, &mut steps)
}

/// The schema of the bundle. Its steps are counted by nobody.
pub fn schema_of(alloc: Global, bundle: &Bundle) -> Result<Schema, CompileError>
    ensures schema { IfOk result (IsCompilation bundle.now) }
    ensures clean { OnOk result (IsVerdict bundle.now None) }
    ensures refused { IfErr result (IsRefusedFor bundle.now) }
{
    counted::<Brand>(alloc, bundle, Blank::new(1))
}

impl Compilation {
    /// The bundle, compiled from scratch.
    pub fn of(alloc: Global, bundle: Bundle, revision: u32) -> Result<Compilation, CompileError>
        ensures bundle { IfOk result (λ made. made.bundle ≡ bundle) }
        ensures revision { IfOk result (λ made. made.revision ≡ revision) }
        ensures clean { OnOk result (IsVerdict bundle None) }
        ensures refused { IfErr result (IsRefusedFor bundle) }
    {
        let schema = schema_of(alloc, &bundle)?;
        Ok(Compilation {
            bundle,
            schema,
            revision,
        })
    }

    /// No files, after no edit.
    pub fn empty(alloc: Global) -> Result<Compilation, AllocError>
        ensures bundle { IfOk result (λ made. made.bundle ≡ no_files) }
        ensures revision { IfOk result (λ made. made.revision ≡ 0) }
    {
        let schema = empty_schema(alloc)?;
        let bundle = Bundle::empty(alloc);
        Ok(Compilation {
            bundle,
            schema,
            revision: 0,
        })
    }
}
