// The item that a full key stands for, built with the cells that it reads.
ghost use Rattle.std.specs.Prelude.{◌≡◌, ◌+◌, None, IfOk, IfErr, All};
ghost use Rattle.ocsf_lists.specs.ByName.{IsByName};
ghost use Rattle.ocsf_rules.specs.Compiled.{item};
ghost use Rattle.ocsf_rules.specs.ItemFaults.{item_fault};
ghost use Rattle.ocsf_rules.specs.Reads.{reads};
ghost use Rattle.ocsf_item.specs.Built.{IsLeastFault};

use crate::build_error::BuildError;
use crate::compile::{Compiled, compiled_item};
use ocsf_bundle::{Cell, Shows};
use ocsf_schema::{Piece, Steps};
use ocsf_tree::{Key, Row, Shared, TryClone};
use std::alloc::{AllocError, Global};
use std::marker::Model;
use std::sync::ledger::Ledger;

/// A compiled item with the cells that it reads. No other call than `build_item` makes one anew.
#[derive(Drop)]
pub struct Built {
    piece: Shared<Piece>,
    reads: Row<Cell>,
}

impl Model for Built {
    ghost use Rattle.ocsf_item.specs.Built.{BuiltItem};

    ghost Value = { BuiltItem };

    ghost view = { λ built. record { item = built.piece; reads = built.reads } };
}

impl Built {
    /// The item with its printed fragment.
    pub fn piece(&self) -> &Shared<Piece>
        ensures { result.now ≡ self.now.item }
    {
        &self.piece
    }

    /// The cells that the item reads, in order, each once.
    pub fn reads(&self) -> &[Cell]
        ensures { result.now ≡ self.now.reads }
    {
        self.reads.as_slice()
    }

    /// An equal one. The piece isn't copied.
    pub fn share(&self) -> Result<Built, AllocError>
        ensures { IfOk result (λ made. made ≡ self.now) }
    {
        let piece = self.piece.share()?;
        let reads = self.reads.try_clone()?;
        Ok(Built { piece, reads })
    }
}

/// The compiled item with its fragment.
fn with_fragment<L: Ledger>(
    alloc: Global,
    compiled: Compiled,
    steps: &mut Steps<L>,
) -> Result<Built, AllocError>
    requires attributes { IsByName (λ attr. attr.name) compiled.item.attrs }
    requires members { All (λ attr. IsByName (λ member. member.key) attr.members) compiled.item.attrs }
    ensures item { IfOk result (λ made. made.item ≡ compiled.item) }
    ensures reads { IfOk result (λ made. made.reads ≡ compiled.reads) }
    ensures step { steps.new ≡ steps.old + 1 }
{
    let Compiled { item, reads } = compiled;
    let piece = Piece::of(alloc, item, steps)?;
    let piece = Shared::new(alloc, piece)?;
    Ok(Built { piece, reads })
}

/// The item that the key stands for, by inheritance, patches, includes, profiles and the dictionary,
/// with the cells that it reads, or its least fault. It counts one step, whatever comes of it.
pub fn build_item<B: Shows, L: Ledger>(
    alloc: Global,
    bundle: &B,
    key: &Key,
    steps: &mut Steps<L>,
) -> Result<Built, BuildError>
    ensures sound { IfOk result (λ made. item_fault (B.looks bundle.now) key.now ≡ None) }
    ensures item { IfOk result (λ made. made.item ≡ item (B.looks bundle.now) key.now) }
    ensures reads { IfOk result (λ made. made.reads ≡ reads (B.looks bundle.now) key.now) }
    ensures fault { IfErr result (IsLeastFault (B.looks bundle.now) key.now) }
    ensures step { steps.new ≡ steps.old + 1 }
{
    match compiled_item(alloc, bundle, key) {
        Ok(compiled) => match with_fragment(alloc, compiled, steps) {
            Ok(built) => Ok(built),
            Err(_) => Err(BuildError::Memory),
        },
        Err(error) => {
            steps.tick();
            Err(error)
        }
    }
}
