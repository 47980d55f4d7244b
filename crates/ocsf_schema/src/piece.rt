// An item with its printed fragment.
ghost use Rattle.std.specs.Prelude.{◌≡◌, ◌+◌, ℕ, IfOk, All};
ghost use Rattle.ocsf_lists.specs.ByName.{IsByName};
ghost use Rattle.ocsf_schema.specs.Print.{fragment};

use crate::fragment::fragment_of;
use crate::{Item, Steps};
use ocsf_tree::{Row, Shared, print};
use std::alloc::{AllocError, Global};
use std::marker::Model;
use std::sync::ledger::Ledger;

/// A compiled item with its fragment of the printed schema; contracts see the item.
pub struct Piece {
    item: Item,
    text: Shared<Row<u8>>,
}

impl Drop for Piece {
    fn drop(self) {
        let Piece { item: _, text: _ } = self;
    }
}

impl Model for Piece {
    ghost use Rattle.std.specs.Prelude.{◌≡◌};
    ghost use Rattle.ocsf_schema.specs.declared.records.Item.{Item};

    ghost Value = { Item };

    ghost use Rattle.ocsf_schema.specs.Lookups.{IsInOrder};
    ghost use Rattle.ocsf_schema.specs.Print.{fragment};

    ghost view = { λ piece. piece.item };

    ghost invariant = { λ piece. (piece.text ≡ fragment piece.item) × IsInOrder piece.item };
}

/// The fragment of the item, printed.
fn printed(alloc: Global, item: &Item) -> Result<Shared<Row<u8>>, AllocError>
    requires attributes { IsByName (λ attr. attr.name) item.now.attrs }
    requires members { All (λ attr. IsByName (λ member. member.key) attr.members) item.now.attrs }
    ensures { IfOk result (λ text. text ≡ fragment item.now) }
{
    let tree = fragment_of(alloc, item)?;
    let text = print(alloc, &tree)?;
    Shared::new(alloc, text)
}

impl Piece {
    ghost use Rattle.ocsf_schema.specs.Lookups.{IsInOrder};
    ghost use Rattle.ocsf_schema.specs.Print.{fragment};

    /// Prints the fragment of the item, which is one step of compiling. No other call makes a piece.
    pub fn of<L: Ledger>(
        alloc: Global,
        item: Item,
        steps: &mut Steps<L>,
    ) -> Result<Piece, AllocError>
        requires attributes { IsByName (λ attr. attr.name) item.attrs }
        requires members { All (λ attr. IsByName (λ member. member.key) attr.members) item.attrs }
        ensures item { IfOk result (λ piece. piece ≡ item) }
        ensures step { steps.new ≡ steps.old + 1 }
    {
        steps.tick();
        let text = printed(alloc, &item)?;
        Ok(Piece { item, text })
    }

    pub fn item(&self) -> &Item
        ensures item { result.now ≡ self.now }
        ensures order { IsInOrder self.now }
    {
        &self.item
    }

    /// The fragment of the printed schema.
    pub fn text(&self) -> &[u8]
        ensures { result.now ≡ fragment self.now }
    {
        self.text.get().as_slice()
    }

    /// The same, with one more owner.
    pub(crate) fn share_text(&self) -> Result<Shared<Row<u8>>, AllocError>
        ensures { IfOk result (λ text. text ≡ fragment self.now) }
    {
        self.text.share()
    }
}
