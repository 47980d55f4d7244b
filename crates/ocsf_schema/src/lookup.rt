// Where the items of a schema stand.
ghost use Rattle.std.specs.Prelude.{◌≡◌, ◌<◌, ℕ, length, take, IfOk, IfErr, IfSome, OnOk, HoldsAt, [], ◌∷◌};
ghost use Rattle.std.specs.List.Sorted.{IsPartitionPoint};
ghost use Rattle.std.specs.declared.cmp.Ordering.TheVariants.{Less, Equal, Greater};
ghost use Rattle.std.specs.BTreeMap.{get};
ghost use Rattle.std.specs.Option.{option_copied, option_or};
ghost use Rattle.std.specs.Ordering.{nat_cmp};
ghost use Rattle.ocsf_lists.specs.ByName.{text_cmp};
ghost use Rattle.ocsf_tree.specs.Key.{key_text};
ghost use Rattle.ocsf_schema.specs.Lookups.{IsByKey, item_at, class_number, class_at, IsInOrder};

use crate::{Item, Piece};
use ocsf_tree::{Key, Shared, Side};
use std::alloc::{AllocError, Global};
use std::cmp::Ordering;
use std::collections::BTreeMap;

fn compare(key: &Key, other: &Key) -> Ordering
    ensures { result ≡ text_cmp (key_text key.now) (key_text other.now) }
{
    key.cmp(other)
}

/// Where the item of that key stands, or else where it would.
fn search_by_key(pieces: &[Shared<Piece>], key: &Key) -> Result<usize, usize>
    requires { IsByKey pieces.now }
    ensures within { IfOk result (λ at. at < length pieces.now) }
    ensures found { IfOk result
        (HoldsAt (λ item. text_cmp (key_text item.key) (key_text key.now) ≡ Equal) pieces.now) }
    ensures absent { IfErr result (IsPartitionPoint (λ item. text_cmp (key_text item.key) (key_text key.now) ≡ Less)
        (λ item. text_cmp (key_text item.key) (key_text key.now) ≡ Greater) pieces.now) }
{
    pieces.binary_search_by(|piece| compare(&piece.get().item().key, key))
}

/// The item of that key, by binary search.
pub fn find_by_key<'a>(pieces: &'a [Shared<Piece>], key: &Key) -> Option<&'a Item>
    requires { IsByKey pieces.now }
    ensures item { option_copied result ≡ item_at key.now pieces.now }
    ensures order { IfSome result (λ item. IsInOrder item.now) }
{
    match search_by_key(pieces, key) {
        Ok(at) => Some(pieces[at].get().item()),
        Err(_) => None,
    }
}

fn number_of(item: &Item) -> Option<u64>
    ensures { result ≡ class_number item.now }
{
    match item.key.side {
        Side::Class if !item.hidden => item.class_uid,
        _ => None,
    }
}

/// Adds the piece at its number, unless one stands there.
fn add_class(
    classes: &mut BTreeMap<u64, Shared<Piece>>,
    piece: &Shared<Piece>,
) -> Result<(), AllocError>
    ensures { OnOk result ((uid : ℕ) →
        get nat_cmp classes.new uid ≡ option_or (get nat_cmp classes.old uid) (class_at uid (piece.now ∷ []))) }
{
    if let Some(uid) = number_of(piece.get().item())
        && !classes.contains_key(&uid)
    {
        classes.insert(uid, piece.share()?)?;
    }
    Ok(())
}

/// The first class of each number.
pub fn classes_by_uid(
    alloc: Global,
    pieces: &[Shared<Piece>],
) -> Result<BTreeMap<u64, Shared<Piece>>, AllocError>
    ensures { IfOk result (λ made. (uid : ℕ) → get nat_cmp made uid ≡ class_at uid pieces.now) }
{
    let mut made: BTreeMap<u64, Shared<Piece>> = BTreeMap::new(alloc);
    for piece in pieces {
        add_class(&mut made, piece)?;
    }
    Ok(made)
}
