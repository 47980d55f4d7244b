// The printed schema, joined from its parts.
ghost use Rattle.std.specs.Prelude.{◌≡◌, ℕ, [], ◌∷◌, ◌++◌, true, IfOk, OnOk, List};
ghost use Rattle.ocsf_tree.specs.CompactText.{text, member_text};
ghost use Rattle.ocsf_tree.specs.Valid.{IsValid};
ghost use Rattle.ocsf_schema.specs.declared.records.Item.{Item};
ghost use Rattle.ocsf_schema.specs.Joining.{separator, label, HoldsItems};
ghost use Rattle.ocsf_schema.specs.Schema.{fragments, schema_text};
ghost use Rattle.ocsf_tree.specs.Key.{same_side};

use crate::rope::Rope;
use crate::{Piece, SchemaParts};
use ocsf_tree::{Row, Shared, Side, Tree, print, quote};
use std::alloc::{AllocError, Global};

/// The name of a member of an object and a colon; that of a later one behind a comma.
fn label_of(alloc: Global, is_later: bool, name: &str) -> Result<Row<u8>, AllocError>
    ensures { IfOk result (λ made. made ≡ label is_later name.now) }
{
    let mut made = Row::new(alloc);
    if is_later {
        made.push(b',')?;
    }
    let name = quote(alloc, name)?;
    made.extend_from_slice(name.as_slice())?;
    made.push(b':')?;
    Ok(made)
}

/// Writes one member of an object.
fn push_member(
    alloc: Global,
    out: &mut Rope,
    is_later: bool,
    name: &str,
    value: Row<u8>,
) -> Result<(), AllocError>
    ensures { OnOk result (out.new ≡ out.old ++ (separator is_later ++ member_text (name.now, value))) }
{
    out.push(alloc, label_of(alloc, is_later, name)?)?;
    out.push(alloc, value)?;
    Ok(())
}

fn push_tree(
    alloc: Global,
    out: &mut Rope,
    is_later: bool,
    name: &str,
    tree: &Tree,
) -> Result<(), AllocError>
    requires { IsValid tree.now }
    ensures { OnOk result (out.new ≡ out.old ++ (separator is_later ++ member_text (name.now, text tree.now))) }
{
    let value = print(alloc, tree)?;
    push_member(alloc, out, is_later, name, value)
}

fn is_same_side(side: Side, other: Side) -> bool
    ensures { result ≡ same_side side other }
{
    match side {
        Side::Class => matches!(other, Side::Class),
        Side::Object => matches!(other, Side::Object),
    }
}

/// Writes the fragment of the piece, if it is of that side. The fragment isn't copied.
fn push_piece(
    alloc: Global,
    out: &mut Rope,
    is_later: &mut bool,
    side: Side,
    piece: &Piece,
) -> Result<(), AllocError>
    ensures { OnOk result ((before : List ℕ) (items : List Item) → HoldsItems side items before out.old is_later.old
        → HoldsItems side (items ++ piece.now ∷ []) before out.new is_later.new) }
{
    let key = &piece.item().key;
    if !is_same_side(key.side, side) {
        return Ok(());
    }
    out.push(alloc, label_of(alloc, *is_later, key.name.as_str())?)?;
    out.push_shared(piece.share_text()?)?;
    *is_later = true;
    Ok(())
}

/// Writes the fragments of that side as a later member of an object.
fn push_fragments(
    alloc: Global,
    out: &mut Rope,
    name: &str,
    side: Side,
    pieces: &[Shared<Piece>],
) -> Result<(), AllocError>
    ensures { OnOk result
        (out.new ≡ out.old ++ (separator true ++ member_text (name.now, text (fragments side pieces.now)))) }
{
    out.push(alloc, label_of(alloc, true, name)?)?;
    out.push_bytes(alloc, b"{")?;
    let mut is_later = false;
    for piece in pieces {
        push_piece(alloc, out, &mut is_later, side, piece.get())?;
    }
    out.push_bytes(alloc, b"}")?;
    Ok(())
}

/// The printed schema.
pub fn schema_bytes(alloc: Global, parts: &SchemaParts) -> Result<Rope, AllocError>
    requires categories { IsValid parts.now.categories }
    requires dictionary { IsValid parts.now.dictionary }
    requires extensions { IsValid parts.now.extensions }
    requires profiles { IsValid parts.now.profiles }
    requires types { IsValid parts.now.types }
    ensures { IfOk result (λ made. made ≡ schema_text parts.now) }
{
    let pieces = parts.pieces.as_slice();
    let version = quote(alloc, parts.version.as_str())?;
    let mut out = Rope::new(alloc);
    out.push_bytes(alloc, b"{")?;
    push_tree(alloc, &mut out, false, "categories", &parts.categories)?;
    push_fragments(alloc, &mut out, "classes", Side::Class, pieces)?;
    push_tree(alloc, &mut out, true, "dictionary", &parts.dictionary)?;
    push_tree(alloc, &mut out, true, "extensions", &parts.extensions)?;
    push_fragments(alloc, &mut out, "objects", Side::Object, pieces)?;
    push_tree(alloc, &mut out, true, "profiles", &parts.profiles)?;
    push_tree(alloc, &mut out, true, "types", &parts.types)?;
    push_member(alloc, &mut out, true, "version", version)?;
    out.push_bytes(alloc, b"}\n")?;
    Ok(out)
}
