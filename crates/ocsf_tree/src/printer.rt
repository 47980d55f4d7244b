// The compact text of a tree.
ghost use Rattle.std.specs.Prelude.{◌≡◌, IfOk, OnOk, ◌++◌, ◌∷◌, [], ◌≤◌, true};
ghost use Rattle.ocsf_tree.specs.Reading.{IsReading, nesting};
ghost use Rattle.json.specs.Token.{number};
ghost use Rattle.json.specs.Tree.{json_tokens, items_tokens, members_tokens};
ghost use Rattle.serde_json.specs.Find.{of_integer};
ghost use Rattle.serde_json.specs.Written.{outline, items_outline, members_outline, number_text};
ghost use Rattle.ocsf_tree.specs.Data.{data_of, list_data, members_data};
ghost use Rattle.ocsf_tree.specs.CompactText.{text, quoted_text};
ghost use Rattle.ocsf_tree.specs.Valid.{IsValid, IsValidList, IsValidMembers, is_whole};

use crate::tree::{Member, Tree};
use json::Writer;
use ocsf_lists::Row;
use std::alloc::{AllocError, Global};

/// The compact text: no blank, no line feed at the end, the members in byte order, the shortest escapes.
pub fn print(alloc: Global, tree: &Tree) -> Result<Row<u8>, AllocError>
    requires { IsValid tree.now }
    ensures text { IfOk result (λ bytes. bytes ≡ text tree.now) }
    ensures reads_back { IfOk result (λ bytes. nesting tree.now ≤ 127 → IsReading bytes (Ok tree.now)) }
{
    let mut out = Writer::new(Vec::new(alloc));
    write(tree, &mut out)?;
    let mut bytes = Row::from_vec(out.into_inner());
    bytes.shrink_to_fit();
    Ok(bytes)
}

/// The text in quotation marks, as it stands in a compact text.
pub fn quote(alloc: Global, text: &str) -> Result<Row<u8>, AllocError>
    ensures { IfOk result (λ bytes. bytes ≡ quoted_text text.now) }
{
    let mut out = Writer::new(Vec::new(alloc));
    out.string(text)?;
    Ok(Row::from_vec(out.into_inner()))
}

#[cycle(write)]
fn write(tree: &Tree, out: &mut Writer) -> Result<(), AllocError>
    requires { IsValid tree.now }
    ensures ok { OnOk result
        (out.new.tokens ≡ out.old.tokens ++ json_tokens (outline (data_of tree.now))) }
    ensures before { out.new.before ≡ out.old.before }
{
    match tree {
        Tree::Null => out.null(),
        Tree::Flag(flag) => out.boolean(*flag),
        Tree::Whole(whole) => write_whole(*whole, out),
        Tree::Words(words) => out.string(words.as_str()),
        Tree::List(items) => {
            out.begin_array()?;
            write_items(items.as_slice(), out)
        }
        Tree::Members(members) => {
            out.begin_object()?;
            write_members(members.as_slice(), out)
        }
    }
}

fn write_whole(whole: i128, out: &mut Writer) -> Result<(), AllocError>
    requires { is_whole (of_integer whole) ≡ true }
    ensures ok { OnOk result
        (out.new.tokens ≡ out.old.tokens ++ number (number_text (of_integer whole)) ∷ []) }
    ensures before { out.new.before ≡ out.old.before }
{
    if 0 <= whole {
        out.u64(whole as u64)
    } else {
        out.i64(whole as i64)
    }
}

#[cycle(write)]
fn write_items(items: &[Tree], out: &mut Writer) -> Result<(), AllocError>
    requires { IsValidList items.now }
    ensures ok { OnOk result
        (out.new.tokens ≡ out.old.tokens ++ items_tokens (items_outline (list_data items.now))) }
    ensures before { out.new.before ≡ out.old.before }
{
    for item in items {
        write(item, out)?;
    }
    out.end_array()
}

#[cycle(write)]
fn write_members(members: &[Member], out: &mut Writer) -> Result<(), AllocError>
    requires { IsValidMembers members.now }
    ensures ok { OnOk result
        (out.new.tokens
        ≡ out.old.tokens ++ members_tokens (members_outline (members_data members.now))) }
    ensures before { out.new.before ≡ out.old.before }
{
    for member in members {
        out.key(member.name.as_str())?;
        write(&member.value, out)?;
    }
    out.end_object()
}
