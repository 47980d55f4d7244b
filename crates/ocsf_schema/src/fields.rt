// Members of printed objects that may be absent.
ghost use Rattle.std.specs.Prelude.{◌≡◌, ◌++◌, IfOk, OnOk, OnErr, Some, map};
ghost use Rattle.ocsf_schema.specs.Print.{shown, words, flag, texts, enum_member_tree, enum_member, enumeration};
ghost use Rattle.ocsf_tree.specs.declared.tree.Tree.TheVariants as tree;

use ocsf_tree::{EnumMember, Member, Row, Text, Tree};
use std::alloc::{AllocError, Global};

/// Adds the member, where it has a value.
pub fn put_field(
    members: &mut Row<Member>,
    name: &str,
    value: Option<Tree>,
) -> Result<(), AllocError>
    ensures ok { OnOk result (members.new ≡ members.old ++ shown (name.now, value)) }
    ensures err { OnErr result (members.new ≡ members.old) }
{
    if let Some(value) = value {
        let name = Text::of(members.allocator(), name)?;
        members.push(Member { name, value })?;
    }
    Ok(())
}

/// Adds the member that is a text, where the text is given.
pub fn put_words(
    members: &mut Row<Member>,
    name: &str,
    text: &Option<Text>,
) -> Result<(), AllocError>
    ensures { OnOk result (members.new ≡ members.old ++ shown (name.now, words text.now)) }
{
    let value = words_field(text)?;
    put_field(members, name, value)
}

/// Adds the member that is this text.
pub fn put_word(members: &mut Row<Member>, name: &str, text: &str) -> Result<(), AllocError>
    ensures { OnOk result (members.new ≡ members.old ++ shown (name.now, Some (tree.Words text.now))) }
{
    let value = word_field(members.allocator(), text)?;
    put_field(members, name, value)
}

/// The value of a member that is a text, where the text is given.
fn words_field(text: &Option<Text>) -> Result<Option<Tree>, AllocError>
    ensures { IfOk result (λ made. made ≡ words text.now) }
{
    match text {
        Some(text) => Ok(Some(Tree::Words(text.copy()?))),
        None => Ok(None),
    }
}

/// The value of a member that is this text.
fn word_field(alloc: Global, text: &str) -> Result<Option<Tree>, AllocError>
    ensures { IfOk result (λ made. made ≡ Some (tree.Words text.now)) }
{
    Ok(Some(Tree::Words(Text::of(alloc, text)?)))
}

/// The value of a member that is printed only as `true`.
pub fn flag_field(is_set: bool) -> Option<Tree>
    ensures { result ≡ flag is_set }
{
    if is_set { Some(Tree::Flag(true)) } else { None }
}

fn all_words(alloc: Global, list: &[Text]) -> Result<Row<Tree>, AllocError>
    ensures { IfOk result (λ made. made ≡ map tree.Words list.now) }
{
    let mut made = Row::new(alloc);
    for text in list {
        made.push(Tree::Words(text.copy()?))?;
    }
    Ok(made)
}

/// The value of a member that is a list of texts, printed only where the list isn't empty.
pub fn texts_field(alloc: Global, list: &[Text]) -> Result<Option<Tree>, AllocError>
    ensures { IfOk result (λ made. made ≡ texts list.now) }
{
    match list {
        [] => Ok(None),
        [..] => Ok(Some(Tree::List(all_words(alloc, list)?))),
    }
}

fn enum_member_of(alloc: Global, member: &EnumMember) -> Result<Tree, AllocError>
    ensures { IfOk result (λ made. made ≡ enum_member_tree member.now) }
{
    let mut members = Row::new(alloc);
    put_word(&mut members, "caption", member.caption.as_str())?;
    put_words(&mut members, "description", &member.description)?;
    Ok(Tree::Members(members))
}

fn enum_members(alloc: Global, list: &[EnumMember]) -> Result<Row<Member>, AllocError>
    ensures { IfOk result (λ made. made ≡ map enum_member list.now) }
{
    let mut made = Row::new(alloc);
    for member in list {
        let name = member.key.copy()?;
        let value = enum_member_of(alloc, member)?;
        made.push(Member { name, value })?;
    }
    Ok(made)
}

/// The value of a member that is an enumeration, printed only where it isn't empty.
pub fn enumeration_field(alloc: Global, list: &[EnumMember]) -> Result<Option<Tree>, AllocError>
    ensures { IfOk result (λ made. made ≡ enumeration list.now) }
{
    match list {
        [] => Ok(None),
        [..] => Ok(Some(Tree::Members(enum_members(alloc, list)?))),
    }
}
