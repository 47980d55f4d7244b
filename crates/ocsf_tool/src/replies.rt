// The replies to lines.
ghost use Rattle.std.specs.Prelude.{◌≡◌, ◌++◌, ◌∷◌, [], IfOk};
ghost use Rattle.ocsf_tree.specs.CompactText.{text};
ghost use Rattle.ocsf_tree.specs.Valid.{IsValid};
ghost use Rattle.ocsf_tool.specs.Edits.{accepted_tree, fault_tree, refused_tree};
ghost use Rattle.ocsf_tool.specs.Events.{unread_tree};

use ocsf_edge::Bytes;
use ocsf_tree::{Fault, Member, Row, Text, Tree, TryClone, print};
use std::alloc::{AllocError, Global};

/// A member of an object.
fn member(alloc: Global, name: &str, value: Tree) -> Result<Member, AllocError>
    ensures { IfOk result (λ made. made ≡ record { name = name.now; value = value }) }
{
    Ok(Member {
        name: Text::of(alloc, name)?,
        value,
    })
}

fn word(alloc: Global, name: &str, text: &Text) -> Result<Member, AllocError>
    ensures { IfOk result (λ made. made ≡ record { name = name.now; value = Tree.Words text.now }) }
{
    member(alloc, name, Tree::Words(text.copy()?))
}

fn fault_tree_of(alloc: Global, fault: &Fault) -> Result<Tree, AllocError>
    ensures { IfOk result (λ made. made ≡ fault_tree fault.now) }
{
    let mut members = Row::new(alloc);
    let code = Text::of(alloc, fault.code.as_str())?;
    members.push(member(alloc, "code", Tree::Words(code))?)?;
    members.push(word(alloc, "name", &fault.name)?)?;
    members.push(word(alloc, "subject", &fault.subject)?)?;
    Ok(Tree::Members(members))
}

/// What a refused line is answered.
pub fn refused(alloc: Global, fault: &Fault) -> Result<Bytes, AllocError>
    ensures { IfOk result (λ reply. reply ≡ text (refused_tree fault.now) ++ 10 ∷ []) }
{
    let mut members = Row::new(alloc);
    let fault = fault_tree_of(alloc, fault)?;
    members.push(member(alloc, "refused", fault)?)?;
    line(alloc, &Tree::Members(members))
}

/// What a line that says no event is answered.
pub fn unread(alloc: Global, fault: &Fault) -> Result<Bytes, AllocError>
    ensures { IfOk result (λ reply. reply ≡ text (unread_tree fault.now) ++ 10 ∷ []) }
{
    let mut members = Row::new(alloc);
    let fault = fault_tree_of(alloc, fault)?;
    members.push(member(alloc, "unread", fault)?)?;
    line(alloc, &Tree::Members(members))
}

/// What an accepted line is answered.
pub fn accepted(alloc: Global, revision: u32) -> Result<Bytes, AllocError>
    ensures { IfOk result (λ reply. reply ≡ text (accepted_tree revision) ++ 10 ∷ []) }
{
    let mut members = Row::new(alloc);
    let number = Tree::Whole(i128::from(revision));
    members.push(member(alloc, "revision", number)?)?;
    line(alloc, &Tree::Members(members))
}

/// The tree as a line.
pub fn line(alloc: Global, tree: &Tree) -> Result<Bytes, AllocError>
    requires { IsValid tree.now }
    ensures { IfOk result (λ reply. reply ≡ text tree.now ++ 10 ∷ []) }
{
    let mut text = print(alloc, tree)?.into_vec();
    text.push(b'\n')?;
    Ok(Bytes::from(text))
}
