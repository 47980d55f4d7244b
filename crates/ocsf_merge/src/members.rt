// The members of an enumeration, one layer over another.
ghost use Rattle.std.specs.Prelude.{◌≡◌, ◌++◌, IfOk, OnOk};
ghost use Rattle.ocsf_lists.specs.ByName.{IsByName};
ghost use Rattle.ocsf_lists.specs.FirstOfEach.{first_of_each};
ghost use Rattle.ocsf_merge.specs.Fold.{merged_members};

use ocsf_tree::{EnumMember, Row, TryClone};
use std::alloc::{AllocError, Global};
use std::cmp::Ordering;

/// The new members, and the old ones of other keys, in order.
pub fn merged_members(
    alloc: Global,
    new: &[EnumMember],
    old: &[EnumMember],
) -> Result<Row<EnumMember>, AllocError>
    ensures { IfOk result (λ made. made ≡ merged_members new.now old.now) }
{
    let mut made = Row::new(alloc);
    let mut adds = new;
    let mut olds = old;
    while let [first, more @ ..] = adds {
        if let [member, left @ ..] = olds {
            match first.key.cmp(&member.key) {
                Ordering::Less => {
                    made.push(first.try_clone()?)?;
                    adds = more;
                }
                Ordering::Equal => {
                    made.push(first.try_clone()?)?;
                    adds = more;
                    olds = left;
                }
                Ordering::Greater => {
                    made.push(member.try_clone()?)?;
                    olds = left;
                }
            }
        } else {
            made.push(first.try_clone()?)?;
            adds = more;
        }
    }
    append_clones(&mut made, olds)?;
    Ok(made)
}

/// The new members, and of the keys that they don't have the old ones, in order.
pub fn members_over(
    alloc: Global,
    new: &[EnumMember],
    old: &[EnumMember],
) -> Result<Row<EnumMember>, AllocError>
    requires new { IsByName (λ member. member.key) new.now }
    requires old { IsByName (λ member. member.key) old.now }
    ensures { IfOk result (λ made. made ≡ first_of_each (λ member. member.key) (new.now ++ old.now)) }
{
    merged_members(alloc, new, old)
}

/// Appends equal items.
pub fn append_clones<T: TryClone>(made: &mut Row<T>, items: &[T]) -> Result<(), AllocError>
    ensures { OnOk result (made.new ≡ made.old ++ items.now) }
{
    for item in items {
        made.push(item.try_clone()?)?;
    }
    Ok(())
}
