// Lists in order by name: search, and an item put in its place.
ghost use Rattle.std.specs.Prelude.{◌≡◌, ◌<◌, ◌≤◌, ℕ, List, length, IfOk, IfErr, OnOk, OnErr, HoldsAt};
ghost use Rattle.std.specs.List.Sorted.{IsPartitionPoint};
ghost use Rattle.std.specs.declared.cmp.Ordering.TheVariants.{Less, Equal, Greater};
ghost use Rattle.std.specs.Option.{option_copied};
ghost use Rattle.ocsf_lists.specs.FirstOfEach.{first_of_each};
ghost use Rattle.ocsf_lists.specs.ByName.{IsByName, at_name, put_by_name, text_cmp};

use crate::row::Row;
use crate::shared::Shared;
use crate::try_clone::TryClone;
use std::alloc::{AllocError, Global};

/// An item of a list that stands in the byte order of its items' names.
pub trait Named {
    /// The bytes of the name.
    ghost name_of: { Self → List ℕ };

    fn name(&self) -> &str
        ensures { result.now ≡ name_of self.now };
}

impl<T: Named> Named for Shared<T> {
    ghost name_of = { λ shared. T.name_of shared };

    fn name(&self) -> &str {
        self.get().name()
    }
}

/// Where the item of that name stands, or else where it would.
fn search_by_name<T: Named>(items: &[T], name: &str) -> Result<usize, usize>
    requires { IsByName T.name_of items.now }
    ensures within { IfOk result (λ at. at < length items.now) }
    ensures found { IfOk result (HoldsAt (λ item. text_cmp (T.name_of item) name.now ≡ Equal) items.now) }
    ensures room { IfErr result (λ at. at ≤ length items.now) }
    ensures absent { IfErr result (IsPartitionPoint (λ item. text_cmp (T.name_of item) name.now ≡ Less)
        (λ item. text_cmp (T.name_of item) name.now ≡ Greater) items.now) }
{
    items.binary_search_by(|item| item.name().cmp(&name))
}

/// The item of that name, by binary search. It takes no memory.
pub fn find_by_name<'a, T: Named>(items: &'a [T], name: &str) -> Option<&'a T>
    requires { IsByName T.name_of items.now }
    ensures { option_copied result ≡ at_name T.name_of name.now items.now }
{
    match search_by_name(items, name) {
        Ok(at) => Some(&items[at]),
        Err(_) => None,
    }
}

impl<T: Named + Drop> Row<T> {
    /// Puts the item in its place, and instead of the one of its name.
    pub fn put(&mut self, item: T) -> Result<(), AllocError>
        requires { IsByName T.name_of self.old }
        ensures ok { OnOk result (self.new ≡ put_by_name T.name_of item self.old) }
        ensures err { OnErr result (self.new ≡ self.old) }
    {
        match search_by_name(self.as_slice(), item.name()) {
            Ok(at) => {
                self.replace(at, item);
                Ok(())
            }
            Err(at) => self.insert(at, item),
        }
    }
}

/// Of each name the first of these items that has it, in byte order of the names.
pub fn first_of_each<T: Named + TryClone>(alloc: Global, items: &[T]) -> Result<Row<T>, AllocError>
    ensures { IfOk result (λ made. made ≡ first_of_each T.name_of items.now) }
{
    let mut made = Row::new(alloc);
    let mut left = items.len();
    while left > 0 {
        left -= 1;
        made.put(items[left].try_clone()?)?;
    }
    Ok(made)
}
