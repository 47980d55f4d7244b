// What is found wrong on the way down an event.
ghost use Rattle.std.specs.Prelude.{◌≡◌, [], OnOk};
ghost use Rattle.ocsf_tree.specs.declared.place.Step.TheVariants.{At, Name};
ghost use Rattle.ocsf_event.specs.Noted.{Noted, Entered, Left};
ghost use Rattle.ocsf_event.specs.Walk.{IsThis, at_name_below};

use crate::violation::{Violation, Wrong};
use ocsf_tree::{Place, Row, Step, Text};
use std::alloc::{AllocError, Global};

/// What is found so far, and the place on the way at which more is noted.
#[derive(Drop)]
pub(crate) struct Notes {
    place: Vec<Step>,
    found: Row<Violation>,
}

impl Notes {
    /// Nothing, at the root.
    pub(crate) fn new(alloc: Global) -> Notes
        ensures place { result.place.items ≡ [] }
        ensures found { result.found ≡ [] }
    {
        Notes {
            place: Vec::new(alloc),
            found: Row::new(alloc),
        }
    }

    pub(crate) fn allocator(&self) -> Global {
        self.found.allocator()
    }

    /// All that is found.
    pub(crate) fn into_found(self) -> Row<Violation>
        ensures { result ≡ self.found }
    {
        self.found
    }

    /// Down to the member of that name.
    pub(crate) fn enter_member(&mut self, name: &Text) -> Result<(), AllocError>
        ensures { OnOk result (Entered (Name name.now) self.old self.new) }
    {
        self.place.push(Step::Name(name.copy()?))?;
        Ok(())
    }

    /// Down to the item at that position of a list.
    pub(crate) fn enter_item(&mut self, position: u64) -> Result<(), AllocError>
        ensures { OnOk result (Entered (At position) self.old self.new) }
    {
        self.place.push(Step::At(position))?;
        Ok(())
    }

    /// One step back up.
    pub(crate) fn leave(&mut self)
        ensures { Left self.old self.new }
    {
        self.place.pop();
    }

    /// Notes it at that place, wherever the way is.
    pub(crate) fn put(&mut self, place: Place, code: Wrong, detail: &str) -> Result<(), AllocError>
        ensures { OnOk result (Noted (λ way. IsThis place.steps code detail.now) self.old self.new) }
    {
        let detail = Text::of(self.found.allocator(), detail)?;
        self.found.push(Violation {
            place,
            code,
            detail,
        })?;
        Ok(())
    }

    /// Notes it at this place.
    pub(crate) fn add(&mut self, code: Wrong, detail: &str) -> Result<(), AllocError>
        ensures { OnOk result (Noted (λ place. IsThis place code detail.now) self.old self.new) }
    {
        let steps = Row::of(self.found.allocator(), self.place.as_slice())?;
        self.put(Place { steps }, code, detail)
    }

    /// Notes it at the member of that name.
    pub(crate) fn add_at(
        &mut self,
        name: &Text,
        code: Wrong,
        detail: &str,
    ) -> Result<(), AllocError>
        ensures { OnOk result (Noted (λ place. IsThis (at_name_below place name.now) code detail.now)
            self.old self.new) }
    {
        self.enter_member(name)?;
        self.add(code, detail)?;
        self.leave();
        Ok(())
    }
}
