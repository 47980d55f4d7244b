// A text, which is a shared string.
ghost use Rattle.std.specs.declared.alloc.Global.{Global};
ghost use Rattle.std.specs.Prelude.{◌≡◌, IfOk, string_bytes, [], IsTrue, ◌↔◌};

use ocsf_lists::{Named, Shared, TryClone};
use std::alloc::{AllocError, Global};
use std::fmt::{self, Debug, Formatter, Write};
use std::marker::Model;

/// A text in UTF-8, which contracts see as the list of its bytes. A copy has the same bytes in common.
#[derive(Drop)]
pub struct Text {
    inner: Shared<String>,
}

impl Model for Text {
    ghost use Rattle.std.specs.Prelude.{List, ℕ, string_bytes};
    ghost use Rattle.std.specs.Coded.{coded_list, coded_ℕ};

    ghost Value = { List ℕ };

    ghost coded = { coded_list coded_ℕ };

    ghost view = { λ text. string_bytes text.inner };
}

impl Text {
    pub fn of(alloc: Global, text: &str) -> Result<Text, AllocError>
        ensures { IfOk result (λ made. made ≡ text.now) }
    {
        Text::from_string(String::from_str(alloc, text)?)
    }

    /// The text of these bytes, which are moved. Room behind them is given back.
    pub fn from_string(mut inner: String) -> Result<Text, AllocError>
        ensures { IfOk result (λ made. made ≡ string_bytes inner) }
    {
        inner.shrink_to_fit();
        let alloc = *inner.allocator();
        Ok(Text {
            inner: Shared::new(alloc, inner)?,
        })
    }

    /// The allocator with which the text was made, which is the one there is.
    pub fn allocator(&self) -> Global
        ensures { (other : Global) → result ≡ other }
    {
        *self.inner.get().allocator()
    }

    pub fn as_str(&self) -> &str
        ensures { result.now ≡ self.now }
    {
        self.inner.get().as_str()
    }

    pub fn is_empty(&self) -> bool
        ensures { IsTrue result ↔ (self.now ≡ []) }
    {
        self.inner.get().is_empty()
    }

    /// An equal text. The bytes aren't copied.
    pub fn copy(&self) -> Result<Text, AllocError>
        ensures { IfOk result (λ made. made ≡ self.now) }
    {
        Ok(Text {
            inner: self.inner.share()?,
        })
    }
}

impl TryClone for Text {
    fn try_clone(&self) -> Result<Text, AllocError> {
        self.copy()
    }
}

impl Debug for Text {
    fn fmt<W: Write>(&self, f: &mut Formatter<W>) -> fmt::Result {
        let text = self.as_str();
        Debug::fmt(&text, f)
    }
}

impl Named for Text {
    ghost name_of = { λ text. text };

    fn name(&self) -> &str {
        self.as_str()
    }
}

/// Both texts, where they are given, with one more owner each.
pub fn both_copied(
    first: &Option<Text>,
    second: &Option<Text>,
) -> Result<(Option<Text>, Option<Text>), AllocError>
    ensures first { IfOk result (λ made. made.0 ≡ first.now) }
    ensures second { IfOk result (λ made. made.1 ≡ second.now) }
{
    let copied = first.try_clone()?;
    let other = second.try_clone()?;
    Ok((copied, other))
}
