// A fault of an item among those met so far.
ghost use Rattle.std.specs.Prelude.{◌≡◌, ◌∷◌, [], IfOk};
ghost use Rattle.ocsf_tree.specs.Key.{key_text};
ghost use Rattle.ocsf_tree.specs.LeastFault.{least_from};
ghost use Rattle.ocsf_rules.specs.ItemFaults.{fault};

use ocsf_tree::{Code, Fault, Key, Text, lesser_fault};
use std::alloc::AllocError;

/// The least fault with one more.
pub fn with_fault(
    least: Option<Fault>,
    code: Code,
    key: &Key,
    name: &str,
) -> Result<Option<Fault>, AllocError>
    ensures { IfOk result (λ made. made ≡ least_from least (fault code (key_text key.now) name.now ∷ [])) }
{
    let subject = key.to_text()?;
    let name = Text::of(key.name.allocator(), name)?;
    let fault = Fault {
        code,
        subject,
        name,
    };
    Ok(lesser_fault(least, fault))
}
