// Faults of bundles: their labels, and the lesser of two.
ghost use Rattle.std.specs.Prelude.{◌≡◌, IfOk};
ghost use Rattle.ocsf_bundle.specs.BundleFaults.{fault, labelled};
ghost use Rattle.ocsf_bundle.specs.OwnFaults.{lesser_of};

use ocsf_tree::{Code, Fault, Text, lesser_fault};
use std::alloc::{AllocError, Global};

/// `label:name`
pub fn labelled(alloc: Global, label: &str, name: &str) -> Result<Text, AllocError>
    ensures { IfOk result (λ made. made ≡ labelled label.now name.now) }
{
    let mut text = String::from_str(alloc, label)?;
    text.push(':')?;
    text.push_str(name)?;
    Text::from_string(text)
}

pub fn fault(alloc: Global, code: Code, subject: Text, name: &str) -> Result<Fault, AllocError>
    ensures { IfOk result (λ made. made ≡ fault code subject name.now) }
{
    let name = Text::of(alloc, name)?;
    Ok(Fault {
        code,
        subject,
        name,
    })
}

/// The lesser of the least fault so far and one that there may be besides.
pub fn lesser_of(least: Option<Fault>, fault: Option<Fault>) -> Option<Fault>
    ensures { result ≡ lesser_of least fault }
{
    match fault {
        Some(fault) => lesser_fault(least, fault),
        None => least,
    }
}
