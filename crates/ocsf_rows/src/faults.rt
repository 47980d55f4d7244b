// Faults of the files as a whole, after edits.
use crate::edits::apply;
use crate::shapes::{push_fault, push_refused};
use ocsf_bundle::Bundle;
use ocsf_tree::Fault;
use std::alloc::{AllocError, Global};

fn push_least(out: &mut String, fault: &Option<Fault>) -> Result<(), AllocError> {
    match fault {
        Some(fault) => push_fault(out, fault),
        None => out.push_str("none"),
    }
}

fn push_own_fault(out: &mut String, bundle: &Bundle) -> Result<(), AllocError> {
    let fault = bundle.own_fault()?;
    push_least(out, &fault)
}

fn push_after(
    alloc: Global,
    out: &mut String,
    bundle: &mut Bundle,
    text: &str,
) -> Result<(), AllocError> {
    match apply(alloc, bundle, text) {
        Ok(()) => push_own_fault(out, bundle),
        Err(error) => push_refused(out, &error),
    }
}

fn push_after_both(
    alloc: Global,
    out: &mut String,
    bundle: &mut Bundle,
    given: &str,
    text: &str,
) -> Result<(), AllocError> {
    match apply(alloc, bundle, given) {
        Ok(()) => push_after(alloc, out, bundle, text),
        Err(error) => push_refused(out, &error),
    }
}

/// Writes the least fault of the files after the edit that is given and the row's edit.
pub fn push_fault_after(
    alloc: Global,
    out: &mut String,
    given: &str,
    text: &str,
) -> Result<(), AllocError> {
    let mut bundle = Bundle::empty(alloc);
    push_after_both(alloc, out, &mut bundle, given, text)
}
