// What is wrong with a chain.
ghost use Rattle.std.specs.Prelude.{◌≡◌, ◌≤◌, ◌+◌, IfOk, IfSome, Some, None, length, flat_map, not, if◌then◌else◌};
ghost use Rattle.std.specs.List.{list_any, prefix_len};
ghost use Rattle.std.specs.Ordering.{is_lt};
ghost use Rattle.ocsf_lists.specs.ByName.{text_cmp};
ghost use Rattle.ocsf_tree.specs.Key.{key_text};
ghost use Rattle.ocsf_tree.specs.LeastFault.{least_fault};
ghost use Rattle.ocsf_bundle.specs.Looks.{is_there};
ghost use Rattle.ocsf_rules.specs.ItemFaults.{
  same_key,
  cycle_in,
  least_key,
  cycle_fault,
  limit_fault,
  parent_fault,
  faults_along,
};

use crate::blame::with_fault;
use crate::chain::written_parent;
use ocsf_bundle::Shows;
use ocsf_tree::{Code, Fault, Key, Side};
use std::alloc::AllocError;
use std::cmp::Ordering;

fn is_same(a: &Key, b: &Key) -> bool
    ensures { result ≡ same_key a.now b.now }
{
    let one_side = match a.side {
        Side::Class => match b.side {
            Side::Class => true,
            Side::Object => false,
        },
        Side::Object => match b.side {
            Side::Class => false,
            Side::Object => true,
        },
    };
    one_side && a.name.as_str() == b.name.as_str()
}

/// How many keys a cycle has that begins with the key and goes on with these, if it comes again.
fn cycle_len(keys: &[Key], key: &Key) -> Option<usize>
    ensures len { result ≡ (if list_any (same_key key.now) keys.now
        then Some (prefix_len (λ j. not (same_key key.now j)) keys.now + 1) else None) }
    ensures within { IfSome result (λ len. len ≤ length keys.now) }
{
    for (at, other) in keys.iter().enumerate() {
        if is_same(key, other) {
            return Some(at + 1);
        }
    }
    None
}

/// The keys of the cycle that the chain runs into.
fn cycle_in(keys: &[Key]) -> &[Key]
    ensures { result.now ≡ cycle_in keys.now }
{
    let mut left = keys;
    while let [first, rest @ ..] = left {
        if let Some(len) = cycle_len(rest, first) {
            return &left[..len];
        }
        left = rest;
    }
    left
}

fn comes_before(a: &Key, b: &Key) -> bool
    ensures { result ≡ is_lt (text_cmp (key_text a.now) (key_text b.now)) }
{
    a.cmp(b) == Ordering::Less
}

/// The least of these keys.
fn least_key<'a>(first: &'a Key, rest: &'a [Key]) -> &'a Key
    ensures { result.now ≡ least_key first.now rest.now }
{
    let mut least = first;
    for key in rest {
        if comes_before(key, least) {
            least = key;
        }
    }
    least
}

/// The fault of a chain that is too long, or runs into a cycle.
fn long_chain<B: Shows>(bundle: &B, key: &Key, keys: &[Key]) -> Result<Option<Fault>, AllocError>
    ensures { let b = B.looks bundle.now in
        IfOk result (λ made. made ≡ least_fault
        (if is_there (cycle_in keys.now) then cycle_fault b (cycle_in keys.now) else limit_fault key.now)) }
{
    let cycle = cycle_in(keys);
    if let [first, rest @ ..] = cycle {
        let least = least_key(first, rest);
        match written_parent(bundle, least)? {
            Some(name) => with_fault(None, Code::ExtendsCycle, least, name.as_str()),
            None => with_fault(None, Code::ExtendsCycle, least, ""),
        }
    } else {
        with_fault(None, Code::ChainLimit, key, "32")
    }
}

/// The least fault of the chain.
pub fn chain_fault<B: Shows>(
    bundle: &B,
    key: &Key,
    keys: &[Key],
    least: Option<Fault>,
) -> Result<Option<Fault>, AllocError>
    requires { least ≡ least_fault (flat_map (parent_fault (B.looks bundle.now)) keys.now) }
    ensures { IfOk result (λ made. made ≡ least_fault (faults_along (B.looks bundle.now) key.now keys.now)) }
{
    if keys.len() == 33 {
        long_chain(bundle, key, keys)
    } else {
        Ok(least)
    }
}
