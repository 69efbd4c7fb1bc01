//! What the name of an entry's file says.
ghost use Rattle.std.specs.Prelude.{◌≡◌, true, IfOk};
ghost use Rattle.menu_order.specs.Splits.{has_suffix, stem_of};
ghost use Rattle.boot_entries.specs.Names.{parts_of_name};

use boot_base::Bytes;
use menu_order::{Counted, Counter, Suffix};
use std::alloc::{AllocError, Global};

/// The base of a name with that suffix, and its counter if it has one.
#[tactic(auto, unfolding(crate::specs::Names::parts_of_name))]
pub(crate) fn split_name(
    alloc: Global,
    name: &str,
    suffix: Suffix,
) -> Result<(Bytes, Option<Counter>), AllocError>
    ensures base { IfOk result (λ parts. parts.0 ≡ (parts_of_name suffix name.now).base) }
    ensures counter { IfOk result (λ parts. parts.1 ≡ (parts_of_name suffix name.now).counter) }
{
    match Counted::split(name) {
        Some(counted) => {
            let base = Bytes::of(alloc, &name.as_bytes()[..counted.base_length])?;
            let Counted { left, done, .. } = counted;
            Ok((base, Some(Counter { left, done })))
        }
        None => Ok((Bytes::of(alloc, stem(name, suffix))?, None)),
    }
}

// The name without the suffix that it ends in.
fn stem(name: &str, suffix: Suffix) -> &[u8]
    ensures { result.now ≡ stem_of suffix name.now }
{
    let count = name.len().saturating_sub(suffix.as_str().len());
    &name.as_bytes()[..count]
}
