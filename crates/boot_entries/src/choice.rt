//! The entry of a menu that the settings choose.
ghost use Rattle.std.specs.Prelude.{◌≡◌, IfOk, MatchOption, length, map};
ghost use Rattle.boot_texts.specs.ConfChoice.{IsDefaultEntry, default_place};
ghost use Rattle.menu_order.specs.Ids.{entry_id};

use boot_base::BytesList;
use boot_texts::{LoaderConf, default_place};
use menu_order::MenuItem;
use std::alloc::{AllocError, Global};

/// The place of the entry of a menu that boots by default (loader.conf(5), "default"): the first whose id the settings
/// match, else the first of all. There is none exactly where the menu is empty.
pub fn choose_entry(
    alloc: Global,
    items: &[MenuItem],
    conf: &LoaderConf,
) -> Result<Option<usize>, AllocError>
    ensures place { IfOk result (λ place. place ≡ default_place conf.now.default (map entry_id items.now)) }
    ensures entry { IfOk result (λ place. MatchOption place (length items.now ≡ 0)
        (λ place. IsDefaultEntry conf.now.default (map entry_id items.now) place)) }
{
    let ids = entry_ids(alloc, items)?;
    Ok(default_place(ids.as_slice(), conf))
}

// The ids of a menu, in order.
fn entry_ids(alloc: Global, items: &[MenuItem]) -> Result<BytesList, AllocError>
    ensures { IfOk result (λ ids. ids ≡ map entry_id items.now) }
{
    let mut ids = BytesList::new(alloc);
    for item in items {
        ids.push(item.id(alloc)?)?;
    }
    Ok(ids)
}
