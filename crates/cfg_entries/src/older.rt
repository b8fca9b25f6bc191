//! An older map, walked beside a new one that is made. No contract sees what is shared, so none says which
//! entry or block is offered.

use crate::entry::Entry;
use crate::layers::Block;
use crate::rest::Rest;
use cfg_base::Path;

/// An entry of an older map that stands at the path that was sought or after it, and the block that it begins, where it begins one.
#[derive(Debug, Drop)]
pub struct Older<'a, V> {
    entry: &'a Entry<V>,
    block: Option<&'a Block<V>>,
    /// Whether it stands at that path.
    met: bool,
}

/// The first of the entries that are left which stands at the path or after it.
fn found<'a, V: Drop>(rest: &mut Rest<'a, V>, path: &Path) -> Option<Older<'a, V>> {
    let mut block = rest.next_block();
    while let Some(entry) = rest.next() {
        let order = path.cmp(entry.path());
        if order.is_le() {
            let met = order.is_eq();
            return Some(Older { entry, block, met });
        }
        block = rest.next_block();
    }
    None
}

/// The same, where the one that was found last may be it again.
pub fn sought<'a, V: Drop>(
    rest: &mut Rest<'a, V>,
    last: Option<Older<'a, V>>,
    path: &Path,
) -> Option<Older<'a, V>> {
    match last {
        None => found(rest, path),
        Some(Older { entry, block, met }) => {
            // The path comes after the one that was sought last.
            if met {
                return found(rest, path);
            }
            let order = path.cmp(entry.path());
            if order.is_le() {
                let met = order.is_eq();
                return Some(Older { entry, block, met });
            }
            found(rest, path)
        }
    }
}

/// The older entry that was found, where it stands at the path.
pub fn entry_of<'a, V: Drop>(older: &Option<Older<'a, V>>) -> Option<&'a Entry<V>> {
    match older {
        Some(found) if found.met => Some(found.entry),
        _ => None,
    }
}

/// The block that an older entry at the path begins.
pub fn block_at<'a, V: Drop>(older: &Option<Older<'a, V>>) -> Option<&'a Block<V>> {
    match older {
        Some(found) if found.met => found.block,
        _ => None,
    }
}
