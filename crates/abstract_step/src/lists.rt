//! Changes to one list of several.
ghost use Rattle.std.specs.Prelude.{◌≡◌, [], ◌∷◌, ◌++◌, ◌<◌, length, replicate, slice_set, slice_index_or, IfOk, OnOk, OnErr};

use cz_base::{NoMemory, Seq};
use std::alloc::Global;

/// Puts an item at the end of one of the lists.
pub(crate) fn push_at<T: Drop>(lists: &mut Seq<Seq<T>>, at: usize, item: T) -> Result<(), NoMemory>
    requires { at < length lists.old }
    ensures ok { OnOk result (lists.new ≡ slice_set lists.old at (slice_index_or lists.old at [] ++ item ∷ [])) }
    ensures err { OnErr result (lists.new ≡ lists.old) }
{
    lists.item_mut(at).push(item)?;
    Ok(())
}

/// As many empty lists.
pub(crate) fn empty_lists<T: Drop>(alloc: Global, count: u32) -> Result<Seq<Seq<T>>, NoMemory>
    ensures { IfOk result (λ lists. lists ≡ replicate count []) }
{
    let mut lists = Seq::new(alloc);
    for _done in 0..count {
        lists.push(Seq::new(alloc))?;
    }
    Ok(lists)
}
