//! Lists that grow by little more than what is added.
ghost use Rattle.std.specs.Prelude.{◌≡◌, ◌∷◌, [], ◌++◌, OnErr, OnOk, if◌then◌else◌, take};

use scm_types::Items;
use std::alloc::{AllocError, Global};
use std::mem;

/// Makes room in `list` for `more` elements. If `list` has to grow, it grows by a 64th of its length
/// at least, and a short one by up to four elements: then many calls for a line each rarely move it.
pub(crate) fn make_room<T>(list: &mut Vec<T>, more: usize) -> Result<(), AllocError>
    ensures { list.new.items ≡ list.old.items }
{
    let len = list.len();
    if more <= list.capacity().saturating_sub(len) {
        return Ok(());
    }
    let step = len.min((len / 64).saturating_add(4));
    list.reserve_exact(more.max(step))
}

/// Takes the elements of `list`, and leaves no element in their place.
pub(crate) fn take_list<T: Drop>(alloc: Global, list: &mut Items<T>) -> Vec<T>
    ensures { result.items ≡ list.old }
{
    mem::replace(list, Items::new(alloc)).into_inner()
}

/// Makes `all` the elements of `list`, or only the first `before` of them unless `is_done`.
pub(crate) fn put_list<T: Drop>(list: &mut Items<T>, all: Vec<T>, before: usize, is_done: bool)
    ensures { list.new ≡ (if is_done then all.items else take before all.items) }
{
    let mut all = all;
    if !is_done {
        all.truncate(before);
    }
    *list = Items::from(all);
}

/// Adds `item` at the end of `list`.
fn push_in_room<T: Drop>(list: &mut Vec<T>, item: T) -> Result<(), AllocError>
    ensures ok { OnOk result (list.new.items ≡ list.old.items ++ item ∷ []) }
    ensures unchanged { OnErr result (list.new.items ≡ list.old.items) }
{
    make_room(list, 1)?;
    list.push(item)?;
    Ok(())
}

/// Adds `item` at the end of `list`.
pub(crate) fn push_item<T: Drop>(
    alloc: Global,
    list: &mut Items<T>,
    item: T,
) -> Result<(), AllocError>
    ensures ok { OnOk result (list.new ≡ list.old ++ item ∷ []) }
    ensures unchanged { OnErr result (list.new ≡ list.old) }
{
    let mut all = take_list(alloc, list);
    let before = all.len();
    let done = push_in_room(&mut all, item);
    put_list(list, all, before, done.is_ok());
    done
}
