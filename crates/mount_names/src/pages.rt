//! A page of names, chosen from all of them; only the names of the page are sorted.

ghost use Rattle.std.specs.Prelude.{◌≡◌, ◌≤◌, length, take, drop, IfOk};
ghost use Rattle.std.specs.Ordering.{nat_cmp};
ghost use Rattle.std.specs.Cmp.Lexicographic.{slice_cmp};
ghost use Rattle.mount_model.specs.ListAnswers.{in_order};
ghost use Rattle.mount_names.specs.NamePages.{names_of, page_from};

use item_list::Bytes;
use mount_model::limits::MAX_LISTED;
use mount_model::{NameList, Reply};
use std::alloc::{AllocError, Global};
use std::cmp::Ordering;

// Returns the names from number `start` on in the order of their bytes, at most `MAX_LISTED`, and whether
// further ones follow. The order in which it leaves `names` is not specified.
pub(crate) fn page_of(alloc: Global, names: &mut [&[u8]], start: u32) -> Result<Reply, AllocError>
    ensures { IfOk result (λ told. told ≡ page_from start (names_of names.old)) }
{
    let from = (start as usize).min(names.len());
    let rest = all_from(names, from);
    let more = rest.len() > MAX_LISTED;
    let count = MAX_LISTED.min(rest.len());
    let page = least(rest, count);
    sort(page);
    let names = copied(alloc, page)?;
    Ok(Reply::Names { names, more })
}

// Returns all names but the first `from` in order. Their order in the slice is not specified.
fn all_from<'n, 'b>(names: &'n mut [&'b [u8]], from: usize) -> &'n mut [&'b [u8]]
    requires { from ≤ length names.old }
    ensures { in_order (names_of result.now) ≡ drop from (in_order (names_of names.old)) }
{
    if from == 0 {
        return names;
    }
    names
        .select_nth_unstable_by(from - 1, |a, b| in_byte_order(a, b))
        .2
}

// Returns the first `count` names in order. Their order in the slice is not specified.
fn least<'n, 'b>(names: &'n mut [&'b [u8]], count: usize) -> &'n mut [&'b [u8]]
    requires { count ≤ length names.old }
    ensures { in_order (names_of result.now) ≡ take count (in_order (names_of names.old)) }
{
    if count == names.len() {
        return names;
    }
    names
        .select_nth_unstable_by(count, |a, b| in_byte_order(a, b))
        .0
}

// Puts the names in the order of their bytes.
fn sort(names: &mut [&[u8]])
    ensures { names_of names.new ≡ in_order (names_of names.old) }
{
    names.sort_unstable_by(|a, b| in_byte_order(a, b));
}

fn in_byte_order(a: &[u8], b: &[u8]) -> Ordering
    ensures { result ≡ slice_cmp nat_cmp a.now b.now }
{
    a.cmp(b)
}

// Returns copies of the names.
fn copied(alloc: Global, names: &[&[u8]]) -> Result<NameList, AllocError>
    ensures { IfOk result (λ list. list ≡ names_of names.now) }
{
    let mut list = NameList::new(alloc);
    for name in names {
        list.push(Bytes::from_vec(Vec::from_slice(alloc, name)?))?;
    }
    Ok(list)
}
