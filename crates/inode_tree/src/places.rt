ghost use Rattle.std.specs.Prelude.{◌≡◌, ◌+◌, ◌<◌, ◌≤◌, length, drop, IsTrue, IsOk, is_ok, vec_len, vec_capacity, if◌then◌else◌};
ghost use Rattle.std.specs.Ordering.{is_lt};
ghost use Rattle.std.specs.FinMap.{find, put, is_sorted};
ghost use Rattle.std.specs.FinMap.Entries.{where_key};
ghost use Rattle.inode_tree.specs.Ascending.{IsPlace, differs};

use std::alloc::AllocError;
use std::cmp::Ordering;

// Where the entry of a key stands among entries that ascend by keys, or else where it would stand.
pub(crate) fn place<K: Ord, V>(entries: &[(K, V)], key: &K) -> Result<usize, usize>
    requires { IsTrue (is_sorted K.cmp entries.now) }
    ensures { IsPlace K.cmp key.now entries.now result }
{
    let mut low = 0;
    let mut high = entries.len();
    while low < high {
        let middle = low + (high - low) / 2;
        match entries[middle].0.cmp(key) {
            Ordering::Less => low = middle + 1,
            Ordering::Equal => return Ok(middle),
            Ordering::Greater => high = middle,
        }
    }
    Err(low)
}

// How many entries have a key that isn't greater than a key.
pub(crate) fn place_above<K: Ord, V>(entries: &[(K, V)], key: &K) -> usize
    requires { IsTrue (is_sorted K.cmp entries.now) }
    ensures above { where_key K.cmp (λ other. is_lt (K.cmp key.now other)) entries.now ≡ drop result entries.now }
    ensures within { result ≤ length entries.now }
{
    match place(entries, key) {
        Ok(at) => at + 1,
        Err(at) => at,
    }
}

// Gives a key a value. The one error is want of memory, which there can't be where there is room; then nothing changes.
pub(crate) fn put<K: Ord + Drop, V: Drop>(
    entries: &mut Vec<(K, V)>,
    key: K,
    value: V,
) -> Result<(), AllocError>
    requires { IsTrue (is_sorted K.cmp entries.old.items) }
    ensures items { entries.new.items ≡ (if is_ok result then put K.cmp key value entries.old.items else entries.old.items) }
    ensures sorted { IsTrue (is_sorted K.cmp entries.new.items) }
    ensures succeeds { vec_len entries.old < vec_capacity entries.old → IsOk result }
    ensures len { vec_len entries.new ≤ vec_len entries.old + 1 }
    ensures capacity { vec_capacity entries.old ≤ vec_capacity entries.new }
{
    match place(entries.as_slice(), &key) {
        Ok(at) => entries[at].1 = value,
        Err(at) => entries.insert(at, (key, value))?,
    }
    Ok(())
}

// Takes the entry of a key out, where there is one.
pub(crate) fn take_out<K: Ord + Drop, V>(entries: &mut Vec<(K, V)>, key: &K) -> Option<V>
    requires { IsTrue (is_sorted K.cmp entries.old.items) }
    ensures value { result ≡ find K.cmp key.now entries.old.items }
    ensures items { entries.new.items ≡ where_key K.cmp (differs K.cmp key.now) entries.old.items }
    ensures sorted { IsTrue (is_sorted K.cmp entries.new.items) }
    ensures len { vec_len entries.new ≤ vec_len entries.old }
    ensures capacity { vec_capacity entries.new ≡ vec_capacity entries.old }
{
    match place(entries.as_slice(), key) {
        Ok(at) => Some(entries.remove(at).1),
        Err(_) => None,
    }
}
