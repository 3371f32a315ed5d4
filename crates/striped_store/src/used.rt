//! How many ids the entries of each pass use up, of a journal.
ghost use Rattle.std.specs.Prelude.{◌≡◌, ◌+◌, ◌<◌, ◌≤◌, ℕ, Some, slice_get, slice_set};
ghost use Rattle.striped_store.specs.UsedIds.{AreBelow, AreUsed};

use commit_journal::Journal;
use lock_core::{Bodied, Parted};

/// Adds the ids of one entry to those of its pass.
fn add_ids<P: Parted>(used: &mut [u64; 64], entry: &P::Entry)
    requires below { P.object.by entry.now < 64 }
    requires room { (n : ℕ) × (slice_get used.old (P.object.by entry.now) ≡ Some n) × (n ≤ 1069547520) }
    ensures added { (n : ℕ) → slice_get used.old (P.object.by entry.now) ≡ Some n → used.new ≡ slice_set used.old (P.object.by entry.now) (n + P.Entry.uses entry.now) }
    ensures small { P.Entry.uses entry.now ≤ 255 }
{
    let pass = P::pass_of(entry) as usize;
    let ids = entry.uses_len();
    used[pass] += u64::from(ids);
}

/// For each of 64 passes how many ids its entries of the journal use up.
pub(crate) fn used_ids<P: Parted>(journal: &Journal<P::Entry>) -> [u64; 64]
    requires { AreBelow P.object 64 journal.now.entries }
    ensures { AreUsed P.object P.Entry.uses journal.now.entries result }
{
    let mut used = [0u64; 64];
    for number in 0..journal.len() {
        let Some(entry) = journal.get(number + 1) else {
            unreachable!()
        };
        add_ids::<P>(&mut used, entry);
    }
    used
}
