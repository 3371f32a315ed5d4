//! The receipt of an entry.
ghost use Rattle.std.specs.Prelude.{◌≡◌, true, false};
ghost use Rattle.inode_tree.specs.Footprints.{lies_in};
ghost use Rattle.inode_tree.specs.Promises.{numbers_of};
ghost use Rattle.striped_store.specs.Receipts.{AreBits};

use inode_tree::NodeId;
use striped_store::Receipt;

// The receipt of an entry that read and wrote these nodes: bit s of a number of stripes is stripe s.
pub(crate) fn receipt_of(number: u64, reads: &[NodeId], writes: &[NodeId]) -> Receipt
    ensures number { result.number ≡ number }
    ensures exclusive { AreBits result.exclusive (λ k. lies_in k (numbers_of writes.now) ≡ true) }
    ensures shared { AreBits result.shared (λ k. (lies_in k (numbers_of writes.now) ≡ false) × (lies_in k (numbers_of reads.now) ≡ true)) }
    ensures rounds { result.rounds ≡ 1 }
{
    let exclusive = stripes_of(writes);
    Receipt {
        number,
        shared: stripes_of(reads) & !exclusive,
        exclusive,
        rounds: 1,
    }
}

// The stripes in which these nodes lie: bit s is stripe s.
pub(crate) fn stripes_of(ids: &[NodeId]) -> u64
    ensures { AreBits result (λ k. lies_in k (numbers_of ids.now) ≡ true) }
{
    let mut bits = 0u64;
    for id in ids {
        bits |= 1u64 << (id.0 % 64);
    }
    bits
}
