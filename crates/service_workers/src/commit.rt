//! The commit of an evaluator's draft.
ghost use Rattle.std.specs.Prelude.{◌≡◌, ◌↔◌, ◌≤◌, ◌++◌, ◌∷◌, [], List, IfOk, IfErr, OnOk, MatchResult, length};
ghost use Rattle.commit_journal.specs.Journal.{IsFull, IsFullFor, IsWithin};
ghost use Rattle.commit_journal.specs.Keeper.{IsAbove};
ghost use Rattle.inode_tree.specs.declared.placed.Placed.{Placed};
ghost use Rattle.inode_tree.specs.After.{outcome_on};
ghost use Rattle.lock_core.specs.Object.{replay};
ghost use Rattle.lock_core.specs.Sound.{StartsWith, AllFit};
ghost use Rattle.path_locks.specs.Views.{HoldsNothing, IsHeldBy, IsSeatAgain};
ghost use Rattle.striped_store.specs.Commits.{GrewBy};
ghost use Rattle.striped_store.specs.Receipts.{TellsFootprint};
ghost use Rattle.striped_store.specs.Views.{seen_by, made_by, taken_by, tape_by, journal_seen, FindsOneJournal, IsOf};
ghost use Rattle.parted_namespace.specs.Opening.{bare_stripe};
ghost use Rattle.parted_namespace.specs.Namespace.{parts_of, namespace};
ghost use Rattle.service_workers.specs.Drafts.{AreKept, IsDrafted, body_in};

use commit_journal::{Full, Keeper};
use inode_tree::{Draft, NodeId, Placed};
use lock_core::LockMode;
use parted_namespace::Namespace;
use path_locks::{Held, Plan};
use std::sync::Wait;
use striped_store::{CommitRefusal, Pass, Receipt, Store};

// Lets go of all but what the draft reads and writes, and commits its entry.
pub(crate) fn commit_draft<R: Wait, K: Keeper<Placed>>(
    rt: &R,
    store: &Store<Namespace, K>,
    pass: &mut Pass<Namespace, K>,
    mut held: Held<Namespace, K>,
    draft: Draft,
    entry: Placed,
) -> Result<Receipt, (Held<Namespace, K>, CommitRefusal)>
    requires own { IsOf store.now pass.old }
    requires held { IsHeldBy bare_stripe pass.old.seat held }
    requires found { FindsOneJournal namespace pass.old }
    requires drafted { IsDrafted pass.old held draft entry }
    ensures same { IsSeatAgain pass.old.seat pass.new.seat }
    ensures found { FindsOneJournal namespace pass.new }

    // The journal, and the pass's own entries.
    ensures seen { MatchResult result (λ _. GrewBy entry (seen_by pass.old) (seen_by pass.new)) (λ _. StartsWith (seen_by pass.new) (seen_by pass.old)) }
    ensures mine { MatchResult result (λ _. made_by pass.new ≡ made_by pass.old ++ entry ∷ []) (λ _. made_by pass.new ≡ made_by pass.old) }
    ensures fit { AllFit namespace (seen_by pass.new) }
    ensures within { IsWithin body_in (journal_seen pass.new.seat) }
    ensures reply { OnOk result ((before : List Placed) → seen_by pass.new ≡ before ++ entry ∷ [] → (outcome_on (parts_of (replay namespace before)) entry).reply ≡ draft.reply) }

    // The receipt.
    ensures number { IfOk result (λ r. r.number ≡ length (seen_by pass.new)) }
    ensures footprint { IfOk result (λ r. (before : List Placed) → seen_by pass.new ≡ before ++ entry ∷ [] → TellsFootprint namespace (replay namespace before) entry r) }

    // What is held.
    ensures nothing { OnOk result (HoldsNothing pass.new.seat) }
    ensures held { IfErr result (λ stop. IsHeldBy bare_stripe pass.new.seat stop.0) }
    ensures wide { MatchResult result (λ _. pass.new.wide ≡ held.wide) (λ _. pass.new.wide ≡ pass.old.wide) }

    // The causes.
    ensures tape { IfErr result (λ stop. stop.1 ≡ CommitRefusal.Tape → IsAbove (tape_by pass.new) (taken_by pass.new)) }
    ensures rose { (tape_by pass.old ≤ taken_by pass.new) × (taken_by pass.new ≤ tape_by pass.new) }
    ensures full { IfErr result (λ stop. (stop.1 ≡ CommitRefusal.Full Full.JournalFull) ↔ IsFull (journal_seen pass.new.seat)) }
    ensures bytes_full { IfErr result (λ stop. (stop.1 ≡ CommitRefusal.Full Full.JournalBytesFull) ↔ IsFullFor body_in (journal_seen pass.new.seat) (body_in entry)) }
{
    let keep = stripes_to_keep(draft.reads.as_slice(), draft.writes.as_slice());
    store.narrow(pass, &mut held, &keep);
    store.commit(rt, pass, held, entry, draft.changes)
}

// The plan that holds what is written exclusively, and shared what is only read.
fn stripes_to_keep(reads: &[NodeId], writes: &[NodeId]) -> Plan
    ensures { AreKept reads.now writes.now result }
{
    let mut plan = Plan::none();
    for read in reads {
        plan.set((read.0 % 64) as u8, LockMode::Shared);
    }
    for write in writes {
        plan.set((write.0 % 64) as u8, LockMode::Exclusive);
    }
    plan
}
