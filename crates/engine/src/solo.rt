use super::evaluation::eval;
use super::receipt::{receipt_of, stripes_of};
use super::spelling::spell;
use super::stripes::Stripes;
use commit_journal::{Full, Journal, Limits};
use inode_tree::{EvalStop, Fresh};
use namespace_model::{Entry, Request};
use reply_marks::Mark;
use serving::SubmitRefusal;
use std::alloc::{AllocError, Global};
use std::marker::Model;
use striped_store::Receipt;

/// The text of a reply, what the reply counts as, and the receipt of its entry: its number, the stripes of the nodes that it wrote and of
/// those that it read alone, and one round.
#[derive(Debug, Drop)]
pub struct Answer {
    pub bytes: Vec<u8>,
    pub mark: Mark,
    pub receipt: Receipt,
}

/// The sequential engine: the namespace in memory, and the journal of all that was asked of it. A contract sees the journal, the 64
/// stripes, whose parts stand for the tree that the run of the journal leaves, and how many nodes were made so far.
#[derive(Drop)]
pub struct Solo {
    journal: Journal<Entry>,
    stripes: Stripes,
    used: u64,
}

impl Model for Solo {
    ghost use Rattle.std.specs.Coded.{codes};
    ghost use Rattle.engine.specs.Solos.{SoloView, IsKept, solo_code};

    ghost Value = { SoloView };

    ghost coded = { solo_code (Prim.hlevel codes) (Prim.hlevel codes) (Prim.hlevel codes) };

    ghost view = { λ s. record { entries = s.journal.entries; limits = s.journal.limits; spare = s.journal.spare; stripes = s.stripes; used = s.used } };

    ghost invariant = { λ s. IsKept (record { entries = s.journal.entries; limits = s.journal.limits; spare = s.journal.spare; stripes = s.stripes; used = s.used }) };
}

impl Solo {
    ghost use Rattle.std.specs.Prelude.{◌≡◌, ◌≤◌, ◌↔◌, [], length, IfOk, OnErr, IsErrOf};
    ghost use Rattle.lease_state.specs.declared.lease.TheConstants.{LAST_MOMENT};
    ghost use Rattle.commit_journal.specs.Journal.{IsFull, IsFullFor, IsWithin};
    ghost use Rattle.inode_tree.specs.Stands.{Stands};
    ghost use Rattle.namespace_model.specs.Sound.{IsSound};
    ghost use Rattle.namespace_model.specs.Step.{tree_after};
    ghost use Rattle.engine.specs.Solos.{journal_in, made_by, parts_in};
    ghost use Rattle.engine.specs.Submits.{Submits, IsUnchanged};
    ghost use Rattle.serving.specs.Texts.{body_of};

    /// An engine with an empty journal and the account alone. The one error is want of memory.
    pub fn start(alloc: Global, limits: &Limits) -> Result<Solo, AllocError>
        ensures entries { IfOk result (λ solo. solo.entries ≡ []) }
        ensures limits { IfOk result (λ solo. solo.limits ≡ limits.now) }
        ensures used { IfOk result (λ solo. solo.used ≡ 0) }
    {
        Ok(Solo {
            journal: Journal::new(alloc, limits),
            stripes: Stripes::start(alloc)?,
            used: 0,
        })
    }

    /// The journal. The parts stand for the tree that its run leaves, and as many ids are used as its entries made nodes.
    pub fn journal(&self) -> &Journal<Entry>
        ensures journal { result.now ≡ journal_in self.now }
        ensures stands { Stands (parts_in self.now) (tree_after self.now.entries) }
        ensures used { self.now.used ≡ made_by self.now.entries }
    {
        &self.journal
    }

    /// Puts a request into the journal, with its connection, its place there and its moment in milliseconds since 1970, and answers
    /// the text of its reply. Full comes exactly where the journal is full, and then, as for want of memory, nothing changed.
    pub fn submit(
        &mut self,
        alloc: Global,
        conn: u32,
        index: u32,
        request: Request,
        moment: u64,
    ) -> Result<Answer, SubmitRefusal>
        requires sound { IsSound request }
        requires moment { moment ≤ LAST_MOMENT }
        ensures ok { IfOk result (λ answer. Submits self.old self.new (record { conn = conn; index = index; moment = moment; request = request }) answer) }
        ensures refused { OnErr result (IsUnchanged self.old self.new) }
        ensures limits { self.new.limits ≡ self.old.limits }
        ensures within { IsWithin body_of (journal_in self.new) }
        ensures full { IsErrOf result (SubmitRefusal.Full Full.JournalFull) ↔ IsFull (journal_in self.old) }
        ensures bytes_full { IsErrOf result (SubmitRefusal.Full Full.JournalBytesFull) ↔ IsFullFor body_of (journal_in self.old) (length request.body) }
    {
        self.journal.reserve(request.body.bytes().len() as u64)?;
        let number = self.journal.len() + 1;
        let fresh = Fresh {
            pass: 0,
            used: self.used,
        };
        let draft = match eval(alloc, &mut self.stripes, &request, moment, &fresh) {
            Ok(draft) => draft,
            Err(EvalStop::Need(_)) => unreachable!(),
            Err(EvalStop::NoMemory) => return Err(SubmitRefusal::NoMemory),
        };
        let bytes = spell(alloc, &draft.reply, number, moment, request.head)?;
        let written = stripes_of(draft.writes.as_slice());
        let changes = draft.changes.as_slice();
        self.stripes.reserve(alloc, written, changes)?;
        self.journal.push(Entry {
            conn,
            index,
            moment,
            request,
        });
        self.stripes.apply(written, changes, number);
        self.used += u64::from(draft.drawn);
        Ok(Answer {
            bytes,
            mark: Mark::of(&draft.reply),
            receipt: receipt_of(number, draft.reads.as_slice(), draft.writes.as_slice()),
        })
    }
}
