ghost use Rattle.std.specs.Prelude.{◌≡◌, ℕ, ◌+◌, ◌<◌, ◌≤◌, [], Bool, Option, map, length, IfOk, OnOk, OnErr, IsTrue, vec_len, vec_capacity};
ghost use Rattle.std.specs.Ordering.{nat_cmp, eq_by_cmp};
ghost use Rattle.std.specs.FinMap as fin;
ghost use Rattle.std.specs.FinMap.{find, is_sorted};
ghost use Rattle.inode_tree.specs.Changes.{applied, asked_by};
ghost use Rattle.inode_tree.specs.Stripes.{Prepared, StripeRecord, outcome_by, put_in, IsReady};
ghost use Rattle.inode_tree.specs.Drafts.{bare_draft, sealed_entry, IsPutIn};

use super::change::Change;
use super::drafts::{Pending, drafts_of};
use super::id::NodeId;
use super::node_ref::NodeRef;
use super::places::{place, put, take_out};
use std::alloc::{AllocError, Global};
use std::marker::Model;

// What is to stand at an id: no node, or this one, and whether it asks for the number of the entry.
type Prepared = Option<(NodeRef, bool)>;

/// The nodes of one of the 64 stripes, and what is ready to be put in.
#[derive(Drop)]
pub struct Stripe {
    stripe: u8,
    nodes: Vec<(u64, NodeRef)>,
    ready: Vec<(u64, Prepared)>,
}

impl Model for Stripe {
    ghost use Rattle.std.specs.Coded.{codes};
    ghost use Rattle.inode_tree.specs.Stripes.{StripeRecord, stripe_code};

    ghost Value = { StripeRecord };

    ghost coded = { stripe_code (Prim.hlevel codes) };

    ghost use Rattle.inode_tree.specs.StripeInside.{record_of, IsInside};

    ghost view = { record_of };

    ghost invariant = { IsInside };
}

impl Stripe {
    /// The stripe of a number, without nodes. It takes no memory.
    pub fn new(alloc: Global, stripe: u8) -> Stripe
        requires { stripe < 64 }
        ensures { result ≡ record { stripe = stripe; part = fin.empty; ready = fin.empty } }
    {
        Stripe {
            stripe,
            nodes: Vec::new(alloc),
            ready: Vec::new(alloc),
        }
    }

    /// The node of an id. It is `None` exactly where the stripe doesn't keep the id. The one error is that no more looks
    /// at the node can be counted.
    pub fn node(&self, id: NodeId) -> Result<Option<NodeRef>, AllocError>
        ensures { IfOk result (λ node. node ≡ fin.get self.now.part id.0) }
    {
        match place(self.nodes.as_slice(), &id.0) {
            Ok(at) => Ok(Some(self.nodes[at].1.copy()?)),
            Err(_) => Ok(None),
        }
    }

    /// Makes ready what `apply` puts in for these changes, in place of what an earlier `reserve` left. The one error is want
    /// of memory, and then all stays as it was.
    pub fn reserve(&mut self, alloc: Global, changes: &[Change]) -> Result<(), AllocError>
        ensures ready { OnOk result (IsReady self.new changes.now) }
        ensures stripe { self.new.stripe ≡ self.old.stripe }
        ensures part { self.new.part ≡ self.old.part }
        ensures refused { OnErr result (self.new ≡ self.old) }
    {
        let drafts = drafts_of(alloc, self.stripe, self.nodes.as_slice(), changes)?;
        let ready = sealed(alloc, drafts)?;
        self.nodes.reserve(ready.len())?;
        self.ready = ready;
        Ok(())
    }

    /// Puts in what is ready, with the number of the entry where it is asked for. These are the changes of the entry in
    /// their order, for which it was made ready. It takes no memory.
    pub fn apply(&mut self, changes: &[Change], number: u64)
        requires { IsReady self.old changes.now }
        ensures stripe { self.new.stripe ≡ self.old.stripe }
        ensures part { self.new.part ≡ applied self.old.stripe number changes.now self.old.part }
        ensures ready { self.new.ready ≡ fin.empty }
    {
        put_all(&mut self.nodes, &mut self.ready, number);
    }
}

// Outcomes whose nodes can be shared.
fn sealed(alloc: Global, drafts: Vec<(u64, Pending)>) -> Result<Vec<(u64, Prepared)>, AllocError>
    ensures { IfOk result (λ ready. ready.items ≡ map sealed_entry drafts.items) }
{
    let mut ready = Vec::new(alloc);
    for (id, draft) in drafts {
        ready.push((id, sealed_draft(alloc, draft)?))?;
    }
    Ok(ready)
}

fn sealed_draft(alloc: Global, draft: Pending) -> Result<Prepared, AllocError>
    ensures { IfOk result (λ outcome. outcome ≡ bare_draft draft) }
{
    match draft {
        Some((inode, asks)) => Ok(Some((NodeRef::new(alloc, inode)?, asks))),
        None => Ok(None),
    }
}

// Puts in all outcomes, for which there is room.
fn put_all(nodes: &mut Vec<(u64, NodeRef)>, ready: &mut Vec<(u64, Prepared)>, number: u64)
    requires sorted { IsTrue (is_sorted nat_cmp nodes.old.items) }
    requires room { vec_len nodes.old + vec_len ready.old ≤ vec_capacity nodes.old }
    ensures sorted { IsTrue (is_sorted nat_cmp nodes.new.items) }
    ensures nodes { (q : ℕ) → find nat_cmp q nodes.new.items ≡ put_in number (find nat_cmp q ready.old.items) (find nat_cmp q nodes.old.items) }
    ensures ready { ready.new.items ≡ [] }
    ensures room { vec_len nodes.new + vec_len ready.new ≤ vec_capacity nodes.new }
{
    while let Some((id, outcome)) = ready.pop() {
        put_outcome(nodes, id, outcome, number);
    }
}

// Puts in one outcome, for which there is room.
fn put_outcome(nodes: &mut Vec<(u64, NodeRef)>, id: u64, outcome: Prepared, number: u64)
    requires sorted { IsTrue (is_sorted nat_cmp nodes.old.items) }
    requires room { vec_len nodes.old < vec_capacity nodes.old }
    ensures sorted { IsTrue (is_sorted nat_cmp nodes.new.items) }
    ensures nodes { IsPutIn number id outcome nodes.old.items nodes.new.items }
    ensures len { vec_len nodes.new ≤ vec_len nodes.old + 1 }
    ensures capacity { vec_capacity nodes.old ≤ vec_capacity nodes.new }
{
    match outcome {
        None => drop(take_out(nodes, &id)),
        Some((node, asks)) => match put(nodes, id, asked(node, asks, number)) {
            Ok(()) => {}
            Err(_) => unreachable!(),
        },
    }
}

// A node that gets the number where it asks for it.
fn asked(node: NodeRef, asks: bool, number: u64) -> NodeRef
    ensures { result ≡ asked_by number asks node }
{
    if asks { node.with_number(number) } else { node }
}
