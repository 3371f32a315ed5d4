//! The namespace in 64 parts.
ghost use Rattle.std.specs.Prelude.{◌≡◌, IfOk, map};
ghost use Rattle.parted_namespace.specs.Opening.{bare_stripe, opening_stripes};

use super::opening::first_stripe;
use inode_tree::{Change, Placed, Stripe};
use lock_core::Parted;
use namespace_model::Reply;
use std::alloc::{AllocError, Global};

/// The namespace as an object in 64 parts. Stripe k keeps the nodes whose ids have the remainder k by 64, and has k as its number. An
/// entry's work is the list of changes that its evaluation drafted.
#[derive(Drop)]
pub struct Namespace;

impl Parted for Namespace {
    ghost use Rattle.std.specs.Prelude.{ℕ};
    ghost use Rattle.inode_tree.specs.Stripes.{IsReady};
    ghost use Rattle.parted_namespace.specs.Opening.{bare_stripe};
    ghost use Rattle.parted_namespace.specs.Namespace.{namespace, stripe_applied, IsWork};
    ghost use Rattle.parted_namespace.specs.Laws.{namespace_lawful, namespace_works};

    type Entry = Placed;

    type Reply = Reply;

    type Part = Stripe;

    type Work = Vec<Change>;

    ghost object = { namespace };

    ghost bare = { bare_stripe };

    ghost ready = { λ s w. IsReady s w.items };

    ghost applied = { λ s w number. stripe_applied s w.items number };

    ghost does = { λ w xs e. IsWork w.items xs e };

    fn pass_of(entry: &Placed) -> u32 {
        entry.pass
    }

    fn opening_parts(alloc: Global) -> Result<Vec<Stripe>, AllocError> {
        opening_stripes(alloc)
    }

    fn reserve(alloc: Global, part: &mut Stripe, work: &Vec<Change>) -> Result<(), AllocError> {
        part.reserve(alloc, work.as_slice())
    }

    fn apply(part: &mut Stripe, work: &Vec<Change>, number: u64) {
        part.apply(work.as_slice(), number);
    }

    ghost lawful = { namespace_lawful };

    ghost works = { namespace_works };
}

// The 64 stripes at the start: the account in the first, and each with its place as its number.
fn opening_stripes(alloc: Global) -> Result<Vec<Stripe>, AllocError>
    ensures { IfOk result (λ stripes. map bare_stripe stripes.items ≡ opening_stripes) }
{
    let mut stripes = Vec::with_capacity(alloc, 64)?;
    stripes.push(first_stripe(alloc)?)?;
    for stripe in 1..64u8 {
        stripes.push(Stripe::new(alloc, stripe))?;
    }
    Ok(stripes)
}
