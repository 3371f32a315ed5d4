//! What a commit takes with it: the entry with its ids, and the text of its reply but for the number.
ghost use Rattle.std.specs.Prelude.{◌≡◌, ◌≤◌, ◌<◌, ◌^◌, IfOk};
ghost use Rattle.lease_state.specs.declared.lease.TheConstants.{LAST_MOMENT};
ghost use Rattle.inode_tree.specs.Drawing.{next_ids};
ghost use Rattle.reply_text.specs.ReplyText.{CanSpell, reply_text};
ghost use Rattle.reply_text.specs.Slots.{Spells};

use inode_tree::{Fresh, NodeIds, Placed};
use namespace_model::{Entry, Reply};
use reply_text::{Slots, spell};
use std::alloc::{AllocError, Global};

// An entry with the ids that it draws, and the text of its reply, in which the number is still to be filled in.
#[derive(Drop)]
pub(crate) struct Prepared {
    pub(crate) text: Vec<u8>,
    pub(crate) slots: Slots,
    pub(crate) placed: Placed,
}

// Spells the reply of an entry, and draws the next ids of a pass for it, so many. The one error is want of memory.
pub(crate) fn prepare(
    alloc: Global,
    reply: &Reply,
    entry: Entry,
    fresh: &Fresh,
    many: u32,
) -> Result<Prepared, AllocError>
    requires reply { CanSpell reply.now }
    requires moment { entry.moment ≤ LAST_MOMENT }
    requires pass { fresh.now.pass < 64 }
    requires used { fresh.now.used < 2 ^ 40 }
    ensures placed { IfOk result (λ prepared. prepared.placed ≡ record { entry = entry; pass = fresh.now.pass; ids = next_ids fresh.now.pass fresh.now.used many }) }
    ensures text { IfOk result (λ prepared. Spells prepared.slots prepared.text.items (λ number. reply_text reply.now number entry.moment entry.request.head)) }
{
    let mut text = Vec::new(alloc);
    let slots = spell(alloc, reply, entry.moment, entry.request.head, &mut text)?;
    let ids = draw_ids(alloc, fresh, many)?;
    let placed = Placed {
        entry,
        pass: fresh.pass,
        ids,
    };
    Ok(Prepared {
        text,
        slots,
        placed,
    })
}

// The next ids of a pass.
fn draw_ids(alloc: Global, fresh: &Fresh, many: u32) -> Result<NodeIds, AllocError>
    requires pass { fresh.now.pass < 64 }
    requires used { fresh.now.used < 2 ^ 40 }
    ensures { IfOk result (λ ids. ids ≡ next_ids fresh.now.pass fresh.now.used many) }
{
    let mut ids = Vec::new(alloc);
    for place in 0..many {
        ids.push(fresh.id(place))?;
    }
    Ok(NodeIds::new(ids))
}
