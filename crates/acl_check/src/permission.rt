ghost use Rattle.std.specs.Prelude.{◌≡◌, IfErr};
ghost use Rattle.acl_check.specs.AccessLaws.{HasAll, IsRuleOfCheck};
ghost use Rattle.namespace_model.specs.Access.{access_check, is_of_group_of, judged, masked_by, some_group_gives};

use crate::rights::{belongs_to, is_superuser};
use acl_text::{Acl, Id, Perm, Who};
use namespace_model::{Caller, Refusal, Rule};

// The bits that the mask leaves.
fn masked_by(access: &Acl, bits: Perm) -> Perm
    ensures { result ≡ masked_by access.now bits }
{
    bits.and(access.mask().unwrap_or(Perm::ALL))
}

fn judged(rule: Rule, want: Perm, have: Perm) -> Result<(), Refusal>
    ensures { result ≡ judged rule want have }
{
    if have.contains(want) {
        Ok(())
    } else {
        Err(Refusal { rule, have })
    }
}

// Whether the entry is that of a group to which the caller belongs.
fn is_of_group_of(caller: &Caller, group: &Id, who: &Who) -> bool
    ensures { result ≡ is_of_group_of caller.now group.now who.now }
{
    match who {
        Who::OwningGroup => belongs_to(caller, group),
        Who::Group(id) => belongs_to(caller, id),
        Who::Owner | Who::User(_) | Who::Mask | Who::Other => false,
    }
}

fn some_group_gives(access: &Acl, group: &Id, caller: &Caller, want: Perm) -> bool
    ensures { result ≡ some_group_gives access.now group.now caller.now want }
{
    access.entries().iter().any(|entry| is_of_group_of(caller, group, &entry.0)
        && masked_by(access, entry.1).contains(want))
}

// What the first case that applies says.
#[tactic(auto, unfolding(namespace_model::specs::Access::access_check))]
fn case_of(access: &Acl, owner: &Id, group: &Id, caller: &Caller, want: Perm) -> Result<(), Refusal>
    ensures { result ≡ access_check access.now owner.now group.now caller.now want }
{
    if is_superuser(caller) {
        return Ok(());
    }
    if caller.id == *owner {
        return judged(Rule::Owner, want, access.owner());
    }
    if let Some(bits) = access.user(&caller.id) {
        return judged(Rule::NamedUser, want, masked_by(access, bits));
    }
    if some_group_gives(access, group, caller, want) {
        return Ok(());
    }
    judged(Rule::Other, want, access.other())
}

/// Whether a caller has the wanted permissions on a node with this access list, owner and owning group.
///
/// The superuser has all. The owner is judged by the entry of the owner alone, and the mask does not limit it. A named user is
/// judged by its entry and the mask. Else one entry of the owning group or of a named group to which the caller belongs, cut by
/// the mask, has to give all that is wanted; and else the entry of the others does, without the mask.
///
/// The refusal has the rule `Owner`, `NamedUser` or `Other`, whichever decided, and the bits that were compared last.
pub fn check(
    access: &Acl,
    owner: &Id,
    group: &Id,
    caller: &Caller,
    want: Perm,
) -> Result<(), Refusal>
    ensures case { result ≡ access_check access.now owner.now group.now caller.now want }
    ensures rule { IfErr result (λ refusal. IsRuleOfCheck refusal.rule) }
    ensures lacks { IfErr result (λ refusal. ¬ HasAll refusal.have want) }
{
    case_of(access, owner, group, caller, want)
}
