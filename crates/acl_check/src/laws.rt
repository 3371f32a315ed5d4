//! What the check and the inheritance keep, in plain words. Each law is the contract of a function that does nothing, and speaks of
//! every list, id and caller.

ghost use Rattle.std.specs.Prelude.{◌≡◌, ◌⊎◌, ◌↔◌, ◌<◌, ℕ, false, true, codes, Contains, List, Option, Some, None, IfSome, IsTrue};
ghost use Rattle.std.specs.FinMap.{find};
ghost use Rattle.acl_text.specs.AclWriting.{access_bits, permissions_text};
ghost use Rattle.acl_text.specs.Acls.{IsAcl};
ghost use Rattle.acl_text.specs.Ids.{superuser};
ghost use Rattle.acl_text.specs.PermTexts.{AreBits};
ghost use Rattle.acl_text.specs.Whos.{who_cmp};
ghost use Rattle.acl_text.specs.declared.acl.AclPair.{AclPair};
ghost use Rattle.acl_text.specs.declared.perm.ModeBits.{ModeBits};
ghost use Rattle.acl_text.specs.declared.who.Who.{Who};
ghost use Rattle.acl_text.specs.declared.who.Who.TheVariants as who;
ghost use Rattle.namespace_model.specs.Access.{access_check, acl_inherit, bits_of, masked_by, may_set_access, may_set_group, may_set_owner, sticky_lets};
ghost use Rattle.namespace_model.specs.declared.caller.Caller.{Caller};
ghost use Rattle.namespace_model.specs.declared.denied.Refusal.{Refusal};
ghost use Rattle.namespace_model.specs.declared.denied.Rule.TheVariants as rule;
ghost use Rattle.namespace_model.specs.declared.op.Kind.{Kind};
ghost use Rattle.namespace_model.specs.declared.op.Kind.TheVariants as kind;
ghost use Rattle.acl_check.specs.AccessLaws.{Allows, Denies, Gives, HasAll, IsBaseOf, IsNamedUser, IsUnnamed, IsOwner, IsRuleOfCheck, IsWithinMode, OneGroupGives};

/// The superuser is allowed all, whatever the list says.
pub fn the_superuser_is_allowed_all()
    ensures { (acl : List (Who × ℕ)) (owner group : List ℕ) (caller : Caller) (want : ℕ) → caller.id ≡ superuser →
        Allows acl owner group caller want }
{}

/// The owner is allowed exactly what its entry gives. Whatever else a list has, its mask too, does not matter.
pub fn the_mask_does_not_limit_the_owner()
    ensures entry { (acl : List (Who × ℕ)) (owner group : List ℕ) (caller : Caller) (want bits : ℕ) → IsOwner owner caller →
        Gives acl who.Owner bits → (Allows acl owner group caller want ↔ HasAll bits want) }
    ensures alone { (acl changed : List (Who × ℕ)) (owner group : List ℕ) (caller : Caller) (want : ℕ) → IsOwner owner caller →
        find who_cmp who.Owner acl ≡ find who_cmp who.Owner changed →
        access_check acl owner group caller want ≡ access_check changed owner group caller want }
{}

/// A named user is allowed exactly what both its entry and the mask give.
pub fn the_mask_limits_a_named_user()
    ensures { (acl : List (Who × ℕ)) (owner group : List ℕ) (caller : Caller) (want bits mask : ℕ) →
        IsNamedUser acl owner caller bits → Gives acl who.Mask mask →
        (Allows acl owner group caller want ↔ (HasAll bits want × HasAll mask want)) }
{}

/// Who is neither the superuser, the owner nor a named user is allowed exactly what the entry of the others gives, which the mask does not
/// limit, and what both the mask and one entry of a group to which the caller belongs give. Without a mask the entry of a group is not
/// limited; what is wanted is then one of the eight permissions.
pub fn the_mask_limits_each_group()
    ensures with_mask { (acl : List (Who × ℕ)) (owner group : List ℕ) (caller : Caller) (want other mask : ℕ) →
        IsUnnamed acl owner caller → Gives acl who.Other other → Gives acl who.Mask mask →
        (Allows acl owner group caller want ↔ (HasAll other want ⊎ (HasAll mask want × OneGroupGives acl group caller want))) }
    ensures without_mask { (acl : List (Who × ℕ)) (owner group : List ℕ) (caller : Caller) (want other : ℕ) →
        IsUnnamed acl owner caller → Gives acl who.Other other → find who_cmp who.Mask acl ≡ None → want < 8 →
        (Allows acl owner group caller want ↔ (HasAll other want ⊎ OneGroupGives acl group caller want)) }
{}

/// A denial has the rule of whoever the caller is, and the bits that decided, which lack one that was wanted.
pub fn a_denial_says_what_is_lacking()
    ensures rule { (acl : List (Who × ℕ)) (owner group : List ℕ) (caller : Caller) (want : ℕ) (refusal : Refusal) →
        Denies acl owner group caller want refusal → IsRuleOfCheck refusal.rule }
    ensures lacks { (acl : List (Who × ℕ)) (owner group : List ℕ) (caller : Caller) (want : ℕ) (refusal : Refusal) →
        Denies acl owner group caller want refusal → ¬ HasAll refusal.have want }
    ensures owner { (acl : List (Who × ℕ)) (owner group : List ℕ) (caller : Caller) (want : ℕ) (refusal : Refusal) →
        IsOwner owner caller → Denies acl owner group caller want refusal →
        refusal ≡ record { rule = rule.Owner; have = bits_of acl who.Owner } }
    ensures named_user { (acl : List (Who × ℕ)) (owner group : List ℕ) (caller : Caller) (want bits : ℕ) (refusal : Refusal) →
        IsNamedUser acl owner caller bits → Denies acl owner group caller want refusal →
        refusal ≡ record { rule = rule.NamedUser; have = masked_by acl bits } }
    ensures other { (acl : List (Who × ℕ)) (owner group : List ℕ) (caller : Caller) (want : ℕ) (refusal : Refusal) →
        IsUnnamed acl owner caller → Denies acl owner group caller want refusal →
        refusal ≡ record { rule = rule.Other; have = bits_of acl who.Other } }
{}

/// Below a parent without a default list a new node has the three base entries, with the bits of the mode that the umask leaves open,
/// and no default list.
pub fn the_umask_restricts_new_nodes()
    ensures access { (parent : AclPair) (kind : Kind) (mode umask : ModeBits) → parent.default ≡ None → AreBits mode → AreBits umask →
        IsBaseOf mode umask (acl_inherit parent kind (Some mode) (Some umask)).0.access }
    ensures default { (parent : AclPair) (kind : Kind) (mode umask : Option ModeBits) → parent.default ≡ None →
        (acl_inherit parent kind mode umask).0.default ≡ None }
{}

/// Below a parent with a default list the umask does not matter: named users and groups keep the bits that the default list gives them,
/// nobody has bits that it does not give, and a directory, but no file, takes the default list as its own.
pub fn a_default_list_is_passed_on()
    ensures no_umask { (parent : AclPair) (acl : List (Who × ℕ)) (kind : Kind) (mode one another : Option ModeBits) →
        parent.default ≡ Some acl → acl_inherit parent kind mode one ≡ acl_inherit parent kind mode another }
    ensures users { (parent : AclPair) (acl : List (Who × ℕ)) (kind : Kind) (mode umask : Option ModeBits) (id : List ℕ) →
        parent.default ≡ Some acl → IsAcl acl →
        find who_cmp (who.User id) (acl_inherit parent kind mode umask).0.access ≡ find who_cmp (who.User id) acl }
    ensures groups { (parent : AclPair) (acl : List (Who × ℕ)) (kind : Kind) (mode umask : Option ModeBits) (id : List ℕ) →
        parent.default ≡ Some acl → IsAcl acl →
        find who_cmp (who.Group id) (acl_inherit parent kind mode umask).0.access ≡ find who_cmp (who.Group id) acl }
    ensures no_more { (parent : AclPair) (acl : List (Who × ℕ)) (kind : Kind) (mode umask : Option ModeBits) (w : Who) →
        parent.default ≡ Some acl → IsAcl acl →
        HasAll (bits_of acl w) (bits_of (acl_inherit parent kind mode umask).0.access w) }
    ensures directory { (parent : AclPair) (mode umask : Option ModeBits) →
        (acl_inherit parent kind.Directory mode umask).0.default ≡ parent.default }
    ensures file { (parent : AclPair) (mode umask : Option ModeBits) →
        (acl_inherit parent kind.File mode umask).0.default ≡ None }
{}

/// The permissions that a new node shows are none but those that were asked for: those of its owner, of its mask or else its owning
/// group, and of the others.
pub fn a_new_node_has_no_more_than_its_mode()
    ensures { (parent : AclPair) (kind : Kind) (mode : ModeBits) (umask : Option ModeBits) → IfSome parent.default IsAcl →
        IsWithinMode mode (access_bits mode.sticky (acl_inherit parent kind (Some mode) umask).0.access) }
{}

/// The sticky bit of a new node is that of the mode that is asked for, and else there is none.
pub fn the_sticky_bit_comes_from_the_mode()
    ensures asked { (parent : AclPair) (kind : Kind) (mode : ModeBits) (umask : Option ModeBits) →
        (acl_inherit parent kind (Some mode) umask).1 ≡ mode.sticky }
    ensures usual { (parent : AclPair) (kind : Kind) (umask : Option ModeBits) →
        (acl_inherit parent kind None umask).1 ≡ false }
{}

/// In a sticky directory the superuser, the child's owner and the directory's owner delete, rename and overwrite a child, and nobody
/// else; where the bit is not set, it stops nobody.
pub fn a_sticky_directory_guards_its_children()
    ensures sticky { (dir_owner child_owner : List ℕ) (caller : Caller) →
        (IsTrue (sticky_lets true dir_owner child_owner caller)
        ↔ ((caller.id ≡ superuser) ⊎ ((caller.id ≡ child_owner) ⊎ (caller.id ≡ dir_owner)))) }
    ensures plain { (dir_owner child_owner : List ℕ) (caller : Caller) →
        IsTrue (sticky_lets false dir_owner child_owner caller) }
{}

/// Lists are set by the superuser and the owner alone. Another owner than the present one is named by the superuser alone; another
/// group than the present one by the superuser, and by an owner who belongs to it.
pub fn owners_name_groups_to_which_they_belong()
    ensures lists { (owner : List ℕ) (caller : Caller) →
        (IsTrue (may_set_access owner caller) ↔ ((caller.id ≡ superuser) ⊎ (caller.id ≡ owner))) }
    ensures owner { (owner new : List ℕ) (caller : Caller) →
        (IsTrue (may_set_owner owner new caller) ↔ ((caller.id ≡ superuser) ⊎ (new ≡ owner))) }
    ensures group { (owner group new : List ℕ) (caller : Caller) →
        (IsTrue (may_set_group owner group new caller)
        ↔ ((caller.id ≡ superuser) ⊎ ((new ≡ group) ⊎ ((caller.id ≡ owner) × Contains caller.groups new)))) }
{}

/// Below a parent without a default list, with no permissions and no umask asked for, a directory shows `rwxr-x---` and a file
/// `rw-r-----`.
pub fn a_usual_node_is_closed_to_others()
    ensures directory { (parent : AclPair) → parent.default ≡ None →
        permissions_text false (acl_inherit parent kind.Directory None None).0.access ≡ codes "rwxr-x---" }
    ensures file { (parent : AclPair) → parent.default ≡ None →
        permissions_text false (acl_inherit parent kind.File None None).0.access ≡ codes "rw-r-----" }
{}
