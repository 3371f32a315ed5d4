//! What the changes of access control lists keep, in plain words. Each law is the contract of a function that does nothing, and
//! speaks of every pair and every list.

ghost use Rattle.std.specs.Prelude.{◌≡◌, ℕ, false, List, filter, None, IfSome, IsTrue, Ok};
ghost use Rattle.acl_text.specs.declared.scope.Scope.{Scope};
ghost use Rattle.acl_text.specs.declared.scope.Scope.TheVariants.{Access, Default};
ghost use Rattle.acl_text.specs.declared.perm.ModeBits.{ModeBits};
ghost use Rattle.acl_text.specs.declared.who.Who.{Who};
ghost use Rattle.acl_text.specs.declared.acl.AclPair.{AclPair};
ghost use Rattle.acl_text.specs.Whos.{is_base};
ghost use Rattle.acl_text.specs.AclChanges.{acl_modify, acl_remove, acl_set, acl_with_mode, gives_mask, names, names_item};
ghost use Rattle.acl_text.specs.AclTexts.{NoneRepeats, acl_list_of, same_entry};
ghost use Rattle.acl_text.specs.AclWriting.{access_bits, acl_text, entries_of};
ghost use Rattle.acl_text.specs.AclLaws.{HasComputedMask, HasWhatItSays, IsAclPair, KeepsTheRest, ListsAllButBase};

/// To modify twice with one list is to modify once.
pub fn modify_twice_is_once()
    ensures { (pair next : AclPair) (list : List (Scope × Who × ℕ)) →
        acl_modify pair list ≡ Ok next → acl_modify next list ≡ Ok next }
{}

/// To modify a pair with the entries that it has itself changes nothing.
pub fn modify_with_its_own_entries_changes_nothing()
    ensures { (pair : AclPair) → IsAclPair pair → acl_modify pair (entries_of pair) ≡ Ok pair }
{}

/// To set the entries of a pair gives the pair.
pub fn set_of_its_entries_is_the_pair()
    ensures { (pair : AclPair) → IsAclPair pair → acl_set (entries_of pair) ≡ Ok pair }
{}

/// After a list that names the access scope removed all named entries and the mask there, the three base entries are left as they
/// were.
pub fn remove_of_all_leaves_the_base()
    ensures { (pair left : AclPair) (list : List (Scope × Who)) → IsAclPair pair →
        IsTrue (names_item Access list) → ListsAllButBase list pair.access → acl_remove pair list ≡ Ok left →
        left.access ≡ filter (λ e. is_base e.0) pair.access }
{}

/// What is printed of a pair is read as its entries, so that to set them gives the pair.
pub fn what_is_printed_is_read()
    ensures { (pair : AclPair) → IsAclPair pair → acl_list_of (acl_text pair) ≡ Ok (entries_of pair) }
{}

/// Where a list names a scope and gives no mask there, the mask of the result is the one that its entries need; and so it is after
/// entries of the scope were removed.
pub fn the_mask_is_computed()
    ensures modify_access { (pair next : AclPair) (list : List (Scope × Who × ℕ)) → acl_modify pair list ≡ Ok next →
        IsTrue (names Access list) → gives_mask Access list ≡ false → HasComputedMask next.access }
    ensures modify_default { (pair next : AclPair) (list : List (Scope × Who × ℕ)) → acl_modify pair list ≡ Ok next →
        IsTrue (names Default list) → gives_mask Default list ≡ false → IfSome next.default HasComputedMask }
    ensures set_access { (next : AclPair) (list : List (Scope × Who × ℕ)) → acl_set list ≡ Ok next →
        gives_mask Access list ≡ false → HasComputedMask next.access }
    ensures set_default { (next : AclPair) (list : List (Scope × Who × ℕ)) → acl_set list ≡ Ok next →
        gives_mask Default list ≡ false → IfSome next.default HasComputedMask }
    ensures remove_access { (pair next : AclPair) (list : List (Scope × Who)) → acl_remove pair list ≡ Ok next →
        IsTrue (names_item Access list) → HasComputedMask next.access }
    ensures remove_default { (pair next : AclPair) (list : List (Scope × Who)) → acl_remove pair list ≡ Ok next →
        IsTrue (names_item Default list) → IfSome next.default HasComputedMask }
{}

/// A scope that a list does not name stays as it was; a list that names no default entry sets no default ACL; and a mode leaves the
/// default ACL as it was.
pub fn a_scope_that_is_not_named_stays()
    ensures modify_access { (pair next : AclPair) (list : List (Scope × Who × ℕ)) → IsAclPair pair →
        acl_modify pair list ≡ Ok next → names Access list ≡ false → next.access ≡ pair.access }
    ensures modify_default { (pair next : AclPair) (list : List (Scope × Who × ℕ)) → IsAclPair pair →
        acl_modify pair list ≡ Ok next → names Default list ≡ false → next.default ≡ pair.default }
    ensures set_default { (next : AclPair) (list : List (Scope × Who × ℕ)) →
        acl_set list ≡ Ok next → names Default list ≡ false → next.default ≡ None }
    ensures remove_access { (pair next : AclPair) (list : List (Scope × Who)) → IsAclPair pair →
        acl_remove pair list ≡ Ok next → names_item Access list ≡ false → next.access ≡ pair.access }
    ensures remove_default { (pair next : AclPair) (list : List (Scope × Who)) → IsAclPair pair →
        acl_remove pair list ≡ Ok next → names_item Default list ≡ false → next.default ≡ pair.default }
    ensures mode { (pair : AclPair) (bits : ModeBits) → (acl_with_mode pair bits).default ≡ pair.default }
{}

/// Whom a list names in a scope has what the list gives there, and all others but the mask have what they had.
pub fn who_is_named_has_what_is_given()
    ensures modify_access { (pair next : AclPair) (list : List (Scope × Who × ℕ)) → NoneRepeats same_entry list →
        acl_modify pair list ≡ Ok next → HasWhatItSays Access list next.access }
    ensures modify_default { (pair next : AclPair) (list : List (Scope × Who × ℕ)) → NoneRepeats same_entry list →
        acl_modify pair list ≡ Ok next → IfSome next.default (HasWhatItSays Default list) }
    ensures set_access { (next : AclPair) (list : List (Scope × Who × ℕ)) → NoneRepeats same_entry list →
        acl_set list ≡ Ok next → HasWhatItSays Access list next.access }
    ensures set_default { (next : AclPair) (list : List (Scope × Who × ℕ)) → NoneRepeats same_entry list →
        acl_set list ≡ Ok next → IfSome next.default (HasWhatItSays Default list) }
    ensures rest { (pair next : AclPair) (list : List (Scope × Who × ℕ)) → IsAclPair pair →
        acl_modify pair list ≡ Ok next → KeepsTheRest Access list pair.access next.access }
{}

/// The mode that was set is the mode that is shown.
pub fn the_mode_that_is_set_is_shown()
    ensures { (pair : AclPair) (bits : ModeBits) → access_bits bits.sticky (acl_with_mode pair bits).access ≡ bits }
{}
