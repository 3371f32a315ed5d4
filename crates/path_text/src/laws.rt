//! What the readers keep, in plain words. Each law is the contract of a function that does nothing, and speaks of every text
//! and every path.

ghost use Rattle.std.specs.Prelude.{◌≡◌, ◌↔◌, ◌∷◌, ◌++◌, true, List, ℕ, Some, Ok};
ghost use Rattle.std.specs.declared.cmp.Ordering.TheVariants.{Less};
ghost use Rattle.path_text.specs.Paths.{is_prefix, path_cmp};
ghost use Rattle.path_text.specs.Names.{HyphensStandBetween, has_single_hyphens};
ghost use Rattle.path_text.specs.Targets.{IsFirstBadEscape, SpellsTarget, bad_escape, target_parts};
ghost use Rattle.path_text.specs.Texts.{KeepsLimits, Spells, plain_path};

/// Numbers, so bytes, are read as a path exactly where the path keeps the limits and they are its text: `/`, then the parts with `/`
/// between them, and perhaps one `/` more at the end.
pub fn a_text_is_read_exactly_where_it_spells_a_path()
    ensures { (text : List ℕ) (path : List (List ℕ)) →
        ((plain_path text ≡ Ok path) ↔ (KeepsLimits path × Spells text path)) }
{}

/// A target is read exactly where it stands for a path within the limits and a query: it begins with `/`, what stands before its
/// first `?` decodes to a text of the path, no escape is bad, and the query is the pairs behind the `?`.
pub fn a_target_is_read_exactly_where_it_spells_a_path_and_a_query()
    ensures { (target : List ℕ) (path : List (List ℕ)) (query : List (List ℕ × List ℕ)) →
        ((target_parts target ≡ Ok (path, query)) ↔ SpellsTarget target path query) }
{}

/// The place of a bad escape is that of the first `%` that two hex digits don't follow.
pub fn a_bad_escape_is_the_first()
    ensures { (text : List ℕ) (at : ℕ) → ((bad_escape text ≡ Some at) ↔ IsFirstBadEscape text at) }
{}

/// A path stands before each path below it.
pub fn a_path_stands_before_what_is_below_it()
    ensures { (path names : List (List ℕ)) (name : List ℕ) → path_cmp path (path ++ name ∷ names) ≡ Less }
{}

/// A path is a prefix of another exactly where the other is it with names behind it, perhaps none.
pub fn a_prefix_is_a_front()
    ensures { (path other : List (List ℕ)) → ((is_prefix path other ≡ true) ↔ ((names : List (List ℕ)) × (other ≡ path ++ names))) }
{}

/// The hyphens of a filesystem's name: no run between them is empty exactly where the first and the last byte is none and no two stand
/// side by side.
pub fn hyphens_stand_between_other_bytes()
    ensures { (text : List ℕ) → ((has_single_hyphens text ≡ true) ↔ HyphensStandBetween text) }
{}
