//! What the readers and the writers keep, in plain words. Each law is the contract of a function that does nothing, and speaks of
//! every text, every number and all properties.

ghost use Rattle.std.specs.Prelude.{◌≡◌, ◌↔◌, ℕ, ◌<◌, ◌^◌, codes, List, [], ◌∷◌, ◌++◌, Option, Some, None, Ok, Err, true, false};
ghost use Rattle.std.specs.List.{AllByRecursion, Contains};
ghost use Rattle.std.specs.Str.Parse.{digits_value};
ghost use Rattle.httpdate.specs.Date.{parse_secs};
ghost use Rattle.head_text.specs.ConditionWords.{AllHold, IsFirstUnmet};
ghost use Rattle.head_text.specs.ConditionsOf.{conditions_of};
ghost use Rattle.head_text.specs.DateText.{http_date};
ghost use Rattle.head_text.specs.ETags.{etags_of, item_number, trimmed};
ghost use Rattle.head_text.specs.Headers.{first_header, is_named};
ghost use Rattle.head_text.specs.Hex.{hex16};
ghost use Rattle.head_text.specs.Properties.{Property, IsProperties};
ghost use Rattle.head_text.specs.PropertyTexts.{IsPropertiesText, properties_of, properties_text};
ghost use Rattle.head_text.specs.TagLists.{AreItems};
ghost use Rattle.head_text.specs.TagTexts.{SpellsTag, etag_text};
ghost use Rattle.head_text.specs.Trims.{IsTrimmed};
ghost use Rattle.head_text.specs.declared.conditions.Conditions.{Conditions};
ghost use Rattle.head_text.specs.declared.conditions.Unmet.{Unmet};

/// An item of a list of entity tags has a number exactly where it spells its tag: spaces and tabs apart, perhaps `W/`, and then `0x`
/// and sixteen hex digits, in quotes or not.
pub fn an_item_has_a_number_exactly_where_it_spells_its_tag()
    ensures { (item : List ℕ) (number : ℕ) → ((item_number item ≡ Some number) ↔ SpellsTag item number) }
{}

/// What is written of properties is a text of these properties, and is read back.
pub fn written_properties_are_read_back()
    ensures text { (pairs : List Property) → IsProperties pairs → IsPropertiesText (properties_text pairs) pairs }
    ensures read { (pairs : List Property) → IsProperties pairs → properties_of (properties_text pairs) ≡ Ok pairs }
{}

/// A text is what is trimmed of it with spaces and tabs round it, and what is trimmed neither begins nor ends with one.
pub fn a_text_is_trimmed_of_all_spaces_and_tabs_round_it()
    ensures { (text : List ℕ) → IsTrimmed text (trimmed text) }
{}

/// Sixteen hex digits are read back as the number that they were written for.
pub fn written_hex_digits_are_read_back()
    ensures { (n : ℕ) → n < 2 ^ 64 → digits_value 16 (hex16 n) ≡ n }
{}

/// The entity tag of a number is read as a list of this number alone.
pub fn a_written_entity_tag_is_read_back()
    ensures { (n : ℕ) → n < 2 ^ 64 → etags_of (etag_text n) ≡ record { any = false; numbers = n ∷ [] } }
{}

/// The text of a date before the year 10000 is read as its second.
pub fn a_written_date_is_read_back()
    ensures { (secs : ℕ) → secs < 253_402_300_800 → parse_secs (http_date secs) ≡ Some secs }
{}

/// The conditions are met exactly where all four hold, and else the first that fails is told.
pub fn the_first_condition_that_fails_is_told()
    ensures met { (c : Conditions) (node : Option (ℕ × ℕ)) → ((conditions_of c node ≡ Ok tt) ↔ AllHold c node) }
    ensures unmet { (c : Conditions) (node : Option (ℕ × ℕ)) (unmet : Unmet) →
        ((conditions_of c node ≡ Err unmet) ↔ IsFirstUnmet c node unmet) }
{}

/// Any tag will do exactly where the trimmed text is `*`, and a number is listed exactly where an item between commas
/// spells its tag.
pub fn a_number_is_listed_exactly_where_an_item_spells_its_tag()
    ensures any { (text : List ℕ) → (((etags_of text).any ≡ true) ↔ (trimmed text ≡ codes "*")) }
    ensures listed { (text : List ℕ) (items : List (List ℕ)) (number : ℕ) → AreItems text items →
        (Contains (etags_of text).numbers number ↔ ((item : List ℕ) × Contains items item × SpellsTag item number)) }
    ensures parted { (text : List ℕ) → (items : List (List ℕ)) × AreItems text items }
{}

/// The value of a name is that of the first header with this name, and there is none where no header has it.
pub fn the_first_header_of_a_name_counts()
    ensures first { (name : List ℕ) (front back : List (List ℕ × List ℕ)) (header : List ℕ × List ℕ) →
        AllByRecursion (λ h. is_named name h ≡ false) front → is_named name header ≡ true →
        first_header name (front ++ header ∷ back) ≡ Some header.1 }
    ensures none { (name : List ℕ) (headers : List (List ℕ × List ℕ)) →
        AllByRecursion (λ h. is_named name h ≡ false) headers → first_header name headers ≡ None }
{}
