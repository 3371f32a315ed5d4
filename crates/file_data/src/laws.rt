//! What staging and flushing keep, in plain words. Each law is the contract of a function that does nothing, and speaks
//! of every file, every position and every list of pieces.

ghost use Rattle.std.specs.Prelude.{◌≡◌, ◌≢◌, ◌↔◌, ◌⊎◌, ℕ, ◌+◌, ◌<◌, ◌≤◌, Bool, true, false, List, [], ◌∷◌, length, slice_range, Ok, Err, None};
ghost use Rattle.file_data.specs.declared.fault.DataFault.{DataFault};
ghost use Rattle.file_data.specs.declared.fault.DataFault.TheVariants.{BelowLength, Gap, Overlap, WrongPosition, TooLarge};
ghost use Rattle.file_data.specs.Staging.{pieces_below, bytes_of, Covers, first_trouble};
ghost use Rattle.file_data.specs.FileRecord.{FileRecord, bare_file, file_max, IsFile, AreExtents, SameButRoom, CanFlush, stage_answer, staged_with, flush_answer, flushed, end_at, CanAppendFlush, append_flush_answer, append_flushed};
ghost use Rattle.file_data.specs.Troubles.{HasGap, HasOverlap, EndsAbove};
ghost use Rattle.file_data.specs.Orders.{staged_all, reordered, StartApart};

/// The way over pieces from `n` to `q` meets no trouble exactly where the pieces lie end to end from `n` to `q`.
pub fn no_trouble_is_met_where_the_pieces_cover()
    ensures { (pieces : List (ℕ × List ℕ)) (n q : ℕ) → ((first_trouble pieces n q ≡ None) ↔ Covers pieces n q) }
{}

/// A flush is allowed exactly where its position isn't below the length and the staged pieces below it lie end to end
/// from the length to it.
pub fn a_flush_is_allowed_where_the_pieces_cover()
    ensures { (f : FileRecord) (q : ℕ) → ((flush_answer f q ≡ Ok tt) ↔ CanFlush f q) }
{}

/// When each fault of a flush comes: `BelowLength` where the position is below the length, else `Gap` where pieces lie
/// end to end from the length to a place where nothing goes on, `Overlap` where they do and the next piece starts
/// below that place, `WrongPosition` where all of them do and end above the position, and never `TooLarge`.
pub fn a_refused_flush_names_its_trouble()
    ensures below_length { (f : FileRecord) (q : ℕ) → ((flush_answer f q ≡ Err BelowLength) ↔ (q < length f.committed)) }
    ensures gap { (f : FileRecord) (q at : ℕ) → ((flush_answer f q ≡ Err (Gap at))
        ↔ ((length f.committed ≤ q) × HasGap (pieces_below f.staged q) (length f.committed) q at)) }
    ensures overlap { (f : FileRecord) (q start : ℕ) → ((flush_answer f q ≡ Err (Overlap start))
        ↔ ((length f.committed ≤ q) × HasOverlap (pieces_below f.staged q) (length f.committed) start)) }
    ensures wrong_position { (f : FileRecord) (q : ℕ) → ((flush_answer f q ≡ Err WrongPosition)
        ↔ ((length f.committed ≤ q) × EndsAbove (pieces_below f.staged q) (length f.committed) q)) }
    ensures never_too_large { (f : FileRecord) (q : ℕ) → flush_answer f q ≢ Err TooLarge }
{}

/// When a piece may be staged, and when each fault comes.
pub fn a_refused_stage_names_its_trouble()
    ensures allowed { (f : FileRecord) (q : ℕ) (bytes : List ℕ) → ((stage_answer f q bytes ≡ Ok tt)
        ↔ ((length f.committed ≤ q) × (q + length bytes ≤ file_max))) }
    ensures below_length { (f : FileRecord) (q : ℕ) (bytes : List ℕ) → ((stage_answer f q bytes ≡ Err BelowLength)
        ↔ (q < length f.committed)) }
    ensures too_large { (f : FileRecord) (q : ℕ) (bytes : List ℕ) → ((stage_answer f q bytes ≡ Err TooLarge)
        ↔ ((length f.committed ≤ q) × (file_max < q + length bytes))) }
{}

/// A flush at the present length, with nothing staged below, passes and changes nothing but what it drops; in a file
/// nothing is staged below the length.
pub fn a_flush_at_the_length_only_drops()
    ensures nothing_below { (f : FileRecord) → IsFile f.committed f.staged → pieces_below f.staged (length f.committed) ≡ [] }
    ensures allowed { (f : FileRecord) → pieces_below f.staged (length f.committed) ≡ [] →
        flush_answer f (length f.committed) ≡ Ok tt }
    ensures retaining { (f : FileRecord) → pieces_below f.staged (length f.committed) ≡ [] →
        SameButRoom f (flushed f (length f.committed) true) }
    ensures dropping { (f : FileRecord) → pieces_below f.staged (length f.committed) ≡ [] →
        SameButRoom (record f { staged = [] }) (flushed f (length f.committed) false) }
{}

/// Pieces that start at different positions may be staged in any order: the file is the same. Whether one of them is
/// refused doesn't depend on what is staged.
pub fn pieces_are_staged_in_any_order()
    ensures two { (f : FileRecord) (q r : ℕ) (first second : List ℕ) → q ≢ r →
        staged_with (staged_with f q first) r second ≡ staged_with (staged_with f r second) q first }
    ensures all { (f : FileRecord) (exchanges : List ℕ) (pieces : List (ℕ × List ℕ)) → StartApart pieces →
        staged_all (reordered exchanges pieces) f ≡ staged_all pieces f }
    ensures answer { (f : FileRecord) (q r : ℕ) (first second : List ℕ) →
        stage_answer (staged_with f q first) r second ≡ stage_answer f r second }
{}

/// A second piece at one position takes the place of the first, whatever the first one was.
pub fn a_second_piece_replaces_the_first()
    ensures { (f : FileRecord) (q : ℕ) (first second : List ℕ) →
        staged_with (staged_with f q first) q second ≡ staged_with f q second }
{}

/// An append with flush is allowed exactly where its stage is and then its flush; else its fault is that of the stage, or,
/// where the stage is allowed, that of the flush.
pub fn an_append_with_flush_is_both_steps()
    ensures allowed { (f : FileRecord) (q : ℕ) (bytes : List ℕ) → ((append_flush_answer f q bytes ≡ Ok tt) ↔ CanAppendFlush f q bytes) }
    ensures refused { (f : FileRecord) (q : ℕ) (bytes : List ℕ) (fault : DataFault) → ((append_flush_answer f q bytes ≡ Err fault)
        ↔ ((stage_answer f q bytes ≡ Err fault)
        ⊎ ((stage_answer f q bytes ≡ Ok tt) × (flush_answer (staged_with f q bytes) (end_at q bytes) ≡ Err fault)))) }
{}

/// After an allowed append with flush the file ends where the piece does, and its last bytes are those of the piece.
pub fn what_was_appended_and_flushed_is_read()
    ensures length { (f : FileRecord) (q : ℕ) (bytes : List ℕ) (retain : Bool) → CanAppendFlush f q bytes →
        length (append_flushed f q bytes retain).committed ≡ end_at q bytes }
    ensures last { (f : FileRecord) (q : ℕ) (bytes : List ℕ) (retain : Bool) → CanAppendFlush f q bytes → 0 < length bytes →
        slice_range (append_flushed f q bytes retain).committed q (end_at q bytes) ≡ bytes }
{}

/// Of an empty file with `abc` staged at 0 and `defg` at 3 a flush to 7 makes two extents, at 0 and at 3.
pub fn a_worked_file_has_two_extents()
    ensures { (flushed (staged_with (staged_with bare_file 0 (97 ∷ 98 ∷ 99 ∷ [])) 3 (100 ∷ 101 ∷ 102 ∷ 103 ∷ [])) 7 false).extents
        ≡ (0, 97 ∷ 98 ∷ 99 ∷ []) ∷ (3, 100 ∷ 101 ∷ 102 ∷ 103 ∷ []) ∷ [] }
{}

/// The extents of a file go on being as they have to be over an allowed flush: none is empty, they lie end to end, and
/// their bytes are the file's.
pub fn a_flush_leaves_extents()
    ensures { (f : FileRecord) (q : ℕ) (retain : Bool) → IsFile f.committed f.staged → AreExtents f.committed f.extents → CanFlush f q →
        AreExtents (flushed f q retain).committed (flushed f q retain).extents }
{}

/// After an allowed flush the file is as long as its position says, what is read behind the old length is the bytes
/// of the pieces, one after another, and what is read before it is the old bytes.
pub fn what_was_flushed_is_read()
    ensures length { (f : FileRecord) (q : ℕ) (retain : Bool) → CanFlush f q → length (flushed f q retain).committed ≡ q }
    ensures new { (f : FileRecord) (q : ℕ) (retain : Bool) → CanFlush f q →
        slice_range (flushed f q retain).committed (length f.committed) q ≡ bytes_of (pieces_below f.staged q) }
    ensures old { (f : FileRecord) (q : ℕ) (retain : Bool) →
        slice_range (flushed f q retain).committed 0 (length f.committed) ≡ f.committed }
{}
