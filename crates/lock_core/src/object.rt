ghost use Rattle.std.specs.Prelude.{◌≡◌, ℕ, ◌<◌, ◌↔◌, IsTrue, List, map, length, slice_get, IfOk, MatchResult};
ghost use Rattle.lock_core.specs.Object.{Object, IsLawful, IsWorking, mode_of, by_pass};

use std::alloc::{AllocError, Global};

/// How a stripe is held, or is to be held.
#[derive(Clone, Copy, Debug, PartialEq, Eq)]
pub enum LockMode {
    /// Not at all.
    None,
    /// Together with others, none of whom changes the part.
    Shared,
    /// Alone, to change the part.
    Exclusive,
}

/// What an entry of a journal takes besides its place.
pub trait Bodied {
    // The bytes of the body.
    ghost body: { Self → ℕ };
    // The ids that the entry uses up.
    ghost uses: { Self → ℕ };

    /// The length of the entry's body in bytes.
    fn body_len(&self) -> u64
        ensures { result ≡ body self.now };

    /// How many ids the entry uses up.
    fn uses_len(&self) -> u8
        ensures { result ≡ uses self.now };
}

/// An object that is cut into 64 parts, one a stripe, and is changed by the entries of a journal alone.
///
/// Every definition speaks of bare parts: a part without what a `reserve` keeps ready in it.
pub trait Parted: Drop {
    /// What the journal holds.
    type Entry: Bodied + Drop;

    /// What an entry answers.
    type Reply: Drop;

    /// One of the 64 parts.
    type Part: Drop;

    /// What an entry does to a part that it writes.
    type Work: Drop;

    // What an entry answers, reads, writes and leaves.
    ghost object: { Object Self.Part Self.Entry Self.Reply };
    // A part without what a `reserve` keeps ready.
    ghost bare: { Self.Part → Self.Part };
    // The work was reserved in this part.
    ghost ready: { Self.Part → Self.Work → Type 0 };
    // A bare part after the work of the entry with this number.
    ghost applied: { Self.Part → Self.Work → ℕ → Self.Part };
    // The work is that of the entry on these parts.
    ghost does: { Self.Work → List Self.Part → Self.Entry → Type 0 };

    /// The number of the pass that made the entry.
    fn pass_of(entry: &Self::Entry) -> u32
        ensures { result ≡ object.by entry.now };

    /// The 64 parts at the start. The one error is want of memory.
    fn opening_parts(alloc: Global) -> Result<Vec<Self::Part>, AllocError>
        ensures { IfOk result (λ parts. map bare parts.items ≡ object.opening) };

    /// Makes ready in the part what `apply` of this work needs. The one error is want of memory.
    fn reserve(alloc: Global, part: &mut Self::Part, work: &Self::Work) -> Result<(), AllocError>
        ensures same { bare part.new ≡ bare part.old }
        ensures reserved { IfOk result (λ _. ready part.new work.now) };

    /// Does the work in a part that the entry writes, with the entry's number in the journal. It takes no memory.
    fn apply(part: &mut Self::Part, work: &Self::Work, number: u64)
        requires { ready part.old work.now }
        ensures { bare part.new ≡ applied (bare part.old) work.now number };

    ghost lawful: { IsLawful object };

    ghost works: { IsWorking object does applied };
}

/// The calls by which the pure machine runs an object. They speak of all 64 parts.
pub trait Played: Parted {
    /// The mode that each stripe needs: exclusive where the entry writes, shared where it only reads. The one error is
    /// want of memory.
    fn footprint(
        alloc: Global,
        parts: &[Self::Part],
        entry: &Self::Entry,
        number: u64,
    ) -> Result<[LockMode; 64], AllocError>
        requires { length parts.now ≡ 64 }
        ensures { IfOk result (λ modes. (k : ℕ) → k < 64 → slice_get modes k ≡ Some (mode_of
            (Self.object.writes (map Self.bare parts.now) entry.now number k)
            (Self.object.reads (map Self.bare parts.now) entry.now number k))) };

    /// Whether the pass may make the entry on these parts, by the entries of the journal that it made before. The one
    /// error is want of memory.
    fn fitting(
        alloc: Global,
        pass: u32,
        journal: &[Self::Entry],
        parts: &[Self::Part],
        entry: &Self::Entry,
    ) -> Result<bool, AllocError>
        requires { length parts.now ≡ 64 }
        ensures { IfOk result (λ fits. IsTrue fits
            ↔ Self.object.fits pass (by_pass Self.object pass journal.now) (map Self.bare parts.now) entry.now) };

    /// Answers the entry's reply and makes the parts those after it. The one error is want of memory, which leaves the
    /// parts as they were.
    fn play(
        alloc: Global,
        parts: &mut [Self::Part],
        entry: &Self::Entry,
        number: u64,
    ) -> Result<Self::Reply, AllocError>
        requires { length parts.old ≡ 64 }
        ensures { MatchResult result
            (λ reply. (reply ≡ Self.object.reply (map Self.bare parts.old) entry.now number)
            × (map Self.bare parts.new ≡ Self.object.after (map Self.bare parts.old) entry.now number))
            (λ _. parts.new ≡ parts.old) };
}
