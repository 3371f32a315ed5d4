ghost use Rattle.std.specs.Prelude.{◌≡◌, ◌<◌, ◌≤◌, ◌↔◌, ◌==◌, ◌+◌, ℕ, [], ◌∷◌, ◌++◌, length, Some, IsNone, IfSome, bit_and, bit_or};
ghost use Rattle.acl_text.specs.PermTexts.{AreBits, SpellsPerm, flag_of, letter, last_letter, perm_at, perm_in, perm_of, perm_text, symbolic_text};

use std::marker::Model;

/// The permissions of an entry: read is bit 2, write is bit 1, execute is bit 0. A contract sees the number, 0 to 7.
#[derive(Clone, Copy, Debug, PartialEq, Eq)]
pub struct Perm {
    bits: u8,
}

impl Model for Perm {
    ghost use Rattle.std.specs.Prelude.{ℕ, ◌<◌};

    ghost Value = { ℕ };

    ghost view = { λ p. p.bits };

    ghost invariant = { λ p. p.bits < 8 };

    ghost inverse = { λ n. record { bits = n } };
}

impl Perm {
    /// No permissions, `---`.
    pub const NONE: Perm = Perm { bits: 0 };

    /// To execute, `--x`: to pass through a directory.
    pub const EXECUTE: Perm = Perm { bits: 1 };

    /// To write, `-w-`.
    pub const WRITE: Perm = Perm { bits: 2 };

    /// To write and to execute, `-wx`: to change what is in a directory.
    pub const WRITE_EXECUTE: Perm = Perm { bits: 3 };

    /// To read, `r--`.
    pub const READ: Perm = Perm { bits: 4 };

    /// To read and to execute, `r-x`: to list a directory.
    pub const READ_EXECUTE: Perm = Perm { bits: 5 };

    /// To read and to write, `rw-`.
    pub const READ_WRITE: Perm = Perm { bits: 6 };

    /// All permissions, `rwx`.
    pub const ALL: Perm = Perm { bits: 7 };

    /// The permissions of three bits, where it is known that they are no more. `new` is the test.
    pub fn of(bits: u8) -> Perm
        requires small { bits < 8 }
        ensures { result ≡ bits }
    {
        Perm { bits }
    }

    /// The permissions of three bits. The answer is `None` exactly for a number above 7.
    pub fn new(bits: u8) -> Option<Perm>
        ensures none { IsNone result ↔ (7 < bits) }
        ensures value { IfSome result (λ perm. perm ≡ bits) }
    {
        if bits < 8 { Some(Perm { bits }) } else { None }
    }

    /// The three bits, a number from 0 to 7.
    pub fn bits(self) -> u8
        ensures value { result ≡ self }
        ensures small { result < 8 }
    {
        self.bits
    }

    // The permissions that three characters spell: `r` or `-`, `w` or `-`, `x` or `-`.
    #[tactic(auto, unfolding(crate::specs::PermTexts::perm_of))]
    pub(crate) fn read(read: u8, write: u8, execute: u8) -> Option<Perm>
        ensures { result ≡ perm_of read write execute }
    {
        let bits = flag(read, b'r', 4)? + flag(write, b'w', 2)? + flag(execute, b'x', 1)?;
        Some(Perm { bits })
    }

    /// The three characters: `r` or `-`, `w` or `-`, `x` or `-`.
    pub fn text(self) -> [u8; 3]
        ensures text { result ≡ perm_text self }
        ensures small { self < 8 }
    {
        let _bits = self.bits;
        [
            letter(self, 4, b'r'),
            letter(self, 2, b'w'),
            letter(self, 1, b'x'),
        ]
    }

    /// Whether all that is wanted is given.
    pub fn contains(self, wanted: Perm) -> bool
        ensures { result ≡ (bit_and wanted self == wanted) }
    {
        wanted.bits & self.bits == wanted.bits
    }

    /// What both of two give.
    pub fn and(self, other: Perm) -> Perm
        ensures { result ≡ bit_and self other }
    {
        Perm::of(self.bits & other.bits)
    }

    // What either of two gives.
    pub(crate) fn union(self, other: Perm) -> Perm
        ensures { result ≡ bit_or self other }
    {
        Perm {
            bits: self.bits | other.bits,
        }
    }
}

/// Reads the permissions that three characters spell: `r` or `-`, `w` or `-`, `x` or `-`. The answer is `None` exactly for another text.
pub fn read_perm(text: &[u8]) -> Option<Perm>
    ensures spelled { (p : ℕ) → ((result ≡ Some p) ↔ SpellsPerm text.now p) }
    ensures exact { result ≡ perm_in text.now }
{
    perm_in(text)
}

fn perm_in(text: &[u8]) -> Option<Perm>
    ensures { result ≡ perm_in text.now }
{
    if text.len() != 3 {
        return None;
    }
    perm_at(text, 0)
}

// The permissions that three bytes spell, from a place on.
pub(crate) fn perm_at(text: &[u8], at: usize) -> Option<Perm>
    requires { at + 2 < length text.now }
    ensures { result ≡ perm_at text.now at }
{
    Perm::read(text[at], text[at + 1], text[at + 2])
}

// The value of a letter, and 0 of `-`.
fn flag(byte: u8, letter: u8, value: u8) -> Option<u8>
    ensures flag { result ≡ flag_of letter value byte }
    ensures bound { IfSome result (λ bits. bits ≤ value) }
{
    if byte == letter {
        Some(value)
    } else if byte == b'-' {
        Some(0)
    } else {
        None
    }
}

// A letter where a bit is set, and else `-`.
fn letter(perm: Perm, bit: u8, character: u8) -> u8
    ensures { result ≡ letter character bit perm }
{
    if perm.bits & bit == 0 {
        b'-'
    } else {
        character
    }
}

/// The permissions of a file or a directory as four numbers: the sticky bit, and what the owner, the group and the others may
/// do.
#[derive(Clone, Copy, Debug, PartialEq, Eq)]
pub struct ModeBits {
    /// Whether children of the directory are guarded against other writers of it.
    pub sticky: bool,
    /// What the owner may do.
    pub owner: Perm,
    /// What the group may do: of a list with a mask the mask, else the owning group.
    pub group: Perm,
    /// What the others may do.
    pub other: Perm,
}

impl ModeBits {
    // The nine characters, and a `+` behind them.
    pub(crate) fn symbolic(&self) -> [u8; 10]
        ensures text { result ≡ symbolic_text self.now ++ 43 ∷ [] }
        ensures bits { AreBits self.now }
    {
        let [a, b, c] = self.owner.text();
        let [d, e, f] = self.group.text();
        let [g, h, _] = self.other.text();
        let last = last_letter(self.sticky, self.other);
        [a, b, c, d, e, f, g, h, last, b'+']
    }
}

// The last letter: `x` or `-`, and with the sticky bit `t` or `T`.
fn last_letter(sticky: bool, other: Perm) -> u8
    ensures { result ≡ last_letter sticky other }
{
    if !sticky {
        letter(other, 1, b'x')
    } else if other.bits & 1 == 0 {
        b'T'
    } else {
        b't'
    }
}
