ghost use Rattle.std.specs.Prelude.{◌≡◌, ◌+◌, ◌≤◌, length};
ghost use Rattle.reply_text.specs.Slots.{Fits, filled, with_digits};

use head_text::write_hex16;

/// Where the number of a reply stands in its bytes: the first bytes of sixteen digits each.
#[derive(Clone, Copy, Debug, PartialEq, Eq)]
pub struct Slots {
    /// The place in the line of the request id.
    pub id: usize,
    /// The place in the ETag, where the ETag is that of the very entry that is answered.
    pub etag: Option<usize>,
}

/// Writes the number of an entry at each of its places, as 16 upper-case hex digits. The places are those that `spell` answered for
/// these bytes.
#[tactic(auto, unfolding(crate::specs::Slots::filled))]
pub fn fill(bytes: &mut [u8], slots: Slots, number: u64)
    requires { Fits slots bytes.old }
    ensures { bytes.new ≡ filled bytes.old slots number }
{
    put_digits(bytes, slots.id, number);
    if let Some(at) = slots.etag {
        put_digits(bytes, at, number);
    }
}

fn put_digits(bytes: &mut [u8], at: usize, number: u64)
    requires { at + 16 ≤ length bytes.old }
    ensures { bytes.new ≡ with_digits number at bytes.old }
{
    let mut digits = [0u8; 16];
    write_hex16(number, &mut digits);
    bytes[at..at + 16].copy_from_slice(&digits);
}
