ghost use Rattle.std.specs.Prelude.{◌≡◌, ◌↔◌, ℕ, Some};
ghost use Rattle.lease_state.specs.LeaseId.{SpellsLeaseId, lease_id_of, lease_id_text};

use uuid::Uuid;

/// Reads a lease id: 36 characters, hex digits in either case in groups of 8, 4, 4, 4 and 12 with `-` between, as the
/// texts of RFC 9562. `None` comes exactly for every other text.
pub fn read_lease_id(text: &[u8]) -> Option<u128>
    ensures value { result ≡ lease_id_of text.now }
    ensures spelled { (id : ℕ) → ((result ≡ Some id) ↔ SpellsLeaseId text.now id) }
{
    hyphenated_id(text)
}

// The id of a text in the one form, of the forms of a UUID, that has 36 characters.
fn hyphenated_id(text: &[u8]) -> Option<u128>
    ensures { result ≡ lease_id_of text.now }
{
    if text.len() != 36 {
        return None;
    }
    match Uuid::try_parse_ascii(text) {
        Ok(id) => Some(id.as_u128()),
        Err(_) => None,
    }
}

/// Writes a lease id in its printed form, with digits in lower case. What is written is read back.
pub fn write_lease_id(id: u128, out: &mut [u8; 36])
    ensures text { out.new ≡ lease_id_text id }
    ensures read_back { lease_id_of out.new ≡ Some id }
{
    let mut buffer = [0; 36];
    let text = Uuid::from_u128(id).hyphenated().encode_lower(&mut buffer);
    out.copy_from_slice(text.as_bytes());
}
