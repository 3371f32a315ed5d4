ghost use Rattle.std.specs.Prelude.{◌≡◌, ◌≤◌, length, true};
ghost use Rattle.std.specs.Char.{is_ascii_digit};
ghost use Rattle.std.specs.List.{list_all};
ghost use Rattle.std.specs.Str.Parse.{digits_value};
ghost use Rattle.head_text.specs.Decimal.{decimal_value, is_decimal};

/// The number that a text spells: `Some` exactly for 1 to 19 decimal digits, leading zeros allowed.
pub fn read_dec(text: &[u8]) -> Option<u64>
    ensures { result ≡ decimal_value text.now }
{
    if is_decimal(text) {
        Some(value_of(text))
    } else {
        None
    }
}

fn is_decimal(text: &[u8]) -> bool
    ensures { result ≡ is_decimal text.now }
{
    1 <= text.len() && text.len() <= 19 && are_digits(text)
}

fn are_digits(text: &[u8]) -> bool
    ensures { result ≡ list_all is_ascii_digit text.now }
{
    text.iter().all(|byte| byte.is_ascii_digit())
}

// The number that digits spell. Nineteen of them stay below 2^64.
fn value_of(text: &[u8]) -> u64
    requires few { length text.now ≤ 19 }
    requires digits { list_all is_ascii_digit text.now ≡ true }
    ensures { result ≡ digits_value 10 text.now }
{
    let mut value = 0u64;
    for byte in text {
        value = value * 10 + u64::from(*byte - b'0');
    }
    value
}
