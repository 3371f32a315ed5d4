ghost use Rattle.std.specs.Prelude.{◌≡◌, ◌<◌, ◌/◌, ◌%◌};
ghost use Rattle.head_text.specs.Hex.{hex16, hex_digit};

// `0` to `9`, then `A` to `F`.
fn hex_digit(n: u8) -> u8
    requires { n < 16 }
    ensures { result ≡ hex_digit n }
{
    if n < 10 { b'0' + n } else { b'A' + (n - 10) }
}

// The digit of `n` whose place has the weight `weight`.
fn digit(n: u64, weight: u64) -> u8
    requires { 0 < weight }
    ensures { result ≡ hex_digit (n / weight % 16) }
{
    hex_digit((n / weight % 16) as u8)
}

/// Writes a number as 16 upper-case hex digits.
#[tactic(auto, unfolding(crate::specs::Hex::hex16))]
pub fn write_hex16(n: u64, out: &mut [u8; 16])
    ensures { out.new ≡ hex16 n }
{
    *out = [
        digit(n, 0x1000_0000_0000_0000),
        digit(n, 0x0100_0000_0000_0000),
        digit(n, 0x0010_0000_0000_0000),
        digit(n, 0x0001_0000_0000_0000),
        digit(n, 0x1000_0000_0000),
        digit(n, 0x0100_0000_0000),
        digit(n, 0x0010_0000_0000),
        digit(n, 0x0001_0000_0000),
        digit(n, 0x1000_0000),
        digit(n, 0x0100_0000),
        digit(n, 0x0010_0000),
        digit(n, 0x0001_0000),
        digit(n, 0x1000),
        digit(n, 0x0100),
        digit(n, 0x0010),
        digit(n, 1),
    ];
}
