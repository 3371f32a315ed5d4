//! The summary that `hns serve` ends with.
ghost use Rattle.std.specs.Prelude.{◌≡◌, ◌++◌, IfOk, OnOk};
ghost use Rattle.hns_commands.specs.Summary.{line_of, summary_text};

use itoa::Buffer;
use reply_marks::Tally;
use std::alloc::{AllocError, Global};

/// Five lines: how many entries the journal has, how many of its replies count as what, and how many bytes the bodies of its requests have.
/// The one error is want of memory.
pub(crate) fn summary_text(
    alloc: Global,
    entries: u64,
    tally: Tally,
    bytes: u64,
) -> Result<Vec<u8>, AllocError>
    ensures { IfOk result (λ text. text.items ≡ summary_text entries tally bytes) }
{
    let mut text = Vec::new(alloc);
    put_line(&mut text, "entries ", entries)?;
    put_line(&mut text, "ok ", tally.ok)?;
    put_line(&mut text, "refused ", tally.refused)?;
    put_line(&mut text, "denied ", tally.denied)?;
    put_line(&mut text, "bytes ", bytes)?;
    Ok(text)
}

fn put_line(text: &mut Vec<u8>, name: &str, number: u64) -> Result<(), AllocError>
    ensures { OnOk result (text.new.items ≡ text.old.items ++ line_of name.now number) }
{
    let mut digits = Buffer::new();
    text.extend_from_slice(name.as_bytes())?;
    text.extend_from_slice(digits.format(number).as_bytes())?;
    text.extend_from_slice(b"\n")
}
