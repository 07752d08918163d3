//! Numbers in decimal digits.
ghost use Rattle.std.specs.Prelude.{◌≡◌, ◌++◌, OnOk, decimal};

use std::alloc::AllocError;

// Writes a number in decimal digits. `write!` takes several times as long, and most of an LRAT proof is numbers.
pub(crate) fn write_decimal(bytes: &mut Vec<u8>, number: u32) -> Result<(), AllocError>
    ensures { OnOk result (bytes.new.items ≡ bytes.old.items ++ decimal number) }
{
    let last = b'0' + (number % 10) as u8;
    if number < 10 {
        bytes.push(last)?;
        return Ok(());
    }
    write_decimal(bytes, number / 10)?;
    bytes.push(last)?;
    Ok(())
}
