//! Numbers in groups of 7 bits.
ghost use Rattle.std.specs.Prelude.{◌≡◌, ◌<◌, ◌^◌, ◌++◌, OnOk};
ghost use Rattle.giputils_text.specs.Groups.{groups};

use std::alloc::{AllocError, Allocator};

/// Writes a number below 2^34 in groups of 7 bits behind some bytes: the lowest group first, and 128 added to each but
/// the last.
///
/// # Errors
///
/// Where no memory is left. Then a part of the groups may stand behind the bytes.
pub fn write_groups<A: Allocator>(bytes: &mut Vec<u8, A>, mut number: u64) -> Result<(), AllocError>
    requires small { number < 2 ^ 34 }
    ensures written { OnOk result (bytes.new.items ≡ bytes.old.items ++ groups 4 number) }
{
    while number >= 128 {
        bytes.push(128 + (number % 128) as u8)?;
        number /= 128;
    }
    bytes.push(number as u8)?;
    Ok(())
}
