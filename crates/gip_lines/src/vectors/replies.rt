//! The vectors of bits that lines write, as text.
ghost use Rattle.std.specs.Prelude.{◌≡◌, ◌++◌, ◌∷◌, [], length, IfOk, IfErr, OnOk};
ghost use Rattle.gip_lines.specs.Vectors.Replies.{bits_reply, bits_text};
ghost use Rattle.giputils_text.specs.Lines.{line_feed};

use crate::fault::GipFault;
use giputils_bits::bitvec::BitVec;
use std::alloc::Allocator;
use std::io::Write;

// The replies to some lines, a line each.
pub(crate) fn replies_to<A: Allocator + Copy>(
    alloc: A,
    lines: &[BitVec<A>],
) -> Result<Vec<u8, A>, GipFault>
    ensures ok { IfOk result (λ text. text.items ≡ bits_text lines.now) }
    ensures err { IfErr result (λ fault. fault ≡ GipFault.Memory) }
{
    let mut text = Vec::new(alloc);
    for line in lines {
        write_vector(&mut text, line)?;
    }
    Ok(text)
}

// Writes the texts of a vector and its length, in a line.
fn write_vector<A: Allocator>(text: &mut Vec<u8, A>, vector: &BitVec<A>) -> Result<(), GipFault>
    ensures ok { OnOk result (text.new.items ≡ text.old.items ++ (bits_reply vector.now ++ line_feed ∷ [])) }
    ensures err { IfErr result (λ fault. fault ≡ GipFault.Memory) }
{
    let len = vector.len();
    writeln!(text, "{vector} {} {len}", vector.lower_hex()).map_err(|_| GipFault::Memory)
}
