//! The lines of `gip bits`.
ghost use Rattle.gip_lines.specs.Vectors.Lines.{bits_of_line};

use crate::texts::Said;
use giputils_bits::bitvec::BitVec;
use std::alloc::{AllocError, Allocator};

// A line says the vector whose binary text it is.
impl<A: Allocator> Said<A> for BitVec<A> {
    ghost form = { bits_of_line };

    fn read(alloc: A, line: &[u8]) -> Result<Option<Self>, AllocError> {
        match BitVec::from_binary_text(alloc, line) {
            Ok(said) => Ok(said),
            Err(_) => Err(AllocError),
        }
    }
}
