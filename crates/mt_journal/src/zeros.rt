//! Zeros to be written.

ghost use Rattle.std.specs.Prelude.{◌≡◌, replicate, IfOk};

use std::alloc::{AllocError, Global};

/// Returns as many zeros.
pub fn zeros(alloc: Global, count: usize) -> Result<Vec<u8>, AllocError>
    ensures { IfOk result (λ zeros. zeros.items ≡ replicate count 0) }
{
    let mut zeros = Vec::new(alloc);
    zeros.resize(count, 0)?;
    Ok(zeros)
}
