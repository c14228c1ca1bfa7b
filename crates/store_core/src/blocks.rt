//! Lengths of blocks, as indexes.

use smore_base::{BLOCK_BYTES, CONTENT_BYTES};

/// Bytes of a block.
pub(crate) const BLOCK: usize = BLOCK_BYTES as usize;

/// The bytes of a fragment that a block has at most.
pub(crate) const CONTENT: usize = CONTENT_BYTES as usize;
