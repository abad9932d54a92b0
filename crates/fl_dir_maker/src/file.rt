//! Where a node is kept.
ghost use Rattle.std.specs.Prelude.{◌≡◌, ◌<◌, ◌^◌, ℕ, IfOk, string_bytes};
ghost use Rattle.fl_dir_maker.specs.NodeFile.{node_file};

use fl_labels::name::NodeNumber;
use std::alloc::{AllocError, Global};

// The path of a node's file.
fn written(alloc: Global, dir: &str, number: NodeNumber) -> Result<String, AllocError>
    ensures { IfOk result (λ path. string_bytes path ≡ node_file dir.now number) }
{
    format!(in alloc; "{dir}/node-{number}.db")
}

/// The path of the file in which a node is kept, and no other node.
pub fn file_of(alloc: Global, dir: &str, number: NodeNumber) -> Result<String, AllocError>
    ensures file { IfOk result (λ path. string_bytes path ≡ node_file dir.now number) }
    ensures own { IfOk result (λ path. (other : ℕ) → other < 2 ^ 32
        → string_bytes path ≡ node_file dir.now other → other ≡ number) }
{
    let path = written(alloc, dir, number)?;
    Ok(path)
}
