ghost use Rattle.std.specs.Prelude.{◌≡◌, IfOk};
ghost use Rattle.steal_deques.specs.Deque.{Balances};

use crate::own::Own;
use mill_model::{OutOfMemory, Path};
use std::alloc::Global;

/// What a deque still held.
#[derive(Debug, Drop)]
pub struct Gathered {
    pub left: Vec<Path>,
}

/// Ends a deque whose thieves were all taken back.
pub fn gather(alloc: Global, mut own: Own) -> Result<Gathered, OutOfMemory>
    requires { own.shares ≡ own.all }
    ensures { IfOk result (λ gathered. Balances own.pushed own.popped own.stolen
        gathered.left.items) }
{
    let mut left = Vec::new(alloc);
    while let Some(path) = own.pop() {
        left.push(path)?;
    }
    Ok(Gathered { left })
}
