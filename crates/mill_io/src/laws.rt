ghost use Rattle.std.specs.Prelude.{◌≡◌};
ghost use Rattle.mill_io.specs.declared.block.TheConstants.{BLOCK};

/// A block has so many bytes.
pub fn block_size()
    ensures { BLOCK ≡ 4096 }
{}
