//! The shape of tables.
ghost use Rattle.std.specs.Prelude.{◌*◌, ◌<◌, ◌≤◌};

/// How the tables of a mill are laid out: a row of `words` words for each number of colours on
/// both slabs and each two flags.
#[derive(Clone, Copy, Debug)]
pub struct Layout {
    pub largest: u32,
    pub p: u8,
    pub words: usize,
    ghost sizes: { largest ≤ 20000 },
    ghost few: { p ≤ 8 },
    ghost wide: { largest < 64 * words },
}
