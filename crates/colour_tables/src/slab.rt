// A slab as the tables of the colours know it.

/// The colours of a slab, by those of them that are to come, each by its number.
#[derive(Clone, Copy, Debug, Drop)]
pub(crate) enum Own {
    /// One colour, which is not to come.
    Bare,
    /// One colour, which is to come.
    Free(usize),
    /// Two colours, one of them to come.
    One(usize),
    /// Two colours, both to come.
    Two(usize, usize),
    /// Two colours, none of them to come.
    Full,
}

/// A slab with some orders on it, as the tables of the orders to come know it.
#[derive(Clone, Copy, Debug, Drop)]
pub(crate) struct Slab {
    pub(crate) load: usize,
    pub(crate) own: Own,
}
