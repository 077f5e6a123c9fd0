//! Where a split of some orders stands, and where one more order leads.
ghost use Rattle.std.specs.Prelude.{◌≡◌, ◌^◌, ◌+◌, ◌<◌, ◌≤◌};
ghost use Rattle.pair_split.specs.States.{row, with_first, with_second};

/// What of a split of some orders on two slabs matters to an order that comes in front of them.
#[derive(Clone, Copy, Debug, PartialEq, Eq)]
pub struct State {
    /// The load of the first slab.
    pub load: u32,
    /// How many colours the first slab has.
    pub first: u8,
    /// How many colours the second slab has.
    pub second: u8,
    /// Whether the first slab has the colour of the orders' first.
    pub on_first: bool,
    /// Whether the second slab has it.
    pub on_second: bool,
}

/// The row of a state in a table.
#[inline(always)]
pub fn row_of(state: State) -> usize
    ensures { result ≡ row state }
{
    let first = if state.on_first { 2 } else { 0 };
    let second = if state.on_second { 1 } else { 0 };
    state.first as usize * 36 + state.second as usize * 4 + first + second
}

/// The state with load 0 of a row.
pub fn state_at(r: usize) -> State
    requires { r < 324 }
    ensures is { row result ≡ r }
    ensures few { (result.first ≤ 8) × (result.second ≤ 8) }
    ensures empty { result.load ≡ 0 }
{
    State {
        load: 0,
        first: (r / 36) as u8,
        second: (r % 36 / 4) as u8,
        on_first: r % 4 >= 2,
        on_second: r % 2 == 1,
    }
}

/// The state with one more order on the first slab, which has the colour of the orders' first
/// where `same`.
#[inline(always)]
pub fn on_first(state: State, weight: u32, same: bool) -> State
    requires load { state.load + weight < 2 ^ 32 }
    requires few { state.first ≤ 8 }
    ensures { result ≡ with_first weight same state }
{
    let had = same && state.on_first;
    State {
        load: state.load + weight,
        first: if had { state.first } else { state.first + 1 },
        second: state.second,
        on_first: true,
        on_second: same && state.on_second,
    }
}

/// The state with one more order on the second slab.
#[inline(always)]
pub fn on_second(state: State, same: bool) -> State
    requires few { state.second ≤ 8 }
    ensures { result ≡ with_second same state }
{
    let had = same && state.on_second;
    State {
        load: state.load,
        first: state.first,
        second: if had { state.second } else { state.second + 1 },
        on_first: same && state.on_first,
        on_second: true,
    }
}
