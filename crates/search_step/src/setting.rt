use mill_model::Charges;
use order_symmetry::Ranked;

// What a worker goes by: the ranked orders, what each load is charged, and its number among so many
// workers.
#[derive(Clone, Copy, Debug, Drop)]
pub(crate) struct Setting<'a> {
    pub(crate) ranked: &'a Ranked,
    pub(crate) charges: &'a Charges,
    pub(crate) number: u16,
    pub(crate) workers: u16,
}
