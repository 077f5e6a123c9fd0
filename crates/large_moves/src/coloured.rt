use mill_model::Order;

/// An order with its place in the file.
#[derive(Clone, Copy, Debug)]
pub struct Coloured {
    pub order: Order,
    pub home: u16,
}
