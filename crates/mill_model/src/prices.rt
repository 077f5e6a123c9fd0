ghost use Rattle.std.specs.Prelude.{◌≡◌, All};
ghost use Rattle.mill_model.specs.Limits.{IsPrice};

use std::marker::Model;

/// The greatest price, in sixtieths of a loss unit; the least is as far below 0.
pub const MAX_PRICE: u64 = 20_000_000_000;

/// Prices of the orders from a rank on, in sixtieths of a loss unit.
#[derive(Debug, Drop)]
pub struct Prices {
    list: Vec<i64>,
}

impl Model for Prices {
    ghost use Rattle.std.specs.Prelude.{List, ℤ, All};
    ghost use Rattle.mill_model.specs.Limits.{IsPrice};

    ghost Value = { List ℤ };

    ghost view = { λ p. p.list.items };

    ghost invariant = { λ p. All IsPrice p.list.items };
}

impl Prices {
    /// These prices.
    pub fn from_list(list: Vec<i64>) -> Prices
        requires { All IsPrice list.items }
        ensures { result ≡ list.items }
    {
        Prices { list }
    }

    /// The prices, in rank.
    pub fn list(&self) -> &[i64]
        ensures is { result.now ≡ self.now }
        ensures kept { All IsPrice self.now }
    {
        &self.list
    }
}
