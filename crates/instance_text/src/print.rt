//! The canonical text of an instance, printed.
ghost use Rattle.std.specs.Prelude.{◌≡◌, ◌∷◌, ◌++◌, flat_map, string_bytes, decimal, IfOk, OnOk};
ghost use Rattle.instance_text.specs.Text.{IsInstanceText, canonical_text, order_line};

use mill_model::{Instance, Order, OutOfMemory};
use std::alloc::Global;

// The most bytes of the counts with their line ends, of a size with a space, and of an order.
const COUNTS_LEN: usize = 15;

const SIZE_LEN: usize = 6;

const ORDER_LEN: usize = 13;

// Each size behind a space.
fn push_sizes(text: &mut String, sizes: &[u32]) -> Result<(), OutOfMemory>
    ensures { OnOk result (string_bytes text.new
        ≡ string_bytes text.old ++ flat_map (λ size. 32 ∷ decimal size) sizes.now) }
{
    for size in sizes {
        write!(text, " {size}")?;
    }
    Ok(())
}

// A line for each order.
fn push_orders(text: &mut String, orders: &[Order]) -> Result<(), OutOfMemory>
    ensures { OnOk result (string_bytes text.new
        ≡ string_bytes text.old ++ flat_map order_line orders.now) }
{
    for order in orders {
        write!(text, "{} {}\n", order.weight, order.colour)?;
    }
    Ok(())
}

/// The canonical text of an instance: the count of sizes and the sizes on a line, the stated number
/// of colours, the count of orders, then weight and colour of each order on a line.
pub fn print_instance(alloc: Global, instance: &Instance) -> Result<Vec<u8>, OutOfMemory>
    ensures text { IfOk result (λ text. text.items ≡ canonical_text instance.now) }
    ensures reads { IfOk result (λ text. IsInstanceText text.items instance.now) }
{
    let sizes = instance.sizes();
    let orders = instance.orders();
    let most = COUNTS_LEN + SIZE_LEN * sizes.len() + ORDER_LEN * orders.len();
    let mut text = String::with_capacity(alloc, most)?;
    write!(text, "{}", sizes.len())?;
    push_sizes(&mut text, sizes)?;
    write!(text, "\n{}\n{}\n", instance.colours(), orders.len())?;
    push_orders(&mut text, orders)?;
    Ok(text.into_bytes())
}
