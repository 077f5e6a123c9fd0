//! The instance that a text begins with, read, and the byte at which it ends.
ghost use Rattle.std.specs.Prelude.{◌≡◌, ℕ, ◌≤◌, length, IfErr, IfOk, Ok, Err};
ghost use Rattle.mill_model.specs.Instance.{Problem};
ghost use Rattle.instance_text.specs.declared.error.InstanceError.{InstanceError};
ghost use Rattle.instance_text.specs.Text.{Begins, IsRefused};
ghost use Rattle.instance_text.specs.Answer.{Answers, HasCause};
ghost use Rattle.instance_text.specs.Reading.{Spells};

use crate::reader::Reader;
use crate::{Field, InstanceError};
use mill_model::{Instance, Order};
use std::alloc::Global;

// The numbers of an instance, as a text gives them.
#[derive(Drop)]
struct Numbers {
    sizes: Vec<u32>,
    colours: u16,
    orders: Vec<Order>,
}

// The numbers in front of a text, and the place behind them.
fn numbers_in(alloc: Global, bytes: &[u8]) -> Result<(Numbers, usize), InstanceError>
    ensures found { IfOk result (λ read. Spells bytes.now read.0.sizes.items read.0.colours
        read.0.orders.items read.1) }
    ensures within { IfOk result (λ read. read.1 ≤ length bytes.now) }
    ensures refused { IfErr result (λ why. HasCause bytes.now why) }
{
    let mut reader = Reader::new(bytes);
    let size_count = reader.number(Field::SizeCount)?;
    let sizes = reader.sizes(alloc, size_count)?;
    let colours = reader.number(Field::ColourCount)? as u16;
    let order_count = reader.number(Field::OrderCount)?;
    let orders = reader.orders(alloc, order_count)?;
    let numbers = Numbers {
        sizes,
        colours,
        orders,
    };
    Ok((numbers, reader.at()))
}

/// Reads the instance that a text begins with, and says at which byte it ends: the place behind
/// its last token. The number of colours that a slab may carry, `p`, isn't in the text.
pub fn read_instance(alloc: Global, bytes: &[u8], p: u8) -> Result<(Instance, usize), InstanceError>
    requires low { 1 ≤ p }
    requires high { p ≤ 8 }
    ensures found { IfOk result (λ read. Begins bytes.now read.0 read.1) }
    ensures limit { IfOk result (λ read. read.0.p ≡ p) }
    ensures within { IfOk result (λ read. read.1 ≤ length bytes.now) }
    ensures refused { IfErr result (λ why. HasCause bytes.now why) }
    // An instance in front is read, and a wrong token is refused, unless memory runs out.
    ensures accepts { (problem : Problem) (end : ℕ) → Begins bytes.now problem end → problem.p ≡ p →
        Answers result (Ok (problem, end)) }
    ensures refuses { (why : InstanceError) → IsRefused bytes.now why → Answers result (Err why) }
{
    let (numbers, end) = numbers_in(alloc, bytes)?;
    let Numbers {
        sizes,
        colours,
        orders,
    } = numbers;
    Ok((Instance::new(sizes, colours, orders, p), end))
}
