//! The tokens of an instance, read one after another: numbers, each within the range of its field.
ghost use Rattle.std.specs.Prelude.{◌≡◌, suc, ◌+◌, ◌-◌, ◌*◌, ◌^◌, ◌<◌, ◌≤◌, [], ◌∷◌, length};
ghost use Rattle.std.specs.Prelude.{take, replicate, min, IfOk, IfErr, Err};
ghost use Rattle.std.specs.List.{prefix_len};
ghost use Rattle.line_text.specs.Numbers.{is_digit, value};
ghost use Rattle.instance_text.specs.declared.field.Field.TheVariants.{Size, Weight, Colour};
ghost use Rattle.instance_text.specs.Fields.{greatest, judged, least, order_fields};
ghost use Rattle.instance_text.specs.Text.{numbers_of_orders};

use crate::blank::{first_not_blank, is_word_end};
use crate::{Field, InstanceError};
use line_text::leading_digits;
use mill_model::Order;
use std::alloc::Global;

/// A place between the tokens of a text.
#[derive(Drop)]
pub struct Reader<'a> {
    bytes: &'a [u8],
    at: usize,
    tokens: u32,
    ghost within: { at ≤ length bytes.now },
}

impl<'a> Reader<'a> {
    ghost use Rattle.instance_text.specs.Reading.{Fails, Starts, Took, ahead};

    /// Before the first token.
    pub fn new(bytes: &'a [u8]) -> Reader<'a>
        ensures { Starts bytes.now result }
    {
        Reader {
            bytes,
            at: 0,
            tokens: 0,
        }
    }

    /// The place behind the last token that was read.
    pub fn at(&self) -> usize
        ensures at { result ≡ self.now.at }
        ensures within { result ≤ length self.now.bytes.now }
    {
        self.at
    }

    /// The number of the next token.
    pub fn number(&mut self, what: Field) -> Result<u32, InstanceError>
        requires { self.old.tokens < 2 ^ 32 - 1 }
        ensures taken { IfOk result (λ n. Took (what ∷ []) (n ∷ []) self.old self.new) }
        ensures range { IfOk result (λ n. (least what ≤ n) × (n ≤ greatest what)) }
        ensures refused { IfErr result (λ why.
            judged what (suc self.old.tokens) (ahead self.old) ≡ Err why) }
    {
        let token = self.tokens + 1;
        let Some(start) = first_not_blank(self.bytes, self.at) else {
            return Err(InstanceError::Short { token });
        };
        let (count, number) = leading_digits(&self.bytes[start..]);
        let end = start + count;
        if !is_word_end(self.bytes, end) {
            return Err(InstanceError::BadByte { at: end });
        }
        if !what.admits(number) {
            return Err(InstanceError::OutOfRange { what, token });
        }
        self.at = end;
        self.tokens = token;
        Ok(number as u32)
    }

    /// So many sizes.
    pub fn sizes(&mut self, alloc: Global, count: u32) -> Result<Vec<u32>, InstanceError>
        requires { self.old.tokens + count < 2 ^ 32 }
        ensures taken { IfOk result (λ sizes.
            Took (replicate count Size) sizes.items self.old self.new) }
        ensures refused { IfErr result (λ why. Fails (replicate count Size) self.old why) }
    {
        let mut sizes = Vec::with_capacity(alloc, count as usize)?;
        for _ in 0..count {
            let size = self.number(Field::Size)?;
            sizes.push(size)?;
        }
        Ok(sizes)
    }

    /// An order.
    fn order(&mut self) -> Result<Order, InstanceError>
        requires { self.old.tokens + 2 < 2 ^ 32 }
        ensures taken { IfOk result (λ order.
            Took (Weight ∷ Colour ∷ []) (order.weight ∷ order.colour ∷ []) self.old self.new) }
        ensures refused { IfErr result (λ why. Fails (Weight ∷ Colour ∷ []) self.old why) }
    {
        let weight = self.number(Field::Weight)?;
        let colour = self.number(Field::Colour)? as u16;
        Ok(Order { weight, colour })
    }

    /// So many orders.
    pub fn orders(&mut self, alloc: Global, count: u32) -> Result<Vec<Order>, InstanceError>
        requires { self.old.tokens + 2 * count < 2 ^ 32 }
        ensures taken { IfOk result (λ orders.
            Took (order_fields count) (numbers_of_orders orders.items) self.old self.new) }
        ensures refused { IfErr result (λ why. Fails (order_fields count) self.old why) }
    {
        let mut orders = Vec::with_capacity(alloc, count as usize)?;
        for _ in 0..count {
            let order = self.order()?;
            orders.push(order)?;
        }
        Ok(orders)
    }
}
