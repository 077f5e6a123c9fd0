//! One line of an answer, read: a number behind its name, an order's place, or a plan.
ghost use Rattle.std.specs.Prelude.{◌≡◌, ◌≢◌, ◌<◌, ◌≤◌, ◌-◌, ◌^◌, ◌∷◌, [], List, ℕ, IfOk, IfSome};
ghost use Rattle.std.specs.Prelude.{IfNone};
ghost use Rattle.std.specs.Fmt.{decimal};
ghost use Rattle.line_text.specs.Words.{line_words};
ghost use Rattle.answer_text.specs.Line.{plan, order, words_of, IsWithin};

use line_text::Words;
use mill_model::{OutOfMemory, Plan};
use std::alloc::Global;

/// The number on a line that has this name and a number within the limit.
pub fn number_on(line: &[u8], name: &[u8], limit: u64) -> Option<u64>
    requires { limit < 2 ^ 64 - 1 }
    ensures some { IfSome result (λ number. line_words line.now ≡ name.now ∷ decimal number ∷ []) }
    ensures limit { IfSome result (λ number. number ≤ limit) }
    ensures none { IfNone result ((number : ℕ) → number ≤ limit
        → line_words line.now ≢ name.now ∷ decimal number ∷ []) }
{
    let mut words = Words::new(line);
    if words.next_word() != Some(name) {
        return None;
    }
    let Some(number) = words.next_number(limit) else {
        return None;
    };
    if words.is_empty() { Some(number) } else { None }
}

/// The order on a line that names one of this many orders.
pub fn order_on(line: &[u8], orders: u16) -> Option<u16>
    ensures some { IfSome result (λ place. line_words line.now ≡ words_of (order place)) }
    ensures limit { IfSome result (λ place. IsWithin orders (order place)) }
    ensures none { IfNone result ((place : ℕ) → IsWithin orders (order place)
        → line_words line.now ≢ words_of (order place)) }
{
    let mut words = Words::new(line);
    if words.next_word() != Some(b"order".as_slice()) {
        return None;
    }
    let Some(place) = words.next_ordinal(orders) else {
        return None;
    };
    if words.is_empty() { Some(place) } else { None }
}

/// The plan on a line that gives each of this many orders a slab.
pub fn plan_on(alloc: Global, line: &[u8], orders: u16) -> Result<Option<Plan>, OutOfMemory>
    ensures some { IfOk result (λ read. IfSome read (λ slabs.
        line_words line.now ≡ words_of (plan slabs))) }
    ensures limit { IfOk result (λ read. IfSome read (λ slabs. IsWithin orders (plan slabs))) }
    ensures none { IfOk result (λ read. IfNone read ((slabs : List ℕ)
        → IsWithin orders (plan slabs) → line_words line.now ≢ words_of (plan slabs))) }
{
    let mut words = Words::new(line);
    if words.next_word() != Some(b"plan".as_slice()) {
        return Ok(None);
    }
    let read = words.next_ordinals(alloc, orders as usize, orders)?;
    let Some(slabs) = read else {
        return Ok(None);
    };
    if words.is_empty() {
        Ok(Some(Plan::from_list(slabs)))
    } else {
        Ok(None)
    }
}
