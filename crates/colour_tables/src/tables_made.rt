// The tables of the orders to come, made anew.

ghost use Rattle.std.specs.Prelude.{◌≡◌, ◌≢◌, ℕ, ◌+◌, ◌*◌, ◌<◌, ◌≤◌, true, false, All, length};
ghost use Rattle.std.specs.Prelude.{IfOk, Some, None};
ghost use Rattle.std.specs.Prelude.{slice_index_or};
ghost use Rattle.list_laws.specs.Sets.{holds, below};
ghost use Rattle.mill_model.specs.Charges.{charge_of};
ghost use Rattle.mill_model.specs.Limits.{IsPrice};
ghost use Rattle.mill_model.specs.declared.order.TheConstants.{MAX_ORDERS};
ghost use Rattle.set_minima.specs.Joins.{AreOrders};
ghost use Rattle.colour_tables.specs.Entries.{AreSmallAll};
ghost use Rattle.colour_tables.specs.Leasts.{AreCharged};
ghost use Rattle.colour_tables.specs.Rowed.{IsSized};
ghost use Rattle.colour_tables.specs.Stretches.{AreOfOrders};
ghost use Rattle.colour_tables.specs.Threes.{once};

use crate::by_colour::{priced_items, sort_by_colour, stretch_colours, stretches};
use crate::colour_rows::Rows;
use crate::slabs::Runs;
use crate::tables::OrderTables;
use mill_model::{Charges, Order, OutOfMemory};
use std::alloc::Global;

/// The numbers from 0 on, below a count.
fn numbers(alloc: Global, count: usize) -> Result<Vec<usize>, OutOfMemory>
    ensures { IfOk result (λ numbers. numbers.items ≡ below count) }
{
    let mut numbers = Vec::with_capacity(alloc, count)?;
    for c in 0..count {
        numbers.push(c)?;
    }
    Ok(numbers)
}

/// Room for the rows of some colours, with nothing in them yet.
fn empty_rows(alloc: Global, count: usize, width: usize) -> Result<Rows, OutOfMemory>
    requires few { count ≤ MAX_ORDERS }
    requires wide { 0 < width }
    requires narrow { width ≤ 20001 }
    ensures sized { IfOk result (λ rows. IsSized rows) }
    ensures present { IfOk result (λ rows. rows.present.items ≡ below count) }
    ensures width { IfOk result (λ rows. rows.width ≡ width) }
{
    Ok(Rows {
        width,
        present: numbers(alloc, count)?,
        rows: vec![in alloc; 0; count * width]?,
        best: vec![in alloc; 0; width]?,
        second: vec![in alloc; 0; width]?,
        third: vec![in alloc; 0; width]?,
    })
}

/// 60 times the charge of each load.
fn paid_charges(alloc: Global, charges: &Charges, largest: u32) -> Result<Vec<i64>, OutOfMemory>
    requires narrow { largest ≤ 20000 }
    requires reach { length charges.now.list ≡ largest + 1 }
    ensures long { IfOk result (λ paid. length paid.items ≡ largest + 1) }
    ensures is { IfOk result
        (λ paid. AreCharged (charge_of charges.now) 0 (largest + 1) paid.items) }
    ensures small { IfOk result (λ paid. AreSmallAll paid.items) }
{
    let mut paid = Vec::with_capacity(alloc, largest as usize + 1)?;
    for load in 0..largest + 1 {
        paid.push(60 * charges.charge(load) as i64)?;
    }
    Ok(paid)
}

/// The orders' items by colour, and the colours of their runs.
fn runs_of(alloc: Global, rest: &[Order], prices: &[i64]) -> Result<(Runs, Vec<u16>), OutOfMemory>
    requires { length prices.now ≡ length rest.now }
    ensures { IfOk result (λ made. AreOfOrders rest.now prices.now made.0.items.items
        made.0.ends.items made.1.items) }
{
    let sorted = sort_by_colour(alloc, rest)?;
    let ends = stretches(alloc, &sorted)?;
    let colours = stretch_colours(alloc, &sorted, &ends)?;
    let items = priced_items(alloc, rest, prices, &sorted)?;
    Ok((Runs { items, ends }, colours))
}

impl<'a> OrderTables<'a> {
    /// The tables of some orders with a price for each, for the slabs of a mill with a largest size
    /// whose loads are charged as `charges` says.
    pub(crate) fn new(
        alloc: Global,
        rest: &[Order],
        prices: &[i64],
        charges: &'a Charges,
        largest: u32,
    ) -> Result<OrderTables<'a>, OutOfMemory>
        requires few { length rest.now ≤ MAX_ORDERS }
        requires orders { AreOrders rest.now }
        requires same { length prices.now ≡ length rest.now }
        requires prices { All IsPrice prices.now }
        requires narrow { largest ≤ 20000 }
        requires reach { length charges.now.list ≡ largest + 1 }
        ensures rest { IfOk result (λ tables. tables.rest ≡ rest.now) }
        ensures prices { IfOk result (λ tables. tables.prices ≡ prices.now) }
        ensures largest { IfOk result (λ tables. tables.largest ≡ largest) }
        ensures charges { IfOk result (λ tables. tables.charges ≡ charges.now) }
        ensures few { IfOk result (λ tables. length tables.colours ≤ MAX_ORDERS) }
    {
        let kept_orders = rest.to_vec(alloc)?;
        let kept_prices = prices.to_vec(alloc)?;
        let paid = paid_charges(alloc, charges, largest)?;
        let (runs, colours) = runs_of(alloc, rest, prices)?;
        let mut rows = empty_rows(alloc, runs.ends.len(), largest as usize + 1)?;
        rows.fill(&runs);
        Ok(OrderTables {
            rest: kept_orders,
            charges,
            largest: largest as usize,
            prices: kept_prices,
            colours,
            paid,
            runs,
            rows,
        })
    }
}
