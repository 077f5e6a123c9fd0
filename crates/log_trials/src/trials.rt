//! Whether logs of one or two records refute a loss that no plan has.

ghost use Rattle.std.specs.Prelude.{◌<◌, All, IfOk};
ghost use Rattle.mill_model.specs.Instance.{IsOrder};

use log_checker::{LogVerdict, check_log};
use loss_table::loss_charges;
use mill_model::{Instance, MAX_ORDERS, Order, OutOfMemory};
use refute_log::parse_log;
use std::alloc::Global;
use std::test::Fail;

/// Orders of weight 1 on slabs of one size, and how many colours a slab may carry.
#[derive(Clone, Copy)]
struct Case {
    orders: usize,
    /// Whether each order has a colour of its own; else all have colour 1.
    colourful: bool,
    size: u32,
    p: u8,
}

/// As many orders as there may be.
const MOST: Case = Case {
    orders: 1024,
    colourful: false,
    size: 4,
    p: 2,
};

/// A set of `t` orders is charged 60 * (12 - t).
const COLOURFUL: Case = Case {
    orders: 12,
    colourful: true,
    size: 12,
    p: 8,
};

fn order_at(place: usize, colourful: bool) -> Order
    requires { place < 4096 }
    ensures { IsOrder result }
{
    let colour = if colourful { place as u16 + 1 } else { 1 };
    Order { weight: 1, colour }
}

fn orders_of(alloc: Global, case: Case) -> Result<Vec<Order>, OutOfMemory>
    ensures { IfOk result (λ orders. All IsOrder orders.items) }
{
    let mut orders = Vec::new(alloc);
    for place in 0..case.orders.min(4096) {
        orders.push(order_at(place, case.colourful))?;
    }
    Ok(orders)
}

/// The text of a log whose last record has a price that is repeated so many times.
fn log_text(alloc: Global, front: &str, price: &str, times: usize) -> Result<String, OutOfMemory> {
    let mut text = String::from_str(alloc, front)?;
    for _i in 0..times {
        text.push(' ')?;
        text.push_str(price)?;
    }
    text.push_str("\nend\n")?;
    Ok(text)
}

/// Whether a log refutes a loss, or is unsound; nothing where it is something else.
fn refutes(alloc: Global, case: Case, text: &str, loss: u64) -> Result<Option<bool>, OutOfMemory> {
    let orders = orders_of(alloc, case)?;
    if case.size < 1 || 20_000 < case.size || MAX_ORDERS < orders.len() {
        return Ok(None);
    }
    let instance = Instance::new(vec![in alloc; case.size]?, 0, orders, case.p.clamp(1, 8));
    let Ok(log) = parse_log(alloc, instance.orders().len() as u16, text.as_bytes()) else {
        return Ok(None);
    };
    if log.orders() as usize != instance.orders().len() {
        return Ok(None);
    }
    let charges = loss_charges(alloc, &instance)?;
    Ok(match check_log(alloc, &instance, &charges, loss, &log)? {
        LogVerdict::Refutes => Some(true),
        LogVerdict::Unsound { .. } => Some(false),
        _ => None,
    })
}

/// A record of prices at the empty path, all alike.
const AT_ROOT: &str = "log 1 1\nP 0";

/// The same behind the order of the first rank.
const BEHIND_ONE: &str = "log 1 2\nS 0\nP 1 1";

/// What is judged, the front of the log, the price, how often, the loss, and whether it is refuted.
const ROWS: [(Case, &str, &str, usize, u64, bool); 12] = [
    (MOST, AT_ROOT, "20000000000", 1024, 1, false),
    (MOST, AT_ROOT, "-20000000000", 1024, 1, false),
    (MOST, AT_ROOT, "-20000000000", 1024, u64::MAX, false),
    (MOST, AT_ROOT, "0", 1024, 1, false),
    (MOST, AT_ROOT, "0", 1024, 0, true),
    // Worth 360.
    (COLOURFUL, AT_ROOT, "30", 12, 6, true),
    (COLOURFUL, AT_ROOT, "30", 12, 7, false),
    // Eight at 31 are 248, and charged 240.
    (COLOURFUL, AT_ROOT, "31", 12, 1, false),
    (COLOURFUL, AT_ROOT, "42", 12, 1, false),
    // The first group has a colour, so at most seven join: 240 - 210 is 30, and the others are 330.
    (COLOURFUL, BEHIND_ONE, "30", 11, 6, true),
    (COLOURFUL, BEHIND_ONE, "30", 11, 7, false),
    // No orders: the plan of none loses 0.
    (
        Case {
            orders: 0,
            ..COLOURFUL
        },
        "log 1 1\nL 0",
        "",
        0,
        1,
        false,
    ),
];

#[test]
fn losses_of_no_plan(rt: HostRuntime) -> Result<(), Fail> {
    let alloc = rt.alloc();
    for (case, front, price, times, loss, refuted) in ROWS {
        let text = log_text(alloc, front, price, times)?;
        let found = refutes(alloc, case, &text, loss)?;
        assert_eq!(rt; found, Some(refuted), "{price} at {loss}");
    }
    Ok(())
}

// Seven at 42 are 294, and charged 300; at 43 they are 301.
#[test]
fn seven_colours(rt: HostRuntime) -> Result<(), Fail> {
    let alloc = rt.alloc();
    let case = Case { p: 7, ..COLOURFUL };
    let text = log_text(alloc, AT_ROOT, "42", 12)?;
    assert_eq!(rt; refutes(alloc, case, &text, 9)?, Some(true));
    let text = log_text(alloc, AT_ROOT, "43", 12)?;
    assert_eq!(rt; refutes(alloc, case, &text, 1)?, Some(false));
    Ok(())
}
