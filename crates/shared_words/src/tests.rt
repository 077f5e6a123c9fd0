//! What no clause says: a seat hears what another one published, and the halt that it called.

use super::*;
use mill_model::Draw;
use std::test::Fail;

#[test]
fn a_seat_looks_and_another_published(rt: HostRuntime) -> Result<(), Fail> {
    let (best, mut seat) = Best::new(rt.alloc(), 9, 2)?;
    let mut other = best.split(&mut seat);
    assert_eq!(rt; best.publish(&mut seat, 4), 9);
    assert_eq!(rt; best.look(&mut other), 4);
    best.join(&mut seat, other);
    assert_eq!(rt; best.close(seat), 4);
    Ok(())
}

#[test]
fn the_least_stays_when_more_is_published(rt: HostRuntime) -> Result<(), Fail> {
    let (best, mut seat) = Best::new(rt.alloc(), 9, 1)?;
    assert_eq!(rt; best.publish(&mut seat, 4), 9);
    assert_eq!(rt; best.look(&mut seat), 4);
    assert_eq!(rt; best.publish(&mut seat, 6), 4);
    assert_eq!(rt; best.close(seat), 4);
    Ok(())
}

#[test]
fn two_tickets_and_then_none(rt: HostRuntime) -> Result<(), Fail> {
    let (meter, mut seat) = Meter::new(rt.alloc(), 2, 1)?;
    let Draw::Ticket(0) = meter.draw(&mut seat) else {
        panic!(rt; "the first ticket");
    };
    let Draw::Ticket(1) = meter.draw(&mut seat) else {
        panic!(rt; "the second ticket");
    };
    let Draw::Spent(2) = meter.draw(&mut seat) else {
        panic!(rt; "the budget is spent");
    };
    assert_eq!(rt; meter.close(seat), 3);
    Ok(())
}

#[test]
fn a_seat_hears_that_another_halted(rt: HostRuntime) -> Result<(), Fail> {
    let (meter, mut seat) = Meter::new(rt.alloc(), 2, 2)?;
    let mut other = meter.split(&mut seat);
    assert!(rt; !meter.halted(&mut other));
    meter.halt(&mut seat);
    assert!(rt; meter.halted(&mut other));
    meter.join(&mut other, seat);
    assert_eq!(rt; meter.close(other), 0);
    Ok(())
}
