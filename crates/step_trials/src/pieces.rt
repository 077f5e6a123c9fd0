//! A piece, with memory enough: records stand in the order in which they were put.

use crate::closings::{Wanted, are_records};
use mill_model::{Closing, Entry, Path, Prices};
use refute_log::Piece;
use std::test::Fail;

#[test]
fn records_stand_in_the_order_of_closing(rt: HostRuntime) -> Result<(), Fail> {
    let alloc = rt.alloc();
    let mut piece = Piece::new(alloc, 2);
    assert!(rt; piece.entries().is_empty());
    let root = Path::root(alloc);
    let first = root.child(0)?;
    piece.reserve()?;
    piece.put(Entry {
        path: root,
        closing: Closing::Split,
    });
    piece.reserve()?;
    piece.put(Entry {
        path: first,
        closing: Closing::Priced(Prices::from_list(vec![in alloc; -7]?)),
    });
    let wanted: [(&[u16], Wanted); 2] = [(&[], Wanted::Split), (&[0], Wanted::Priced(&[-7]))];
    assert!(rt; are_records(piece.entries(), &wanted));
    Ok(())
}
