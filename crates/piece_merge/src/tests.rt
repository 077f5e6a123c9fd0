//! Pieces over the orders (3, 2) and (1, 1) with one colour a slab, where each path has one child;
//! and over (1, 1), (1, 2) and (2, 3) with two colours a slab, where two paths have several.
ghost use Rattle.std.specs.Prelude.{◌≡◌, ◌≤◌, ◌++◌, ◌∷◌, [], true, IfOk};
ghost use Rattle.refute_log.specs.Fits.{fits};
ghost use Rattle.piece_merge.specs.Merging.{records_of};
ghost use Rattle.piece_merge.specs.Rows.{later_first, all_in_the_last};
ghost use Rattle.piece_merge.specs.Rows.{last_sibling, other_siblings, last_sibling_first};

use super::*;
use mill_model::{Closing, Entry, OutOfMemory, Path};
use refute_log::{Piece, print_log};
use std::alloc::Global;
use std::test::Fail;

const TEXT: &[u8] = b"log 1 3\nS 0\nS 1 1\nL 2 1 2\nend\n";

const SIBLINGS: &[u8] =
    b"log 1 8\nS 0\nS 1 1\nS 2 1 1\nL 3 1 1 2\nS 2 1 2\nL 3 1 2 1\nL 3 1 2 2\nL 3 1 2 3\nend\n";

// A piece with one more record.
fn recorded(piece: Piece, path: Vec<u16>, closing: Closing) -> Result<Piece, OutOfMemory>
    requires { fits piece.orders (record { path = path.items; closing = closing }) ≡ true }
    ensures orders { IfOk result (λ new. new.orders ≡ piece.orders) }
    ensures entries { IfOk result (λ new. new.entries
        ≡ piece.entries ++ record { path = path.items; closing = closing } ∷ []) }
{
    let mut piece = piece;
    piece.reserve()?;
    piece.put(Entry {
        path: Path::from_list(path),
        closing,
    });
    Ok(piece)
}

// The first piece has the second path, and the second the others, the longer one first.
fn later_path_first(alloc: Global) -> Result<Vec<Piece>, OutOfMemory>
    ensures { IfOk result (λ pieces. records_of pieces.items ≡ later_first) }
{
    let first = recorded(Piece::new(alloc, 2), vec![in alloc; 0]?, Closing::Split)?;
    let second = recorded(Piece::new(alloc, 2), vec![in alloc; 0, 1]?, Closing::Leaf)?;
    let second = recorded(second, Vec::new(alloc), Closing::Split)?;
    Ok(vec![in alloc; first, second]?)
}

// The last piece has all records.
fn first_piece_empty(alloc: Global) -> Result<Vec<Piece>, OutOfMemory>
    ensures { IfOk result (λ pieces. records_of pieces.items ≡ all_in_the_last) }
{
    let last = recorded(Piece::new(alloc, 2), vec![in alloc; 0, 1]?, Closing::Leaf)?;
    let last = recorded(last, vec![in alloc; 0]?, Closing::Split)?;
    let last = recorded(last, Vec::new(alloc), Closing::Split)?;
    Ok(vec![in alloc; Piece::new(alloc, 2), last]?)
}

// A piece with the last of three siblings, and with the paths above it.
fn with_last_sibling(alloc: Global) -> Result<Piece, OutOfMemory>
    ensures { IfOk result (λ piece. piece.entries ≡ last_sibling) }
{
    let piece = recorded(
        Piece::new(alloc, 3),
        vec![in alloc; 0, 1, 2]?,
        Closing::Leaf,
    )?;
    let piece = recorded(piece, vec![in alloc; 0, 1]?, Closing::Split)?;
    recorded(piece, vec![in alloc; 0]?, Closing::Split)
}

// A piece with the other two, and with a sibling of their parent that comes before it.
fn with_other_siblings(alloc: Global) -> Result<Piece, OutOfMemory>
    ensures { IfOk result (λ piece. piece.entries ≡ other_siblings) }
{
    let piece = recorded(
        Piece::new(alloc, 3),
        vec![in alloc; 0, 1, 0]?,
        Closing::Leaf,
    )?;
    let piece = recorded(piece, vec![in alloc; 0, 1, 1]?, Closing::Leaf)?;
    let piece = recorded(piece, vec![in alloc; 0, 0, 1]?, Closing::Leaf)?;
    let piece = recorded(piece, vec![in alloc; 0, 0]?, Closing::Split)?;
    recorded(piece, Vec::new(alloc), Closing::Split)
}

// The pieces hold siblings in another order than that of their labels.
fn last_sibling_in_front(alloc: Global) -> Result<Vec<Piece>, OutOfMemory>
    ensures { IfOk result (λ pieces. records_of pieces.items ≡ last_sibling_first) }
{
    Ok(vec![in alloc; with_last_sibling(alloc)?, with_other_siblings(alloc)?]?)
}

#[test]
fn the_records_of_two_pieces_rise_in_the_log(rt: HostRuntime) -> Result<(), Fail> {
    let alloc = rt.alloc();
    let log = merge(alloc, 2, later_path_first(alloc)?)?;
    assert_eq!(rt; print_log(alloc, &log)?.as_slice(), TEXT);
    Ok(())
}

#[test]
fn a_piece_may_be_empty(rt: HostRuntime) -> Result<(), Fail> {
    let alloc = rt.alloc();
    let log = merge(alloc, 2, first_piece_empty(alloc)?)?;
    assert_eq!(rt; print_log(alloc, &log)?.as_slice(), TEXT);
    Ok(())
}

// Two paths have several children: 1, and 1 2.
#[test]
fn siblings_rise_in_the_log(rt: HostRuntime) -> Result<(), Fail> {
    let alloc = rt.alloc();
    let log = merge(alloc, 3, last_sibling_in_front(alloc)?)?;
    assert_eq!(rt; print_log(alloc, &log)?.as_slice(), SIBLINGS);
    Ok(())
}
