//! What no clause says of a log's text.

use crate::{LogTextError, compare, parse_log, print_log, read_log};
use line_text::Lines;
use std::cmp::Ordering;
use std::test::Fail;

fn bad(line: u64) -> LogTextError {
    LogTextError::BadLine { line }
}

fn falls(line: u64) -> LogTextError {
    LogTextError::NotRising { line }
}

fn differs(stated: u64, found: u64) -> LogTextError {
    LogTextError::CountDiffers { stated, found }
}

#[test]
fn prints_what_it_reads(rt: HostRuntime) -> Result<(), Fail> {
    let alloc = rt.alloc();
    let rows: [(u16, &[u8]); 3] = [
        (0, b"log 1 0\nend\n"),
        (
            3,
            b"log 1 7\nS 0\nS 1 1\nP 2 1 1 180\nS 2 1 2\nL 3 1 2 1\nL 3 1 2 2\nL 3 1 2 3\nend\n",
        ),
        (4, b"log 1 3\nP 1 1 0 -1 7\nD 2 1 4 4 1\nL 4 4 3 2 1\nend\n"),
    ];
    for (orders, text) in rows {
        let Ok(log) = parse_log(alloc, orders, text) else {
            panic!(rt; "a log of {orders} orders");
        };
        assert_eq!(rt; log.orders(), orders);
        let printed = print_log(alloc, &log);
        assert!(rt; printed.is_ok_and(|bytes| bytes.as_slice() == text));
    }
    Ok(())
}

#[test]
fn refuses_lines(rt: HostRuntime) {
    let rows: [(&[u8], LogTextError); 5] = [
        (b"", bad(1)),
        (b"log 1 1\nP 2 1 1 20000000001\nend\n", bad(2)),
        (b"log 1 2\nS 1 2\nS 1 1\nend\n", falls(3)),
        (b"log 1 0\nend\n\n\n x\n", bad(5)),
        (b"log 1 2\nS 0\nend\n", differs(2, 1)),
    ];
    for (text, want) in rows {
        match parse_log(rt.alloc(), 3, text) {
            Ok(_) => panic!(rt; "want {want}"),
            Err(e) => assert_eq!(rt; e, want),
        }
    }
    let inside = read_log(rt.alloc(), 3, Lines::new(b"log 1 1\nS 0\nx\n"), 4);
    assert!(rt; inside.is_err_and(|e| e == bad(6)));
}

#[test]
fn compares_paths(rt: HostRuntime) {
    assert_eq!(rt; compare(&[], &[]), Ordering::Equal);
    assert_eq!(rt; compare(&[0, 1], &[0, 1, 0]), Ordering::Less);
    assert_eq!(rt; compare(&[0, 2], &[0, 1, 5]), Ordering::Greater);
}
