//! Digits, numbers, lists and lines as they are read, and numbers as they are printed.

use crate::{
    Lines, Words, is_end, is_white, leading_digits, put_named, put_number, put_ordinals,
    put_signed_numbers,
};
use mill_io::{Block, VecSink};
use std::test::Fail;

#[test]
fn reads_digits_and_white_space(rt: HostRuntime) {
    let rows: [(&[u8], (usize, u64)); 6] = [
        (b"", (0, 0)),
        (b"x1", (0, 0)),
        (b"0042x7", (4, 42)),
        (b"18446744073709551614", (20, 18_446_744_073_709_551_614)),
        (b"18446744073709551616", (20, u64::MAX)),
        (b"184467440737095516150 1", (21, u64::MAX)),
    ];
    for (bytes, want) in rows {
        assert_eq!(rt; leading_digits(bytes), want);
    }
    let whites = [(b' ', true), (b'\r', true), (0x0b, false), (b'0', false)];
    for (byte, want) in whites {
        assert_eq!(rt; is_white(byte), want);
    }
}

#[test]
fn reads_numbers(rt: HostRuntime) {
    let rows: [(&[u8], Option<u64>); 13] = [
        (b"0", Some(0)),
        (b"7 8", Some(7)),
        (b"1000000000", Some(1_000_000_000)),
        (b"1000000001", None),
        (b"18446744073709551616", None),
        (b"100000000000000000000000000000000000000000", None),
        (b"00", None),
        (b"08", None),
        (b"", None),
        (b" 7", None),
        (b"7\r", None),
        (b"-7", None),
        (b"+7", None),
    ];
    for (line, want) in rows {
        assert_eq!(rt; Words::new(line).next_number(1_000_000_000), want);
    }
}

#[test]
fn reads_signed_numbers(rt: HostRuntime) {
    let rows: [(&[u8], Option<i64>); 9] = [
        (b"0", Some(0)),
        (b"-1 5", Some(-1)),
        (b"20000000000", Some(20_000_000_000)),
        (b"-20000000000", Some(-20_000_000_000)),
        (b"20000000001", None),
        (b"-20000000001", None),
        (b"-0", None),
        (b"-01", None),
        (b"--1", None),
    ];
    for (line, want) in rows {
        assert_eq!(rt; Words::new(line).next_signed(20_000_000_000), want);
    }
}

#[test]
fn reads_lists(rt: HostRuntime) -> Result<(), Fail> {
    let alloc = rt.alloc();
    let mut words = Words::new(b"plan 1 3 2 -5 0");
    assert!(rt; words.next_word() == Some(b"plan".as_slice()));
    assert!(rt; words.next_ordinals(alloc, 4, 3)?.is_none());
    assert!(rt; words.next_ordinals(alloc, 3, 2)?.is_none());
    let Some(things) = words.next_ordinals(alloc, 3, 3)? else {
        panic!(rt; "three numbers up to 3");
    };
    assert!(rt; things.as_slice() == [0u16, 2, 1].as_slice());
    let Some(numbers) = words.next_signed_numbers(alloc, 2, 5)? else {
        panic!(rt; "two numbers with a sign");
    };
    assert!(rt; numbers.as_slice() == [-5i64, 0].as_slice());
    assert!(rt; words.is_empty());
    assert!(rt; words.next_word().is_none());
    Ok(())
}

#[test]
fn cuts_lines(rt: HostRuntime) {
    let mut lines = Lines::new(b"a b\n\nc");
    assert!(rt; lines.next_line() == Some(b"a b".as_slice()));
    assert!(rt; lines.next_line() == Some(b"".as_slice()));
    assert!(rt; lines.next_line() == Some(b"c".as_slice()));
    assert!(rt; lines.next_line().is_none());

    let ends: [(&[u8], bool); 6] = [
        (b"end", true),
        (b"end \t\r", true),
        (b"end x", false),
        (b"ends", false),
        (b"en", false),
        (b" end", false),
    ];
    for (line, want) in ends {
        assert_eq!(rt; is_end(line), want);
    }

    let rests: [(&[u8], Option<u64>); 4] = [
        (b"", None),
        (b"\n \t\n\r\n", None),
        (b"x", Some(0)),
        (b"\n\n x", Some(2)),
    ];
    for (text, want) in rests {
        assert_eq!(rt; Lines::new(text).first_filled(), want);
    }
}

#[test]
fn prints(rt: HostRuntime) -> Result<(), Fail> {
    let alloc = rt.alloc();
    let mut text = VecSink::new(alloc);
    let mut block = Block::new();
    put_number(&mut text, &mut block, 1_000_000_000_000)?;
    put_ordinals(&mut text, &mut block, &[0, 1023])?;
    put_signed_numbers(&mut text, &mut block, &[0, -20_000_000_000, 7])?;
    put_named(&mut text, &mut block, b" of ", 10)?;
    block.finish(&mut text)?;
    let text = text.into_bytes();
    assert!(rt; text.as_slice() == b"1000000000000 1 1024 0 -20000000000 7 of 10".as_slice());
    Ok(())
}
