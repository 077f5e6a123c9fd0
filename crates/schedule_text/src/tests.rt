use crate::{ScheduleTextError, read_schedule};
use std::test::Fail;

#[test]
fn reads_the_numbers_of_workers(rt: HostRuntime) -> Result<(), Fail> {
    let rows: [(u16, &[u8], &[u16]); 6] = [
        (1, b"schedule", &[]),
        (3, b"schedule 1 0 2 2 1", &[1, 0, 2, 2, 1]),
        (2, b"schedule 1 1 1 1\n", &[1, 1, 1, 1]),
        (1, b" \t\r\nschedule\n000\t0\r\n", &[0, 0]),
        (64, b"schedule 63 0063", &[63, 63]),
        (65_535, b"schedule 65534", &[65_534]),
    ];
    for (workers, text, want) in rows {
        let schedule = read_schedule(rt.alloc(), workers, text)?;
        assert_eq!(rt; schedule.as_slice(), want);
    }
    Ok(())
}

#[test]
fn names_the_first_wrong_token(rt: HostRuntime) {
    let rows: [(u16, &[u8], u64); 10] = [
        (3, b"", 0),
        (3, b" \n", 0),
        (3, b"1 0", 0),
        (3, b"schedules 1", 0),
        (3, b"schedul 1", 0),
        (3, b"schedule 3", 1),
        (3, b"schedule 0 1 -1 x", 3),
        (3, b"schedule 2 2 1x 3", 3),
        (3, b"schedule 18446744073709551617", 1),
        (3, b"schedule 0\x0b", 1),
    ];
    for (workers, text, token) in rows {
        match read_schedule(rt.alloc(), workers, text) {
            Ok(_) => panic!(rt; "want token {token}"),
            Err(e) => assert_eq!(rt; e, ScheduleTextError::BadToken { token }),
        }
    }
}
