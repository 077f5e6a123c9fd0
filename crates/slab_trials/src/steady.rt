//! Calls over a source and a sink that never fail.

use mill_io::{SteadySink, SteadySource};
use slab_top::{needs_threads, run_plain};
use std::test::Fail;

// Each row: an instance, the status of `solve`, and how many bytes its text has. The texts are
// `optimal`, `loss 0`, `plan 1`, `end`; `infeasible`, `order 1`, `end`; and the line `refused
// instance short token 6`.
#[test]
fn what_never_fails_is_read_and_written(rt: HostRuntime) -> Result<(), Fail> {
    let alloc = rt.alloc();
    let mut words = Vec::new(alloc);
    words.push(String::from_str(alloc, "solve")?)?;
    for (instance, status, bytes) in [
        ("1 4 1 1 4 1", 0u8, 26u64),
        ("1 4 1 1 5 1", 1, 23),
        ("1 4 1 1 4", 3, 31),
    ] {
        let mut source = SteadySource::new(alloc, instance.as_bytes())?;
        let mut sink = SteadySink::new();
        let mut kept = None;
        let ended = if needs_threads(&words) {
            u8::MAX
        } else {
            run_plain(alloc, &words, &mut source, &mut sink, &mut kept)
        };
        assert_eq!(rt; ended, status, "{instance}");
        assert_eq!(rt; sink.count(), bytes, "{instance}");
        assert!(rt; kept.is_none(), "{instance}");
    }
    Ok(())
}
