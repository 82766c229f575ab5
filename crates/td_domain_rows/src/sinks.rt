//! Sinks in memory.

use std::test::*;
use td_text::{DeviceFault, MemorySink, Sink};

#[test]
fn takes_a_step_at_a_time(rt: HostRuntime) -> Result<(), Fail> {
    let mut sink = MemorySink::new(rt.alloc(), 5, 2)?;
    assert_eq!(rt; sink.write(b"abc"), Ok(2));
    assert_eq!(rt; sink.write_all(b"cd"), Ok(()));
    assert_eq!(rt; sink.write_all(b"ef"), Err(DeviceFault));
    assert_eq!(rt; sink.bytes(), b"abcde".as_slice());
    assert_eq!(rt; sink.write(b""), Ok(0));
    Ok(())
}

/// A sink that fails has taken just the bytes up to its limit, however many it takes a write.
#[test]
fn fails_at_each_limit(rt: HostRuntime) -> Result<(), Fail> {
    let text = b"waveform";
    for step in 1..10 {
        for limit in 0..9 {
            let mut sink = MemorySink::new(rt.alloc(), limit, step)?;
            let written = sink.write_all(text);
            assert_eq!(rt; written.is_ok(), limit == 8);
            assert_eq!(rt; sink.bytes(), &text[..limit]);
        }
    }
    Ok(())
}
