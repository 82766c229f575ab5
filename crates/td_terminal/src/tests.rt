//! Lines that take each other's place.

use crate::InPlace;
use std::test::*;
use td_text::{MemorySink, Sink};

/// What a sink holds after these texts.
fn written(rt: &HostRuntime, is_in_place: bool, texts: &[&[u8]]) -> Result<Vec<u8>, Fail> {
    let mut sink = InPlace::new(MemorySink::new(rt.alloc(), 1000, 1000)?, is_in_place);
    for text in texts {
        let _written = sink.write_all(text);
    }
    Ok(Vec::from_slice(rt.alloc(), sink.sink().bytes())?)
}

/// Two lines of progress are one at a terminal, and a row takes their place; other lines stay.
#[test]
fn progress_in_place(rt: HostRuntime) -> Result<(), Fail> {
    let texts: [&[u8]; 4] = [b"nodes 1\n", b"nodes 2\n", b"tdelay: no\n", b"nodes 3\n"];
    let shown = written(&rt, true, &texts)?;
    assert_eq!(rt;
        shown.as_slice(),
        b"nodes 1\n\x1b[A\x1b[2Knodes 2\ntdelay: no\nnodes 3\n".as_slice()
    );
    let rows: [&[u8]; 4] = [b"rows 0\n", b"rows 1\n", b"each y\n", b"rows 2\n"];
    let shown = written(&rt, true, &rows)?;
    assert_eq!(rt;
        shown.as_slice(),
        b"rows 0\n\x1b[A\x1b[2Krows 1\n\x1b[A\x1b[2Keach y\nrows 2\n".as_slice()
    );
    let plain = written(&rt, false, &texts)?;
    assert_eq!(rt;
        plain.as_slice(),
        b"nodes 1\nnodes 2\ntdelay: no\nnodes 3\n".as_slice()
    );
    Ok(())
}
