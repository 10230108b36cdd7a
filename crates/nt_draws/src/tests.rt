//! Events, worked out outside the program.

use crate::source::EventSource;
use nt_outside::read_front;
use std::test::Fail;

/// Numbers, how many events are behind them, and the text of these.
const TEXTS: [(u32, u32, &[u8]); 4] = [
    (1, 0, b""),
    (1, 1, b"[271,[394886,720637],\"t1\"]\n"),
    (
        2,
        2,
        b"[542,[],\"t5\"]\n[627,[711366,320675,433010],\"t2\"]\n",
    ),
    (
        1000063,
        2,
        b"[839,[408488,330582,115231],\"t2\"]\n[967,[],\"t9\"]\n",
    ),
];

#[test]
fn texts_of_events(rt: HostRuntime) -> Result<(), Fail> {
    for (number, events, text) in TEXTS {
        let mut source = EventSource::new(number, events);
        let bytes = read_front(rt.alloc(), &mut source, 1000)?;
        assert_eq!(rt; bytes.as_slice(), text);
    }
    Ok(())
}
