//! What sending a text answers, and what sinks take: in memory, and of real streams.
use crate::outside::{NEVER, sink};
use fx_base::{Put, Sent, Sink, StdSink, send};
use fx_lists::Text;
use std::alloc::{AllocError as Memory, Global};
use std::process::Abort;
use std::test::Fail;

/// Sends nine bytes, at most four in a put.
fn expect(
    rt: &impl Abort,
    alloc: Global,
    failing: u64,
    room: usize,
    want: Sent,
    bytes: &[u8],
) -> Result<(), Memory> {
    let text = Text::from_bytes(alloc, b"123456789")?;
    let mut to = sink(alloc, 4, room, failing)?;
    assert_eq!(rt;
        send(&mut to, &text),
        want,
        "put {failing} fails, room {room}"
    );
    assert_eq!(rt; to.bytes(), bytes, "put {failing} fails, room {room}");
    Ok(())
}

#[test]
fn all_is_sent_in_pieces(rt: HostRuntime) -> Result<(), Fail> {
    expect(&rt, rt.alloc(), NEVER, 9, Sent::All, b"123456789")?;
    Ok(())
}

#[test]
fn sending_ends_at_a_put_that_fails(rt: HostRuntime) -> Result<(), Fail> {
    expect(&rt, rt.alloc(), 0, 9, Sent::Failed(0), b"")?;
    expect(&rt, rt.alloc(), 1, 9, Sent::Failed(4), b"1234")?;
    Ok(())
}

#[test]
fn sending_ends_where_no_room_is_left(rt: HostRuntime) -> Result<(), Fail> {
    expect(&rt, rt.alloc(), NEVER, 8, Sent::Failed(8), b"12345678")?;
    Ok(())
}

#[test]
fn real_streams_take_bytes(rt: HostRuntime) {
    let mut out = StdSink::new(rt.stdout());
    assert_eq!(rt; out.put(b"out\n"), Put::Took(4));
    let mut err = StdSink::new(rt.stderr());
    assert_eq!(rt; err.put(b""), Put::Took(0));
}
