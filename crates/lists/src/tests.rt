//! That the calls which no replay makes succeed, and at places past the end of a text.
use crate::{Cursor, Unread};

#[test]
fn reads_into_the_front(rt: HostRuntime) {
    let mut out = [7u8; 4];
    let mut line = Cursor::new(b" 0a0b - 010203040506\n");
    assert_eq!(rt; line.bytes_into(&mut out), Ok(2));
    assert_eq!(rt; out, [10, 11, 7, 7]);
    assert_eq!(rt; line.bytes_into(&mut out), Ok(0));
    assert_eq!(rt; line.bytes_into(&mut out), Err(Unread::Malformed));
    assert_eq!(rt; line.line_ends(), Ok(()));
    assert_eq!(rt; out, [10, 11, 7, 7]);
}

#[test]
fn ends_past_the_end(rt: HostRuntime) {
    let mut past = Cursor { text: b"12", at: 9 };
    assert_eq!(rt; past.line_ends(), Ok(()));
    assert!(rt; past.next_line().is_none());
    assert_eq!(rt; past.at, 2);
    assert_eq!(rt; past.integer(), Err(Unread::Malformed));
}
