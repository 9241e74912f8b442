// The system's message for an error.
use std::io::{Cursor, Error, Stderr, Write};

// More than std writes of an error: the system's message has at most 256 bytes.
const REASON_BYTES: usize = 512;

// The message alone: std writes the number of the error after it, in brackets.
fn message(text: &[u8]) -> &[u8] {
    match text.iter().rposition(|b| *b == b'(') {
        Some(at) => util::part(text, 0, at.saturating_sub(1)),
        None => text,
    }
}

pub(super) fn say_reason(err: Stderr, error: Error) {
    let mut said = Cursor::new([0u8; REASON_BYTES]);
    let _ = write!(said, "{error}");
    let length = said.position() as usize;
    let text = said.into_inner();
    let _ = Print::write_all(&err, message(util::part(&text, 0, length)));
}
