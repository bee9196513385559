//! Why the reading of requests failed.
use std::cell::RefCell;
use std::io::{self, Read};

/// How many bytes are read at once. While they are taken out of a pipe nobody fills it, so the next ones come in between two reads.
const MOST_AT_ONCE: usize = 1 << 18;

/// Requests, beside which stands why their reading failed last.
#[derive(Drop)]
pub struct Hearing<'a, R> {
    pub reader: R,
    pub error: &'a RefCell<Option<io::Error>>,
}

impl<'a, R: Read> Read for Hearing<'a, R> {
    ghost remaining = { λ hearing. R.remaining hearing.reader };

    fn read(&mut self, buf: &mut [u8]) -> io::Result<usize> {
        let count = buf.len().min(MOST_AT_ONCE);
        let end = self.reader.read(&mut buf[..count]);
        if let Err(error) = &end {
            if let Ok(mut last) = self.error.try_borrow_mut() {
                *last = Some(*error);
            }
        }
        end
    }
}
