//! The board as the engine's input and output.
ghost use Rattle.std.specs.Prelude.{◌≡◌, ◌≤◌, [], IfOk, length};

use crate::board::{Asked, Board};
use shared_frames::{Exchange, PLACES};
use std::alloc::Global;
use std::cell::RefCell;
use std::io::{self, ErrorKind, Read, Write};
use std::sync::Wait;

/// The frames of all processes, one behind the other. It ends where none will come any more.
#[derive(Drop)]
pub struct Requests<'a, R: Wait> {
    pub rt: &'a R,
    pub alloc: Global,
    pub board: &'a Board,
    pub exchange: &'a RefCell<Exchange>,
}

/// Takes the answers, and hands each to the process that asked.
#[derive(Drop)]
pub struct Answers<'a, R: Wait> {
    pub rt: &'a R,
    pub alloc: Global,
    pub board: &'a Board,
    pub exchange: &'a RefCell<Exchange>,
}

impl<'a, R: Wait> Requests<'a, R> {
    // Waits for the next frame. Whether there is one.
    fn offer_next(&self, exchange: &mut Exchange) -> io::Result<bool>
        requires handed { exchange.old.left ≡ [] }
    {
        let Some(asked) = self.board.next(self.rt) else {
            return Ok(false);
        };
        let Asked {
            place,
            head,
            payload,
        } = asked;
        if place >= PLACES {
            return Ok(false);
        }
        match exchange.offer(self.alloc, place, &head, payload) {
            Ok(()) => Ok(true),
            Err(_) => Err(io::Error::from(ErrorKind::OutOfMemory)),
        }
    }

    // Hands over what is left of a frame, or else of the next one.
    fn hand_next(&self, exchange: &mut Exchange, buf: &mut [u8]) -> io::Result<usize>
        ensures { IfOk result (λ count. count ≤ length buf.old) }
    {
        let count = exchange.hand(buf);
        if count > 0 || buf.is_empty() {
            return Ok(count);
        }
        if !self.offer_next(exchange)? {
            return Ok(0);
        }
        Ok(exchange.hand(buf))
    }
}

impl<'a, R: Wait> Read for Requests<'a, R> {
    fn read(&mut self, buf: &mut [u8]) -> io::Result<usize> {
        let Ok(mut exchange) = self.exchange.try_borrow_mut() else {
            return Err(io::Error::from(ErrorKind::Other));
        };
        self.hand_next(&mut *exchange, buf)
    }
}

impl<'a, R: Wait> Write for Answers<'a, R> {
    fn write(&mut self, buf: &[u8]) -> io::Result<usize> {
        let Ok(mut exchange) = self.exchange.try_borrow_mut() else {
            return Err(io::Error::from(ErrorKind::Other));
        };
        let Ok(count) = exchange.take(buf) else {
            return Err(io::Error::from(ErrorKind::OutOfMemory));
        };
        if let Some(told) = exchange.told(self.alloc) {
            self.board.answer(self.rt, told.place, told.bytes);
        }
        Ok(count)
    }

    fn flush(&mut self) -> io::Result<()> {
        Ok(())
    }
}
