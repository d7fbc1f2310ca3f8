//! A connection of the administrator, or of one who reads the counters over HTTP.

ghost use Rattle.std.specs.Prelude.{◌≡◌};
ghost use Rattle.event_loop.specs.declared.admin_lines.Request.{Request as AnyRequest};
ghost use Rattle.event_loop.specs.Requests.{Asks, IsHttp};

use crate::admin_lines::{MAX_ADMIN_LINE, Request, is_http, read_request};
use crate::closing::{Closing, close_turn};
use crate::scrape::{COUNTERS, MAX_SCRAPE, Scrape, read_scrape};
use adapt_bytes::{Small, put_decimal};
use std::alloc::{AllocError, Global};
use wire_kit::{Got, Put, Wire};

/// The largest number of connections at once to the administrator's port, and to that of the counters. `Room::of_system` leaves a
/// descriptor for each.
pub const MAX_ASKERS: usize = 16;

/// The most bytes of answers that wait for a connection: while more wait, no line of it is read.
const MAX_UNREAD: usize = 65_536;

/// What is spoken on a connection.
#[derive(Clone, Copy)]
pub enum Speech {
    /// Lines of the administrator.
    Lines,
    /// A request for the counters over HTTP, one on each connection.
    Http,
}

/// What the administrator's connection said.
#[derive(Clone, Copy, Debug)]
pub enum AdminInput {
    /// A line, or a request for the counters over HTTP.
    Asked(Request),
    /// A line that is too long: it is bad, and ends the connection.
    TooLong,
    /// A line of HTTP: it is bad, and ends the connection.
    Http,
    /// A request over HTTP that is refused: the refusal waits to be written.
    Refused,
    /// No whole line yet, and no whole request.
    Waiting,
    /// The connection has ended or failed.
    Over,
}

/// What a line says. No line is read after one of HTTP.
fn said(line: &[u8]) -> AdminInput
    ensures http { IsHttp line.now → result ≡ AdminInput.Http }
    ensures other { (IsHttp line.now → ⊥) → (request : AnyRequest) × (result ≡ AdminInput.Asked request) × Asks line.now request }
{
    if is_http(line) {
        AdminInput::Http
    } else {
        AdminInput::Asked(read_request(line))
    }
}

/// A connection of the administrator, which may carry many lines, or of one who reads the counters.
#[derive(Drop)]
pub struct Asker<W: Drop> {
    wire: W,
    speech: Speech,
    text: Vec<u8>,
    out: Vec<u8>,
    /// Whether nothing is said after what waits.
    has_ended: bool,
}

impl<W: Wire + Drop> Asker<W> {
    /// A connection of which nothing was read.
    pub fn new(alloc: Global, wire: W, speech: Speech) -> Asker<W> {
        Asker {
            wire,
            speech,
            text: Vec::new(alloc),
            out: Vec::new(alloc),
            has_ended: false,
        }
    }

    /// The connection, once all was said on it.
    pub fn said_all(&self) -> Option<&W> {
        if self.has_ended && self.out.is_empty() {
            Some(&self.wire)
        } else {
            None
        }
    }

    /// The line that is there, if one is whole; it is taken off.
    fn next_line(&mut self) -> Option<AdminInput> {
        let text = self.text.as_slice();
        match text.iter().position(|byte| *byte == b'\n') {
            Some(end) if end <= MAX_ADMIN_LINE => {
                let heard = said(&text[..end]);
                self.text.drain(..end + 1);
                Some(heard)
            }
            Some(_) => Some(AdminInput::TooLong),
            None if text.len() > MAX_ADMIN_LINE => Some(AdminInput::TooLong),
            None => None,
        }
    }

    /// Reads up to the next line or request, but no line while more than `MAX_UNREAD` bytes of answers wait. `Err` if no memory was found
    /// for it.
    pub fn hear(&mut self) -> Result<AdminInput, AllocError> {
        match self.speech {
            Speech::Lines => self.hear_line(),
            Speech::Http if self.has_ended => Ok(self.hear_end()),
            Speech::Http => self.hear_scrape(),
        }
    }

    /// Drops what still comes after all that is said, so that closing the connection takes no answer away.
    fn hear_end(&mut self) -> AdminInput {
        let mut piece = [0u8; MAX_ADMIN_LINE];
        match close_turn(&mut self.wire, &mut piece) {
            Closing::Waiting => AdminInput::Waiting,
            Closing::Over | Closing::CutShort => AdminInput::Over,
        }
    }

    /// Reads up to the end of a request's head. One that isn't for the counters is refused.
    fn hear_scrape(&mut self) -> Result<AdminInput, AllocError> {
        for _ in 0..MAX_SCRAPE {
            match read_scrape(self.text.as_slice()) {
                Scrape::Unfinished => {}
                Scrape::Counters => return Ok(AdminInput::Asked(Request::Stats)),
                refused => {
                    self.has_ended = true;
                    self.out.extend_from_slice(refused.refusal())?;
                    return Ok(AdminInput::Refused);
                }
            }
            let mut piece = [0u8; MAX_ADMIN_LINE];
            match self.wire.try_read(&mut piece) {
                Got::Bytes(count) => self.text.extend_from_slice(&piece[..count])?,
                Got::Wait => return Ok(AdminInput::Waiting),
                Got::Ended | Got::Fault => return Ok(AdminInput::Over),
            }
        }
        Ok(AdminInput::Over)
    }

    /// Reads up to the next line.
    fn hear_line(&mut self) -> Result<AdminInput, AllocError> {
        if self.out.len() > MAX_UNREAD {
            return Ok(AdminInput::Waiting);
        }
        for _ in 0..MAX_ADMIN_LINE + 2 {
            if let Some(heard) = self.next_line() {
                return Ok(heard);
            }
            let mut piece = [0u8; MAX_ADMIN_LINE];
            match self.wire.try_read(&mut piece) {
                Got::Bytes(count) => self.text.extend_from_slice(&piece[..count])?,
                Got::Wait => return Ok(AdminInput::Waiting),
                Got::Ended | Got::Fault => return Ok(AdminInput::Over),
            }
        }
        Ok(AdminInput::TooLong)
    }

    /// Says an answer, after those that wait. Over HTTP it is the only one. False if the connection has failed. `Err` if no memory was
    /// found.
    pub fn say(&mut self, answer: &[u8]) -> Result<bool, AllocError> {
        if self.speech == Speech::Http {
            self.has_ended = true;
            let mut length = Small::new();
            put_decimal(answer.len() as u64, &mut length);
            self.out.extend_from_slice(COUNTERS)?;
            self.out.extend_from_slice(length.as_slice())?;
            self.out.extend_from_slice(b"\r\n\r\n")?;
        }
        self.out.extend_from_slice(answer)?;
        Ok(self.flush())
    }

    /// Writes what waits. False if the connection has failed.
    pub fn flush(&mut self) -> bool {
        if self.out.is_empty() {
            return true;
        }
        match self.wire.try_write(self.out.as_slice()) {
            Put::Took(count) => {
                self.out.drain(..count);
                true
            }
            Put::Wait => true,
            Put::Fault => false,
        }
    }
}
