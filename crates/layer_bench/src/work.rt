//! What is done with a head.
use adapt_bytes::MAX_FIELDS;
use http_side::{
    BodyKind, Encapsulated, Forward, HttpRequest, Message, OriginUse, OriginWay, encapsulated_head,
    forward_head, read_request,
};
use httparse::Status;
use httparse::spans::{EMPTY_HEADER_SPAN, parse_request, parse_response};
use icap_head::read_response;
use std::alloc::Global;

/// What is done with a head.
#[derive(Clone, Copy)]
pub enum HeadWork {
    /// `httparse` alone parses a request's.
    ParseRequest,
    /// A request's is read, and these heads are written of it.
    ReadRequest(Written),
    /// `httparse` alone parses a response's.
    ParseResponse,
    /// A service's response's is read.
    ReadResponse,
}

/// Which heads are written of a request.
#[derive(Clone, Copy)]
pub enum Written {
    None,
    /// That for an origin.
    One,
    /// That for an origin, and that for a service.
    Both,
}

/// The bytes of a request's head that is parsed; 0 if it isn't whole.
fn parsed_request(text: &[u8]) -> usize {
    let mut lines = [EMPTY_HEADER_SPAN; MAX_FIELDS];
    match parse_request(text, &mut lines) {
        Ok(Status::Complete(spans)) => spans.len,
        _ => 0,
    }
}

/// The bytes of a response's head that is parsed; 0 if it isn't whole.
fn parsed_response(text: &[u8]) -> usize {
    let mut lines = [EMPTY_HEADER_SPAN; MAX_FIELDS];
    match parse_response(text, &mut lines) {
        Ok(Status::Complete(spans)) => spans.len,
        _ => 0,
    }
}

/// The bytes of the head for an origin; 0 if no memory was found for it.
fn forwarded(alloc: Global, user: &HttpRequest) -> usize {
    let forward = Forward {
        user,
        message: Message::Request(user),
        part: BodyKind::Own,
        carries_on: true,
        origin: OriginWay::straight(OriginUse::Once),
    };
    match forward_head(alloc, &forward) {
        Ok(text) => text.len(),
        Err(_) => 0,
    }
}

/// The bytes of the head for a service; 0 if no memory was found for it.
fn offered(alloc: Global, user: &HttpRequest) -> usize {
    let message = Message::Request(user);
    match encapsulated_head(alloc, &Encapsulated { user, message }) {
        Ok(text) => text.len(),
        Err(_) => 0,
    }
}

/// The bytes of a request's head that is read, or of those that are written of it.
fn read_or_written(alloc: Global, text: &[u8], written: Written) -> usize {
    let Ok(head) = read_request(alloc, text, false) else {
        return 0;
    };
    match written {
        Written::None => head.length,
        Written::One => forwarded(alloc, &head.value),
        Written::Both => {
            forwarded(alloc, &head.value).saturating_add(offered(alloc, &head.value))
        }
    }
}

/// The bytes of a service's response's head that is read.
fn read_answer(alloc: Global, text: &[u8]) -> usize {
    match read_response(alloc, text) {
        Ok(head) => head.length,
        Err(_) => 0,
    }
}

impl HeadWork {
    /// Does it once. How many bytes the heads have that were read, or written.
    pub fn once(self, alloc: Global, text: &[u8]) -> usize {
        match self {
            HeadWork::ParseRequest => parsed_request(text),
            HeadWork::ReadRequest(written) => read_or_written(alloc, text, written),
            HeadWork::ParseResponse => parsed_response(text),
            HeadWork::ReadResponse => read_answer(alloc, text),
        }
    }

    /// Whether it only reads, so that the bytes are those of the text.
    pub fn only_reads(self) -> bool {
        !matches!(self, HeadWork::ReadRequest(Written::One | Written::Both))
    }
}
