//! What is known of a service: its configuration, and the record of its options.
use adapt_sides::MAX_READ;
use icap_client::OptionsSide;
use icap_head::{IcapResponse, read_response};
use options_book::{Record, read_record};
use proxy_config::{ServicePoint, read_config};
use proxy_rules::{ask_options, is_reusable_after_options, pool_maximum};
use std::alloc::Global;
use test_rows::{NoMemory, Scene, put_all, put_flag, put_line, put_number};
use trace_core::Point;
use wire_kit::{MemoryWire, ReadAnswer, Wire, WriteAnswer};

/// The service of responses that the row configures.
pub fn service_of(alloc: Global, scene: Scene<'_>) -> Option<ServicePoint> {
    match read_config(alloc, scene.get(b"config")) {
        Ok(mut config) => {
            let service = config.respmod.take();
            // Written as a call, the drop is proved once, and not at each place.
            drop(config);
            service
        }
        Err(_) => None,
    }
}

/// The head of an OPTIONS response with the row's fields.
fn options_of(alloc: Global, scene: Scene<'_>) -> Result<Option<IcapResponse>, NoMemory> {
    let mut text = Vec::new(alloc);
    put_all(
        &mut text,
        &[scene.get(b"options"), scene.get(b"fields"), b"\r\n"],
    )?;
    Ok(match read_response(alloc, &text) {
        Ok(head) => Some(head.value),
        Err(_) => None,
    })
}

/// The record that is made of the row's OPTIONS response; none where the service wasn't asked.
pub fn record_of(alloc: Global, scene: Scene<'_>) -> Result<Option<Record>, NoMemory> {
    if scene.has(b"unasked") {
        return Ok(None);
    }
    Ok(match options_of(alloc, scene)? {
        Some(head) => read_record(alloc, &head, Point::Respmod, 0).ok(),
        None => None,
    })
}

/// A list of one.
fn one<T: Copy>(alloc: Global, item: T) -> Result<Vec<T>, NoMemory> {
    let mut list = Vec::new(alloc);
    list.push(item)?;
    Ok(list)
}

/// A wire that gives these bytes at once, and takes all that it is offered at once.
pub fn wire_of(alloc: Global, text: &[u8]) -> Result<MemoryWire, NoMemory> {
    let input = text.to_vec(alloc)?;
    let reads = one(alloc, ReadAnswer::Bytes(4096))?;
    let writes = one(alloc, WriteAnswer::Took(4096))?;
    MemoryWire::new(alloc, input, reads, writes)
}

/// What is written to a wire at once.
pub trait Writes {
    /// Writes as much as the wire takes.
    fn write<W: Wire>(&mut self, wire: &mut W);
}

impl Writes for OptionsSide {
    fn write<W: Wire>(&mut self, wire: &mut W) {
        let _ = self.turn(wire, &mut [0; MAX_READ]);
    }
}

/// Adds what a side writes.
pub fn put_written<S: Writes>(
    alloc: Global,
    side: &mut S,
    out: &mut Vec<u8>,
) -> Result<(), NoMemory> {
    let mut wire = wire_of(alloc, b"")?;
    side.write(&mut wire);
    out.extend_from_slice(wire.taken())
}

/// Adds whether the connection may be used again after the row's OPTIONS response.
fn put_reusable(
    alloc: Global,
    side: &OptionsSide,
    scene: Scene<'_>,
    out: &mut Vec<u8>,
) -> Result<(), NoMemory> {
    match options_of(alloc, scene)? {
        Some(head) => put_flag(out, b"used again", is_reusable_after_options(side, &head)),
        None => put_line(out, b"no response"),
    }
}

/// Adds how many connections the pool may open.
fn put_maximum(
    alloc: Global,
    service: &ServicePoint,
    scene: Scene<'_>,
    out: &mut Vec<u8>,
) -> Result<(), NoMemory> {
    let record = record_of(alloc, scene)?;
    put_number(out, b"at most", pool_maximum(record.as_ref(), service))
}

/// Adds the answer to a row of these calls; nothing for another one.
pub fn put_answer(alloc: Global, scene: Scene<'_>, out: &mut Vec<u8>) -> Result<(), NoMemory> {
    let Some(service) = service_of(alloc, scene) else {
        return Ok(());
    };
    if scene.is(b"call", b"options request") {
        put_written(alloc, &mut ask_options(alloc, &service)?, out)
    } else if scene.is(b"call", b"after options") {
        put_reusable(alloc, &ask_options(alloc, &service)?, scene, out)
    } else if scene.is(b"call", b"maximum") {
        put_maximum(alloc, &service, scene, out)
    } else {
        Ok(())
    }
}
