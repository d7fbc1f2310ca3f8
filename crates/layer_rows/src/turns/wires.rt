//! The wires of a row's transaction.

use crate::stage::{CountedMemoryWire, GameWires};
use crate::turns::case::Case;
use test_rows::{NoMemory, wire};
use wire_kit::CountedWire;

/// A wire that gives the text of a key as the second key says, and takes bytes as the third says.
fn wire_of(
    case: &Case<'_>,
    text: &[u8],
    read: &[u8],
    written: &[u8],
) -> Result<CountedMemoryWire, NoMemory> {
    match wire(case.alloc, case.scene, text, read, written, case.values) {
        Ok(wire) => Ok(CountedWire::new(wire)),
        Err(NoMemory) => Err(NoMemory),
    }
}

/// The source's wire.
pub fn source_wire(case: &Case<'_>) -> Result<CountedMemoryWire, NoMemory> {
    wire_of(case, b"source", b"source-reads", b"source-writes")
}

/// The wire that comes in the place of the service's, where the row has one.
fn fresh_wire(case: &Case<'_>) -> Result<Option<CountedMemoryWire>, NoMemory> {
    if !case.has(b"fresh-writes") {
        return Ok(None);
    }
    match wire_of(case, b"fresh", b"fresh-reads", b"fresh-writes") {
        Ok(wire) => Ok(Some(wire)),
        Err(NoMemory) => Err(NoMemory),
    }
}

/// The row's wires, beside this one of the source.
pub fn wires_with<A: Drop>(
    source: A,
    case: &Case<'_>,
) -> Result<GameWires<A, CountedMemoryWire>, NoMemory> {
    let fresh = fresh_wire(case)?;
    let service = wire_of(case, b"service", b"service-reads", b"service-writes")?;
    let next_hop = wire_of(case, b"", b"", b"hop-writes")?;
    Ok(GameWires {
        source,
        service,
        fresh,
        next_hop,
    })
}
