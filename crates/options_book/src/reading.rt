//! Reading an OPTIONS response (RFC 3507, section 4.10.2).

ghost use Rattle.std.specs.Prelude.{◌≡◌, ◌⊎◌, IfOk, IfErr};
ghost use Rattle.icap_head.specs.Heads.{response_parts};
ghost use Rattle.options_book.specs.Options.{IsRecordOf, Options, RefusesOptions};

use crate::judged::judge;
use crate::{OptFault, Record};
use icap_head::IcapResponse;
use std::alloc::Global;
use trace_core::Point;

/// Reads the OPTIONS response of a point's service as a record, at the time `now`, in seconds.
///
/// The fault is the first that applies, in the order of [`OptFault`]; `NoMemory` comes only if the response is valid.
pub fn read_record(
    alloc: Global,
    response: &IcapResponse,
    point: Point,
    now: u64,
) -> Result<Record, OptFault>
    ensures ok { IfOk result (IsRecordOf point now (response_parts response.now)) }

    // A fault is answered exactly where it stands; memory is wanted last, for what the response says.
    ensures fault { (fault : OptFault) → RefusesOptions fault point (response_parts response.now) → result ≡ Err fault }
    ensures only { IfErr result (λ fault. RefusesOptions fault point (response_parts response.now)
        ⊎ ((fault ≡ OptFault.NoMemory) × ((options : Options) × IsRecordOf point now (response_parts response.now) options))) }
{
    find_record(alloc, response, point, now)
}

fn find_record(
    alloc: Global,
    response: &IcapResponse,
    point: Point,
    now: u64,
) -> Result<Record, OptFault>
    ensures ok { IfOk result (IsRecordOf point now (response_parts response.now)) }
    ensures only { IfErr result (λ fault. RefusesOptions fault point (response_parts response.now)
        ⊎ ((fault ≡ OptFault.NoMemory) × ((options : Options) × IsRecordOf point now (response_parts response.now) options))) }
{
    let judged = match judge(response, point) {
        Ok(judged) => judged,
        Err(fault) => return Err(fault),
    };
    match judged.record(alloc, &response.fields, now) {
        Ok(record) => Ok(record),
        Err(_) => Err(OptFault::NoMemory),
    }
}
