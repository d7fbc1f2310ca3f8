//! What holds of every OPTIONS response. Each law is the contract of a function.

ghost use Rattle.std.specs.Prelude.{◌≡◌, ◌⊎◌, ℕ};
ghost use Rattle.icap_head.specs.Heads.{Response, response_parts};
ghost use Rattle.trace_core.specs.declared.history.Point.{Point};
ghost use Rattle.options_book.specs.declared.faults.OptFault.{OptFault};
ghost use Rattle.options_book.specs.Options.{Options, IsRecordOf, RefusesOptions};

use crate::judged::judge;
use icap_head::IcapResponse;
use trace_core::Point;

/// A response has one reading: at most one record, at most one fault, and never both.
pub fn reads_one_way()
    ensures one_record { (point : Point) (moment : ℕ) (response : Response) (options others : Options)
        → IsRecordOf point moment response options → IsRecordOf point moment response others → options ≡ others }
    ensures one_fault { (fault other : OptFault) (point : Point) (response : Response)
        → RefusesOptions fault point response → RefusesOptions other point response → fault ≡ other }
    ensures not_both { (fault : OptFault) (point : Point) (moment : ℕ) (response : Response) (options : Options)
        → IsRecordOf point moment response options → RefusesOptions fault point response → ⊥ }
{}

/// Each response has a reading: a record, or one of the faults.
pub fn has_a_reading(response: &IcapResponse, point: Point)
    ensures { (moment : ℕ) → ((options : Options) × IsRecordOf point moment (response_parts response.now) options)
        ⊎ ((fault : OptFault) × RefusesOptions fault point (response_parts response.now)) }
{
    let _judged = judge(response, point);
}
