//! What a row's services said of their options before.

use icap_head::read_response;
use options_book::read_record;
use service_pool::PointBook;
use std::alloc::Global;
use test_rows::Scene;
use trace_core::Point;

/// The moment of a row, in seconds.
pub const NOW: u64 = 1000;

/// What the service of a point said, as the text tells that the key names; nothing where it names none.
pub fn book_of(alloc: Global, scene: Scene<'_>, point: Point, key: &[u8]) -> PointBook {
    let mut book = PointBook::new();
    if let Ok(head) = read_response(alloc, scene.get(scene.get(key)))
        && let Ok(record) = read_record(alloc, &head.value, point, NOW)
    {
        book.keep(record);
    }
    book
}
