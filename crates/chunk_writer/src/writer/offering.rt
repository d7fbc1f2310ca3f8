//! Composing the text of one write, and offering it.

ghost use Rattle.std.specs.Prelude.{◌≡◌, ◌+◌, ◌-◌, ◌<◌, ◌≤◌, ◌++◌, [], length, drop, None, Some, true};
ghost use Rattle.wire_kit.specs.Past.{Offers, delta_of, part_taken};
ghost use Rattle.chunk_writer.specs.Writer.{IsIdle, waiting, data_text, end_text, next_text, offered, MayGoOn};
ghost use Rattle.chunk_writer.specs.Moves.{Moves, Passes, IsStill};
ghost use Rattle.chunk_writer.specs.declared.draft.TheConstants.{LONG_HEAD, WRITE_ROOM};
ghost use Rattle.chunk_writer.specs.declared.next.TheConstants.{MAX_CHUNK};

use super::{ChunkWriter, Wrote};
use crate::draft::{Draft, LONG_HEAD, WRITE_ROOM};
use crate::next::Next;
use span_tape::SpanTape;
use wire_kit::{Put, Wire};

impl ChunkWriter {
    /// The most bytes that what waits and what comes next may have.
    #[tactic(auto, using(crate::proofs::Texts::length_waiting))]
    fn need(&self, next: &Next) -> usize
        requires few { next.now.count ≤ MAX_CHUNK }
        requires fits { length self.now.head - self.now.head_out ≤ LONG_HEAD }
        ensures need { result ≡ length (waiting self.now) + next.now.count + 130 }
        ensures room { result ≤ WRITE_ROOM }
    {
        let waiting = self.head.as_slice().len() - self.head_out
            + (self.framing.as_slice().len() - self.framing_out);
        waiting + next.count as usize + 130
    }

    /// Composes what waits.
    #[tactic(auto, using(crate::proofs::Texts::length_waiting))]
    fn put_waiting(&self, draft: &mut Draft<'_>)
        requires room { length (waiting self.now) ≤ WRITE_ROOM }
        requires empty { draft.old ≡ [] }
        ensures { draft.new ≡ waiting self.now }
    {
        draft.put(&self.head.as_slice()[self.head_out..]);
        draft.put(&self.framing.as_slice()[self.framing_out..]);
    }

    /// Composes the body bytes and what follows them.
    fn put_data(&self, left: u64, next: &Next, tape: &SpanTape, draft: &mut Draft<'_>)
        requires next { MayGoOn self.now tape.now next.now }
        requires more { 0 < next.now.count }
        requires room { length draft.old + next.now.count + 66 ≤ WRITE_ROOM }
        ensures { draft.new ≡ draft.old ++ data_text left tape.now next.now }
    {
        draft.put_places(tape, next.from, next.count as usize);
        if !next.chunked {
            draft.put_ending(next.end);
        } else if next.count == left {
            draft.put_tail();
            draft.put_ending(next.end);
        }
    }

    /// Composes what comes next.
    fn put_next(&self, next: &Next, tape: &SpanTape, draft: &mut Draft<'_>)
        requires next { MayGoOn self.now tape.now next.now }
        requires room { length draft.old + next.now.count + 130 ≤ WRITE_ROOM }
        ensures { draft.new ≡ draft.old ++ next_text self.now.left tape.now next.now }
    {
        if next.count == 0 {
            draft.put_ending(next.end);
        } else if next.chunked && self.left == 0 {
            draft.put_size_line(next.count);
            self.put_data(next.count, next, tape, draft);
        } else {
            self.put_data(self.left, next, tape, draft);
        }
    }

    /// Offers a long head.
    fn write_head<W: Wire>(&mut self, wire: &mut W) -> Put
        requires { LONG_HEAD < length self.old.head - self.old.head_out }
        ensures wire { Offers (W.past wire.old) (W.past wire.new) (drop self.old.head_out self.old.head) (Some result) }
        ensures passes { Passes self.old (part_taken result (drop self.old.head_out self.old.head)) self.new }
    {
        let answer = wire.try_write(&self.head.as_slice()[self.head_out..]);
        if let Put::Took(count) = answer {
            self.head_out += count;
        }
        answer
    }

    /// Offers what waits and what comes next, in one write that is composed there.
    fn offer<W: Wire>(
        &mut self,
        draft: &mut Draft<'_>,
        next: &Next,
        tape: &SpanTape,
        wire: &mut W,
    ) -> Wrote
        requires empty { draft.old ≡ [] }
        requires room { length (waiting self.old) + next.now.count + 130 ≤ WRITE_ROOM }
        requires next { MayGoOn self.old tape.now next.now }
        ensures wire { Offers (W.past wire.old) (W.past wire.new) (waiting self.old ++ next_text self.old.left tape.now next.now) result.answer }
        ensures moves { Moves tape.now next.now self.old result.sent result.ended
            (delta_of (waiting self.old ++ next_text self.old.left tape.now next.now) result.answer) self.new }
        ensures idle { result.answer ≡ None → IsIdle self.old next.now result.sent result.ended }
        ensures out { result.answer ≡ None → waiting self.new ≡ [] }
        ensures still { IsStill result.answer result.sent result.ended }
        ensures silent { result.answer ≡ None → waiting self.old ++ next_text self.old.left tape.now next.now ≡ [] }
        ensures asks { waiting self.old ++ next_text self.old.left tape.now next.now ≡ [] → result.answer ≡ None }
    {
        self.put_waiting(draft);
        self.put_next(next, tape, draft);
        if draft.is_empty() {
            return Wrote {
                answer: None,
                sent: 0,
                ended: self.finish(0, next),
            };
        }
        match wire.try_write(draft.text()) {
            Put::Took(count) => {
                let (sent, ended) = self.took(count, next);
                Wrote {
                    answer: Some(Put::Took(count)),
                    sent,
                    ended,
                }
            }
            Put::Wait => Wrote {
                answer: Some(Put::Wait),
                sent: 0,
                ended: false,
            },
            Put::Fault => Wrote {
                answer: Some(Put::Fault),
                sent: 0,
                ended: false,
            },
        }
    }

    /// Offers what waits and what comes next, in one write.
    fn write_all<W: Wire>(
        &mut self,
        next: &Next,
        tape: &SpanTape,
        wire: &mut W,
        buffer: &mut [u8; WRITE_ROOM],
    ) -> Wrote
        requires fits { length self.old.head - self.old.head_out ≤ LONG_HEAD }
        requires next { MayGoOn self.old tape.now next.now }
        ensures wire { Offers (W.past wire.old) (W.past wire.new) (waiting self.old ++ next_text self.old.left tape.now next.now) result.answer }
        ensures moves { Moves tape.now next.now self.old result.sent result.ended
            (delta_of (waiting self.old ++ next_text self.old.left tape.now next.now) result.answer) self.new }
        ensures idle { result.answer ≡ None → IsIdle self.old next.now result.sent result.ended }
        ensures out { result.answer ≡ None → waiting self.new ≡ [] }
        ensures still { IsStill result.answer result.sent result.ended }
        ensures silent { result.answer ≡ None → waiting self.old ++ next_text self.old.left tape.now next.now ≡ [] }
        ensures asks { waiting self.old ++ next_text self.old.left tape.now next.now ≡ [] → result.answer ≡ None }
    {
        // For the proof alone: the buffer has the room.
        let _ = self.need(next);
        let mut draft = Draft::new(buffer);
        self.offer(&mut draft, next, tape, wire)
    }

    /// Whether nothing waits, and no text comes next.
    fn is_idle(&self, next: &Next) -> bool
        ensures out { result ≡ true → waiting self.now ≡ [] }
        ensures none { result ≡ true → next.now.count ≡ 0 }
        ensures silent { result ≡ true → end_text next.now.end ≡ [] }
    {
        self.is_out() && next.count == 0 && !next.end.has_text()
    }

    /// Writes what is due, with one write at most: what waits, then the bytes that may come next, and after them the
    /// body's end. It is composed in the buffer. Counts what the wire took of it.
    #[tactic(auto, using(crate::proofs::Moving::still_none))]
    pub fn write<W: Wire>(
        &mut self,
        next: &Next,
        tape: &SpanTape,
        wire: &mut W,
        buffer: &mut [u8; WRITE_ROOM],
    ) -> Wrote
        requires { MayGoOn self.old tape.now next.now }
        ensures wire { Offers (W.past wire.old) (W.past wire.new) (offered self.old tape.now next.now) result.answer }
        ensures moves { Moves tape.now next.now self.old result.sent result.ended
            (delta_of (offered self.old tape.now next.now) result.answer) self.new }

        // Nothing is offered only if nothing waits and nothing comes next; then an end without a text is fixed.
        ensures idle { result.answer ≡ None → IsIdle self.old next.now result.sent result.ended }
        ensures out { result.answer ≡ None → waiting self.new ≡ [] }
        ensures still { IsStill result.answer result.sent result.ended }

        // The wire is asked exactly if there is a text to offer.
        ensures silent { result.answer ≡ None → offered self.old tape.now next.now ≡ [] }
        ensures asks { offered self.old tape.now next.now ≡ [] → result.answer ≡ None }
    {
        if self.is_idle(next) {
            return Wrote {
                answer: None,
                sent: 0,
                ended: self.finish(0, next),
            };
        }
        if self.head.as_slice().len() - self.head_out > LONG_HEAD {
            return Wrote {
                answer: Some(self.write_head(wire)),
                sent: 0,
                ended: false,
            };
        }
        self.write_all(next, tape, wire, buffer)
    }
}
