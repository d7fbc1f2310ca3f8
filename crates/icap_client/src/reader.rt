//! Reading a service's responses: it takes bytes, answers events, and knows no wire (RFC 3507, sections 4.4 to 4.6).

ghost use Rattle.std.specs.Prelude.{◌≡◌, ℕ, ◌<◌, ◌≤◌, ◌⊎◌, List, [], length, take, drop, OnOk, OnErr, option_copied, IfOk, IfErr, IfSome, IfNone, None, true, false, ◌≢◌, IsTrue, Some, ◌↔◌, MatchOption};
ghost use Rattle.icap_head.specs.Heads.{Response, HasResponse, response_parts, RefusesResponse};
ghost use Rattle.icap_head.specs.declared.reading.HeadFault.TheVariants as heads;
ghost use Rattle.trace_core.specs.History.{seen, shows};
ghost use Rattle.icap_client.specs.Events.{listed, MayCome, MayHear, MayAllFollow, ad_sum, adapted_events};
ghost use Rattle.icap_client.specs.Said.{says_close};
ghost use Rattle.icap_client.specs.Heard.{noted, Reader, in_stage, KeepsLimits, KeepsHead, Stays};
ghost use Rattle.icap_client.specs.Laws.{first_reader};
ghost use Rattle.icap_client.specs.Hearing.{ReaderHears, PassesWithoutEvent, MustWait, HasNoEmptyLine};
ghost use Rattle.icap_client.specs.Replies.{IsEncapsulatedHead, has_body, payload_if};
ghost use Rattle.icap_client.specs.Refused.{Refuses, RefusesReply, RefusesHead, RefusesBody, IsNoted, LimitsOf};
ghost use Rattle.encapsulated.specs.declared.offsets.Layout.{Layout as Parts};

mod shown;

use crate::blank_line::head_end;
use crate::body::read_body;
use crate::events::{Framed, FramedHead, adapted_events, event_list, may_all, payload_of, refusal};
use crate::lists::has_body;
use crate::replies::{Reply, may_reply, reply_of};
use crate::said::says_close;
use crate::stage::Stage;
use adapt_bytes::{behind, front};
use adapt_sides::ClientFault;
use arrayvec::ArrayVec;
use encapsulated::Layout;
use icap_chunks::ChunkReader;
use icap_head::{Fields, Head, IcapResponse, read_response};
use std::alloc::Global;
use std::marker::Model;
use trace_core::{Event, Point, State};

/// Reads the responses to one request.
#[derive(Drop)]
pub struct ReplyReader {
    alloc: Global,
    point: Point,
    stage: Stage,
    layout: Option<Layout>,
    head: Vec<u8>,
    /// The fields of the last response's head.
    remarks: Fields,
    closes: bool,
}

impl Model for ReplyReader {
    ghost use Rattle.icap_head.specs.Fields.{field_list};
    ghost use Rattle.icap_client.specs.Heard.{Reader, KeepsLimits};

    ghost Value = { Reader };

    ghost view = { λ r. record { point = r.point; stage = r.stage; layout = r.layout; head = r.head.items; remarks = field_list r.remarks; closes = r.closes } };

    ghost invariant = { λ r. KeepsLimits r.stage };
}

impl ReplyReader {
    /// A reader before the first byte of a response.
    pub fn new(alloc: Global, point: Point) -> ReplyReader
        ensures { result ≡ record { point = point; stage = Stage.Replies; layout = None; head = []; remarks = []; closes = false } }
    {
        ReplyReader {
            alloc,
            point,
            stage: Stage::Replies,
            layout: None,
            head: Vec::new(alloc),
            remarks: Fields::new(alloc),
            closes: false,
        }
    }

    /// The reader before the first byte of another connection's responses. It takes no memory.
    pub fn restart(&mut self)
        ensures { self.new ≡ first_reader self.old.point }
    {
        self.stage = Stage::Replies;
        self.layout = None;
        self.head = Vec::new(self.alloc);
        self.remarks = Fields::new(self.alloc);
        self.closes = false;
    }

    /// Where its memory comes from.
    pub(crate) fn allocator(&self) -> Global {
        self.alloc
    }

    /// Keeps what a response says beside its message.
    fn note(&mut self, value: IcapResponse)
        ensures { self.new ≡ noted self.old (response_parts value).fields (says_close (response_parts value).fields) }
    {
        let IcapResponse {
            status: _,
            phrase: _,
            fields,
        } = value;
        self.closes = says_close(&fields);
        self.remarks = fields;
    }

    /// Goes on after the head of the response that was noted, which is the first `size` of the raw bytes.
    fn accept(
        &mut self,
        state: &State,
        reply: Reply,
        raw: &[u8],
        size: usize,
    ) -> Result<FramedHead, ClientFault>
        requires stage { self.old.stage ≡ Stage.Replies }
        requires limits { LimitsOf reply }
        requires noted { IsNoted self.old reply raw.now size }
        ensures within { IfOk result (λ framed. framed.used ≤ length raw.now) }
        ensures silent { IfOk result (λ framed. ad_sum (listed framed.event) ≡ 0) }
        ensures hears { IfOk result (λ framed. ReaderHears (shows state.now) self.old self.new (listed framed.event) (take framed.used raw.now) []) }
        ensures passes { IfOk result (λ framed. framed.event ≡ None → PassesWithoutEvent self.old self.new framed.used raw.now) }
        ensures refuses { IfErr result (λ fault. RefusesReply fault (shows state.now) self.old.point raw.now) }
        ensures head { KeepsHead (shows state.now) self.old self.new }
        ensures stays { IfErr result (λ _. Stays self.old self.new) }
    {
        if !may_reply(state, reply) {
            return Err(ClientFault::NotLegal);
        }
        match reply {
            Reply::Continue => Ok(FramedHead {
                used: size,
                event: Some(Event::Continue),
            }),
            Reply::NoMod => {
                self.stage = Stage::Over;
                Ok(FramedHead {
                    used: size,
                    event: Some(Event::NoMod),
                })
            }
            Reply::Mod(layout) => {
                self.stage = Stage::Head(layout);
                Ok(FramedHead {
                    used: size,
                    event: None,
                })
            }
        }
    }

    /// Reads the ICAP head of a response, if it is there.
    fn read_reply(&mut self, state: &State, raw: &[u8]) -> Result<FramedHead, ClientFault>
        requires { self.old.stage ≡ Stage.Replies }
        ensures within { IfOk result (λ framed. framed.used ≤ length raw.now) }
        ensures silent { IfOk result (λ framed. ad_sum (listed framed.event) ≡ 0) }
        ensures hears { IfOk result (λ framed. ReaderHears (shows state.now) self.old self.new (listed framed.event) (take framed.used raw.now) []) }
        ensures passes { IfOk result (λ framed. framed.event ≡ None → PassesWithoutEvent self.old self.new framed.used raw.now) }
        ensures refuses { IfErr result (λ fault. RefusesReply fault (shows state.now) self.old.point raw.now) }
        ensures head { KeepsHead (shows state.now) self.old self.new }
        ensures stays { IfErr result (λ _. Stays self.old self.new) }
    {
        match read_response(self.alloc, raw) {
            Ok(head) => match reply_of(&head.value, self.point) {
                Ok(reply) => {
                    let Head { value, length } = head;
                    self.note(value);
                    self.accept(state, reply, raw, length)
                }
                Err(fault) => Err(fault),
            },
            Err(fault) => match refusal(fault) {
                Some(fault) => Err(fault),
                None => Ok(FramedHead {
                    used: 0,
                    event: None,
                }),
            },
        }
    }

    /// Reads the adapted message's head, if it is there.
    fn read_head(
        &mut self,
        state: &State,
        layout: Layout,
        raw: &[u8],
    ) -> Result<FramedHead, ClientFault>
        requires { self.old.stage ≡ Stage.Head layout }
        ensures within { IfOk result (λ framed. framed.used ≤ length raw.now) }
        ensures silent { IfOk result (λ framed. ad_sum (listed framed.event) ≡ 0) }
        ensures hears { IfOk result (λ framed. ReaderHears (shows state.now) self.old self.new (listed framed.event) (take framed.used raw.now) []) }
        ensures waits { IfOk result (λ framed. framed.event ≡ None → (framed.used ≡ 0) × (self.new ≡ self.old) × (length raw.now < layout.offset) × HasNoEmptyLine raw.now) }
        ensures refuses { IfErr result (λ fault. RefusesHead fault (shows state.now) layout raw.now) }
        ensures head { KeepsHead (shows state.now) self.old self.new }
        ensures stays { IfErr result (λ _. Stays self.old self.new) }
    {
        let size = layout.offset as usize;
        let seen = front(raw, size);
        match head_end(seen) {
            Some(end) if end == size => self.take_head(state, layout, seen),
            Some(_) => Err(ClientFault::Layout),
            None if raw.len() >= size => Err(ClientFault::Layout),
            None => Ok(FramedHead {
                used: 0,
                event: None,
            }),
        }
    }

    /// Reads the heads of a response, as far as they are there.
    fn read_heads(&mut self, state: &State, raw: &[u8]) -> Result<FramedHead, ClientFault>
        requires { self.old.stage ≡ Stage.Replies }
        ensures within { IfOk result (λ framed. framed.used ≤ length raw.now) }
        ensures silent { IfOk result (λ framed. ad_sum (listed framed.event) ≡ 0) }
        ensures hears { IfOk result (λ framed. ReaderHears (shows state.now) self.old self.new (listed framed.event) (take framed.used raw.now) []) }
        ensures waits { IfOk result (λ framed. framed.event ≡ None → (room : ℕ) → MustWait self.new.stage (drop framed.used raw.now) room) }
        ensures refuses { IfErr result (λ fault. Refuses fault (shows state.now) self.old.point Stage.Replies raw.now) }
        ensures head { KeepsHead (shows state.now) self.old self.new }
        ensures stays { IfErr result (λ _. Stays self.old self.new) }
    {
        let first = match self.read_reply(state, raw) {
            Ok(framed) => framed,
            Err(fault) => return Err(fault),
        };
        match first.event {
            Some(_) => Ok(first),
            None => match self.stage {
                Stage::Head(layout) => {
                    let rest = behind(raw, first.used);
                    match self.read_head(state, layout, rest) {
                        Ok(second) => Ok(FramedHead {
                            used: first.used + second.used,
                            event: second.event,
                        }),
                        Err(fault) => {
                            self.stage = Stage::Replies;
                            Err(fault)
                        }
                    }
                }
                _ => Ok(first),
            },
        }
    }

    /// Reads on in the body.
    fn read_on(
        &mut self,
        state: &State,
        chunks: ChunkReader,
        raw: &[u8],
        out: &mut [u8],
    ) -> Result<Framed, ClientFault>
        requires { self.old.stage ≡ Stage.Body chunks }
        ensures within { IfOk result (λ heard. (heard.used ≤ length raw.now) × (ad_sum heard.events.items ≤ length out.old)) }
        ensures hears { IfOk result (λ heard. ReaderHears (shows state.now) self.old self.new heard.events.items (take heard.used raw.now) (take (ad_sum heard.events.items) out.new)) }
        ensures waits { IfOk result (λ heard. heard.events.items ≡ [] → MustWait self.new.stage (drop heard.used raw.now) (length out.old)) }
        ensures refuses { IfErr result (λ fault. RefusesBody fault (shows state.now) chunks raw.now) }
        ensures head { KeepsHead (shows state.now) self.old self.new }
        ensures stays { IfErr result (λ _. Stays self.old self.new) }
    {
        // For the proof alone: the body is in this stage.
        let _ = &self.stage;
        let mut next = chunks;
        match read_body(&mut next, raw, out) {
            Ok(copied) => {
                if !may_all(state, copied.count, copied.ended) {
                    return Err(ClientFault::NotLegal);
                }
                self.stage = if copied.ended {
                    Stage::Over
                } else {
                    Stage::Body(next)
                };
                Ok(Framed {
                    used: copied.used,
                    events: adapted_events(copied.count, copied.ended),
                })
            }
            Err(_) => Err(ClientFault::Chunk),
        }
    }

    /// Frames what can be framed of the raw bytes, which come after those that were framed before. The bytes of the adapted
    /// body go to the beginning of `out`; the events give their number.
    pub fn frame(
        &mut self,
        state: &State,
        raw: &[u8],
        out: &mut [u8],
    ) -> Result<Framed, ClientFault>
        ensures within { IfOk result (λ heard. (heard.used ≤ length raw.now) × (ad_sum heard.events.items ≤ length out.old)) }
        ensures hears { IfOk result (λ heard. ReaderHears (shows state.now) self.old self.new heard.events.items (take heard.used raw.now) (take (ad_sum heard.events.items) out.new)) }

        // Without an event no further byte can be framed.
        ensures waits { IfOk result (λ heard. heard.events.items ≡ [] → MustWait self.new.stage (drop heard.used raw.now) (length out.old)) }

        // Each fault has its reason in the bytes.
        ensures refuses { IfErr result (λ fault. Refuses fault (shows state.now) self.old.point self.old.stage raw.now) }
        ensures head { KeepsHead (shows state.now) self.old self.new }
        ensures stays { IfErr result (λ _. Stays self.old self.new) }
    {
        match self.stage {
            Stage::Replies => match self.read_heads(state, raw) {
                Ok(framed) => Ok(Framed {
                    used: framed.used,
                    events: event_list(framed.event),
                }),
                Err(fault) => Err(fault),
            },
            Stage::Head(layout) => match self.read_head(state, layout, raw) {
                Ok(framed) => Ok(Framed {
                    used: framed.used,
                    events: event_list(framed.event),
                }),
                Err(fault) => Err(fault),
            },
            Stage::Body(chunks) => self.read_on(state, chunks, raw, out),
            Stage::Over => Ok(Framed {
                used: 0,
                events: ArrayVec::new(),
            }),
        }
    }

    /// Takes the adapted message's head.
    fn take_head(
        &mut self,
        state: &State,
        layout: Layout,
        head: &[u8],
    ) -> Result<FramedHead, ClientFault>
        requires stage { self.old.stage ≡ Stage.Head layout }
        requires head { IsEncapsulatedHead head.now }
        requires size { length head.now ≡ layout.offset }
        ensures used { IfOk result (λ framed. framed.used ≡ length head.now) }
        ensures event { IfOk result (λ framed. framed.event ≡ Some (Event.Mod (payload_if (has_body layout.body)))) }
        ensures silent { IfOk result (λ framed. ad_sum (listed framed.event) ≡ 0) }
        ensures hears { IfOk result (λ framed. ReaderHears (shows state.now) self.old self.new (listed framed.event) head.now []) }
        ensures refuses { IfErr result (λ fault. (fault ≡ ClientFault.NoMemory) ⊎ ((fault ≡ ClientFault.NotLegal) × (MayCome (shows state.now) (Event.Mod (payload_if (has_body layout.body))) → ⊥))) }
        ensures head { KeepsHead (shows state.now) self.old self.new }
        ensures stays { IfErr result (λ _. Stays self.old self.new) }
    {
        let body = has_body(layout.body);
        let payload = payload_of(body);
        if !state.may(Event::Mod(payload)) {
            return Err(ClientFault::NotLegal);
        }
        let Ok(head_bytes) = head.to_vec(self.alloc) else {
            return Err(ClientFault::NoMemory);
        };
        self.head = head_bytes;
        self.layout = Some(layout);
        self.stage = if body {
            Stage::Body(ChunkReader::new())
        } else {
            Stage::Over
        };
        Ok(FramedHead {
            used: head.len(),
            event: Some(Event::Mod(payload)),
        })
    }
}
