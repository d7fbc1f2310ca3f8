//! What holds of every head that goes on, and of every transaction. Each law is the contract of a function that does nothing, but for the
//! two from the beginning on: they begin a transaction, and take its turns or make calls of it.

ghost use Rattle.std.specs.Prelude.{◌≡◌, ◌≤◌, ◌+◌, ◌++◌, ◌↔◌, ℕ, Bool, List, [], length, Option, is_some, true, false, codes, IsOk, IfOk, IfErr};
ghost use Rattle.span_bank.specs.declared.limits.TheConstants.{MAX_CAPACITY};
ghost use Rattle.plan_rules.specs.Claims.{claim_of};
ghost use Rattle.trace_core.specs.declared.history.Cause.{Cause as AnyCause};
ghost use Rattle.trace_core.specs.declared.history.Cause.TheVariants.{Deadline, Stopping};
ghost use Rattle.trace_core.specs.declared.history.Seen.{Seen};
ghost use Rattle.trace_core.specs.declared.tape.Tape.TheVariants.{Original, Adapted};
ghost use Rattle.trace_core.specs.Held.{IsIn, IsNeeded};
ghost use Rattle.need_witness.specs.Script.{IsScript};
ghost use Rattle.need_witness.specs.Table.{script_of};
ghost use Rattle.need_witness.specs.declared.scripts.TheConstants.{MAX_SCRIPT};
ghost use Rattle.adapt_hold.specs.Holding.{IsTied, interval, shows};
ghost use Rattle.adapt_turn.specs.ChosenHead.{IsMade, adapted_of, response_of};
ghost use Rattle.adapt_turn.specs.declared.turn.TurnAnswer.{TurnAnswer as AnyAnswer};
ghost use Rattle.adapt_turn.specs.declared.turn.Outcome.TheVariants as outcomes;
ghost use Rattle.adapt_turn.specs.Stands.{Texts};
ghost use Rattle.http_relay.specs.declared.side.head.SourceHead.{SourceHead};
ghost use Rattle.http_relay.specs.declared.side.SourceSide.{SourceSide as UserSide};
ghost use Rattle.http_relay.specs.Reading.{SideRead};
ghost use Rattle.icap_client.specs.Turns.{ServiceHeard};
ghost use Rattle.http_side.specs.declared.forward.Forward.{Forward as Sent};
ghost use Rattle.http_side.specs.declared.forward.OriginWay.{OriginWay as AnyWay};
ghost use Rattle.http_side.specs.Forward.{is_response, is_named_by, is_once, closes};
ghost use Rattle.http_side.specs.Laws.{forwarded_fields};
ghost use Rattle.proxy_rules.specs.Heads.{MakesNone};
ghost use Rattle.proxy_rules.specs.Wires.{WiresTook};
ghost use Rattle.proxy_rules.specs.Since.{Snapshot, first_snapshot};
ghost use Rattle.proxy_rules.specs.Arrivals.{Came, HasCome};
ghost use Rattle.proxy_rules.specs.Grown.{Grown};
ghost use Rattle.proxy_rules.specs.Calls.{AreLines};
ghost use Rattle.proxy_rules.specs.Following.{GaveTexts, IsMessageText};
ghost use Rattle.proxy_rules.specs.Offers.{text_of};
ghost use Rattle.proxy_rules.specs.Beginnings.{MayBegin};
ghost use Rattle.proxy_rules.specs.Running.{TakesFrom};

use crate::calls::RunningCall;
use crate::head_maker::HeadMaker;
use crate::incoming::Incoming;
use crate::own_ends::{OwnEnds, Wires};
use crate::running::{Accounting, Running};
use crate::starting::{Beginning, begin, may_begin};
use adapt_sides::{Scratch, Service, Source};
use adapt_turn::{Answering, MakesHead, Refusing, Side, Standing, Tx};
use http_relay::{HopWriter, SourceSide};
use icap_client::ServiceSide;
use span_bank::{Bank, Ledgers};
use std::alloc::Global;
use std::sync::Wait;
use wire_kit::Wire;

/// An answer's head says `close` exactly if the user's connection ends after it, and a request's exactly if the connection that it goes out
/// on is for this request alone (RFC 9112, section 9.6).
pub fn says_close_where_it_ends()
    ensures answer { (f : Sent) → is_response f.message ≡ true → is_named_by (forwarded_fields f) (codes "close") ≡ closes f }
    ensures request { (f : Sent) → is_response f.message ≡ false → is_named_by (forwarded_fields f) (codes "close") ≡ is_once f.origin.connection }
{}

/// Why no head of a chosen message could be made lies with a side or with memory: it is never the deadline, and never a stop. So of a
/// transaction of the proxy's own sides only a turn at its deadline fails it as Deadline, and only `halt` as Stopping,
/// but for `fail_unretried`, which fails it for the cause that it is given.
pub fn a_missing_head_is_of_a_side()
    ensures deadline { (origin : AnyWay) (user : Option UserSide) (source : SourceHead) (x : Seen) (adapted : Option (List ℕ)) (is_response : Bool)
        → MakesNone origin user source x adapted is_response Deadline → ⊥ }
    ensures stopping { (origin : AnyWay) (user : Option UserSide) (source : SourceHead) (x : Seen) (adapted : Option (List ℕ)) (is_response : Bool)
        → MakesNone origin user source x adapted is_response Stopping → ⊥ }
{}

/// What the wires of a transaction of the proxy's own sides gave and took, wherever it stands. The source's wire gave a message with
/// the original body, whole once it has ended, by its framing or because that wire has ended; the service's gave the adapted one.
/// The service's wire took a prefix of the one request whose heads were offered at the beginning, with the original. One of the
/// wires to the next hop and to the user took a prefix of one message with the chosen body, or of a refusal alone, and the other one
/// nothing of a message. Of the body just the bytes were taken that the history counts. The message's head, and how its body goes,
/// were made of the heads that were read, at a moment of such a history. A refusal goes to the user alone. Once Done stands, the
/// whole message was taken.
pub fn the_wires_take_one_message<B: Ledgers, W: Wires>(tx: &Tx<B, OwnEnds<W>>)
    ensures tied { IsTied tx.now.hold }
    ensures took { (request : List ℕ) (t : Texts) → ⟦<Tx<B, OwnEnds<W>> as Standing>⟧.stands tx.now request t
        → WiresTook tx.now.ends tx.now.hold request t }
{
    // For the proof alone: its state is that of its history.
    let _ = tx.seen();
}

/// What [`the_wires_take_one_message`] says holds of a running transaction wherever it stands, of just what its wires gave and took since
/// each beginning since which they are accounted for; and there is one. Where it failed, the user's writer has the refusal of the cause's
/// status, or a byte has gone out to the user.
pub fn a_running_transaction_takes_one_message<B: Ledgers, W: Wires>(running: &Running<B, W>)
    ensures took { (s : Snapshot W.SourceWire W.ServiceWire W.NextWire) → ⟦<Tx<B, OwnEnds<W>> as Accounting<W>>⟧.since s running.now.tx
        → ⟦<Tx<B, OwnEnds<W>> as Accounting<W>>⟧.took s running.now.tx }
    ensures some { ∥ ((s : Snapshot W.SourceWire W.ServiceWire W.NextWire) × ⟦<Tx<B, OwnEnds<W>> as Accounting<W>>⟧.took s running.now.tx) ∥₁ }
    ensures refuses { (shows running.now.tx.hold.history).closed ≡ true → (cause : AnyCause) → running.now.tx.outcome ≡ outcomes.Fail cause
        → ∥ ⟦<Tx<B, OwnEnds<W>> as Refusing>⟧.refuses running.now.tx cause ∥₁ }
{
    the_wires_take_one_message(&running.tx);
}

/// Begins a transaction, takes turns of it, and says what its wires gave and took: the source's since the first read of the message, the
/// others since the beginning; after all that each had given and taken before, just the texts of [`the_wires_take_one_message`]. It holds
/// of all turns, each of a side at a moment, and of wires of any kind; a wire in memory shows its bytes.
///
/// Everything comes back where [`may_begin`] says that none may begin.
pub fn from_the_beginning_the_wires_take_one_message<B: Ledgers, W: Wires>(
    rt: &impl Wait,
    alloc: Global,
    bank: &Bank<B>,
    beginning: Beginning<B, W>,
    scratch: &mut Scratch,
    turns: &[(Side, u64)],
) -> Result<Running<B, W>, Beginning<B, W>>
    requires empty { (beginning.stake.held ≡ 0) × (beginning.stake.pages ≡ 0) }
    requires claim { beginning.stake.claim ≡ claim_of beginning.offer.plan beginning.limits.window }
    requires small { beginning.stake.claim ≤ MAX_CAPACITY }
    ensures accepts { IsOk result ↔ MayBegin beginning.message beginning.offer (is_some beginning.way.service) }
    ensures took { IfOk result (λ running. (first : W.SourceWire) (ahead since beside : List ℕ) → Came W.SourceWire.Wire first ahead since beside beginning.message.side beginning.way.source
        → ⟦<Tx<B, OwnEnds<W>> as Accounting<W>>⟧.took (first_snapshot (text_of beginning.offer.side) ahead beside first beginning.way.next beginning.way.service) running.tx) }
    ensures turns { IfOk result (λ running. TakesFrom (λ begun. (begun.hold.history ≡ record { plan = beginning.offer.plan; events = [] })
        × (begun.pace ≡ beginning.pace))
        (λ old side now new. (said : AnyAnswer) × ⟦<Tx<B, OwnEnds<W>> as Answering>⟧.answers old side new said
        × ⟦<Tx<B, OwnEnds<W>> as Answering>⟧.keeps old side new
        × ((shows old.hold.history).closed ≡ false → old.pace.last_moved + old.pace.deadline ≤ now → new.outcome ≡ outcomes.Fail Deadline)) turns.now running.tx) }
    ensures back { IfErr result (λ back. back ≡ beginning) }
{
    let is_connected = beginning.way.service.is_some();
    if !may_begin(&beginning.message, &beginning.offer, is_connected) {
        return Err(beginning);
    }
    let mut running = begin(alloc, beginning);
    running.take_turns(rt, bank, scratch, turns);
    the_wires_take_one_message(&running.tx);
    Ok(running)
}

/// A message and the wire that it comes over. It begins there with the bytes that were kept of the message before it; a turn at its head
/// reads what the wire gives in it ([`Incoming::head_turn`]); and what the wire takes beside, as an interim response, is no part of it.
pub fn a_message_comes_over_its_wire<W: Wire>(message: &Incoming, wire: &W)
    ensures begins { (ahead : List ℕ) → HasCome ahead message.now.side → Came W.Wire wire.now ahead [] [] message.now.side wire.now }
    ensures beside { (first old : W) (ahead since beside more : List ℕ) → Grown (W.past old) (W.past wire.now) [] more
        → Came W.Wire first ahead since beside message.now.side old → Came W.Wire first ahead since (beside ++ more) message.now.side wire.now }
{}

/// Messages that come one after the other over a connection: what it gave is their texts in their order, and then the bytes that are left
/// over, of which none is lost and none is read twice. The next message begins with just these ([`Incoming::next`]), so the law holds of
/// as many messages as there are. What the connection takes meanwhile, as an answer, changes nothing of that.
pub fn messages_follow_one_another<B: Ledgers, W: Wires>(running: &Running<B, W>)
    ensures none { (wire : W.SourceWire) → GaveTexts W.SourceWire.Wire wire wire [] [] }
    ensures meanwhile { (first old new : W.SourceWire) (texts left more : List ℕ) → Grown (W.SourceWire.past old) (W.SourceWire.past new) [] more
        → GaveTexts W.SourceWire.Wire first old texts left → GaveTexts W.SourceWire.Wire first new texts left }
    ensures further { (s : Snapshot W.SourceWire W.ServiceWire W.NextWire) (first : W.SourceWire) (texts : List ℕ)
        → ⟦<Tx<B, OwnEnds<W>> as Accounting<W>>⟧.since s running.now.tx → GaveTexts W.SourceWire.Wire first s.source texts s.ahead
        → (text : List ℕ) × IsMessageText running.now.tx.ends running.now.tx.hold text
        × GaveTexts W.SourceWire.Wire first running.now.tx.ends.source_wire (texts ++ text) running.now.tx.ends.source.raw.items }
{
    a_running_transaction_takes_one_message(running);
}

/// Begins a transaction, makes calls of it, and says what its wires gave and took: the source's since the first read of the message; the
/// next hop's since the beginning; the service's connection since the request began on it, up to when it was given up, if it was. These
/// are just the texts of [`the_wires_take_one_message`], with the offer's own request. It holds of all calls and of wires of any kind.
///
/// Everything comes back where [`may_begin`] says that none may begin.
pub fn over_all_calls_the_wires_take_one_message<B: Ledgers, W: Wires>(
    rt: &impl Wait,
    alloc: Global,
    bank: &Bank<B>,
    beginning: Beginning<B, W>,
    scratch: &mut Scratch,
    calls: &mut [RunningCall<W::ServiceWire>],
) -> Result<Running<B, W>, Beginning<B, W>>
    requires empty { (beginning.stake.held ≡ 0) × (beginning.stake.pages ≡ 0) }
    requires claim { beginning.stake.claim ≡ claim_of beginning.offer.plan beginning.limits.window }
    requires small { beginning.stake.claim ≤ MAX_CAPACITY }
    ensures accepts { IsOk result ↔ MayBegin beginning.message beginning.offer (is_some beginning.way.service) }
    ensures took { IfOk result (λ running. (first : W.SourceWire) (ahead since beside : List ℕ) → Came W.SourceWire.Wire first ahead since beside beginning.message.side beginning.way.source
        → (line : Option W.ServiceWire) × (given : Option W.ServiceWire) × AreLines beginning.way.service calls.old line
        × ⟦<Tx<B, OwnEnds<W>> as Accounting<W>>⟧.took (record (first_snapshot (text_of beginning.offer.side) ahead beside first beginning.way.next line) { given = given }) running.tx) }
    ensures back { IfErr result (λ back. back ≡ beginning) }
{
    let is_connected = beginning.way.service.is_some();
    if !may_begin(&beginning.message, &beginning.offer, is_connected) {
        return Err(beginning);
    }
    let mut running = begin(alloc, beginning);
    running.call_all(rt, bank, scratch, calls);
    the_wires_take_one_message(&running.tx);
    Ok(running)
}

/// Of a transaction, wherever it stands, each byte that is held is one that some legal continuation still sends, and each byte that a
/// continuation sends is held, or comes within it. Such a continuation is the table's script, of at most seven events, the last of
/// which sends the byte.
pub fn each_held_byte_is_needed<B: Ledgers, W: Wires>(tx: &Tx<B, OwnEnds<W>>)
    ensures original { (place : ℕ) → IsIn (interval tx.now.hold.original) place ↔ IsNeeded Original tx.now.hold.history.plan tx.now.hold.history.events place }
    ensures adapted { (place : ℕ) → IsIn (interval tx.now.hold.adapted) place ↔ IsNeeded Adapted tx.now.hold.history.plan tx.now.hold.history.events place }
    ensures scripts { (place : ℕ) → IsIn (interval tx.now.hold.original) place → IsScript Original place tx.now.hold.history.plan tx.now.hold.history.events (script_of Original (shows tx.now.hold.history) place)
        × (length (script_of Original (shows tx.now.hold.history) place) ≤ MAX_SCRIPT) }
    ensures adapted_scripts { (place : ℕ) → IsIn (interval tx.now.hold.adapted) place → IsScript Adapted place tx.now.hold.history.plan tx.now.hold.history.events (script_of Adapted (shows tx.now.hold.history) place)
        × (length (script_of Adapted (shows tx.now.hold.history) place) ≤ MAX_SCRIPT) }
{
    // For the proof alone: its state is that of its history.
    let _ = tx.seen();
}
