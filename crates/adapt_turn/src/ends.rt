//! The ends of a transaction: what it begins with, and what is left of one.

use crate::head::MakesHead;
use crate::turn::Outcome;
use adapt_sides::{Hop, Service, Source};
use plan_rules::{Limits, Pace, Plan};
use span_bank::{Ledgers, Stake};
use trace_core::Seen;
use wire_kit::Wire;

/// The service's side with its wire: none once the connection was given up.
pub struct ServiceEnd<V, W> {
    pub side: V,
    pub wire: Option<W>,
}

/// A connection that a transaction gave up.
pub struct FreedConnection<W> {
    pub wire: W,
    /// Whether it may carry another request.
    pub is_reusable: bool,
}

/// The types of a transaction's ends: its sides, their wires, and the maker of the head that goes on.
pub trait EndTypes {
    /// Reads the message.
    type Reader: Source;
    /// Offers it to the service.
    type Client: Service;
    /// Writes the chosen message.
    type Writer: Hop;
    /// Makes the head of the chosen message.
    type Maker: MakesHead<Self::Reader, Self::Writer>;

    type SourceWire: Wire;

    type ServiceWire: Wire;

    type NextWire: Wire;
}

/// The sides of a transaction, and their wires.
pub struct Ends<E: EndTypes> {
    /// The message's source, whose head was read.
    pub source: E::Reader,
    pub source_wire: E::SourceWire,
    /// None under Plain.
    pub service: Option<ServiceEnd<E::Client, E::ServiceWire>>,
    /// The writer on the next hop's wire.
    pub next: E::Writer,
    pub next_wire: E::NextWire,
    /// The writer on the source's wire: of an answer to the user, at REQMOD.
    pub back: E::Writer,
    /// Makes the head of the chosen message.
    pub maker: E::Maker,
}

/// What a transaction begins with.
pub struct Start<B: Ledgers, E: EndTypes> {
    pub plan: Plan,
    pub limits: Limits,
    /// A reservation of just the plan's claim, of which nothing is held.
    pub stake: Stake<B>,
    pub ends: Ends<E>,
    pub pace: Pace,
}

/// What is left of a transaction that ended.
pub struct TxParts<B: Ledgers, E: EndTypes> {
    pub stake: Stake<B>,
    pub ends: Ends<E>,
    pub outcome: Outcome,
    /// What its history shows.
    pub seen: Seen,
}
