//! The types of a transaction of the proxy's own sides.

use crate::head_maker::HeadMaker;
use adapt_turn::{EndTypes, Tx};
use http_relay::{HopWriter, SourceSide};
use icap_client::ServiceSide;
use std::marker::PhantomData;
use wire_kit::Wire;

/// The types of a transaction's wires. A tuple of three types names them in this order.
pub trait Wires {
    type SourceWire: Wire + Drop;

    type ServiceWire: Wire + Drop;

    type NextWire: Wire + Drop;
}

impl<A: Wire + Drop, W: Wire + Drop, C: Wire + Drop> Wires for (A, W, C) {
    type SourceWire = A;

    type ServiceWire = W;

    type NextWire = C;
}

/// The way of a message: its wires, from the source over the service to the next hop.
#[derive(Drop)]
pub struct Way<W: Wires> {
    pub source: W::SourceWire,
    /// None where the message isn't offered, or the connection was given up.
    pub service: Option<W::ServiceWire>,
    pub next: W::NextWire,
}

/// The proxy's own sides, over wires of these types. It stands for types alone: there is no value of it.
pub struct OwnEnds<W> {
    wires: PhantomData<W>,
}

impl<W: Wires> EndTypes for OwnEnds<W> {
    type Reader = SourceSide;

    type Client = ServiceSide;

    type Writer = HopWriter;

    type Maker = HeadMaker;

    type SourceWire = W::SourceWire;

    type ServiceWire = W::ServiceWire;

    type NextWire = W::NextWire;
}

/// A transaction of the proxy's own sides.
pub type OwnTx<B, W> = Tx<B, OwnEnds<W>>;
