//! Addresses, as the log and the administrator see them.

use exchange_report::Address;
use std::net::SocketAddrV4;

/// An address without its port.
pub fn address_of(address: SocketAddrV4) -> Address {
    let [first, second, third, fourth] = address.ip().octets();
    Address {
        first,
        second,
        third,
        fourth,
    }
}
