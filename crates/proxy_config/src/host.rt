//! A host name, its address, and a number that it is found by.

ghost use Rattle.std.specs.Prelude.{◌≡◌, IfOk, string_bytes};
ghost use Rattle.proxy_config.specs.Names.{number_from, number_of_name};

use std::alloc::{AllocError, Global};
use std::net::SocketAddrV4;

/// A host name and where it is.
#[derive(Drop)]
pub struct Host {
    pub name: String,
    pub address: SocketAddrV4,
    /// The number of its name.
    pub number: u64,
    ghost numbered: { number ≡ number_of_name (string_bytes name) },
}

/// Numbers of names are below this prime.
const NUMBERS: u64 = 4_294_967_291;

/// The number of a name: the same for names that differ in ASCII case alone, and mostly another for another name.
pub fn number_of(name: &[u8]) -> u64
    ensures { result ≡ number_of_name name.now }
{
    let mut number = 0;
    for byte in name {
        number = (number * 31 + u64::from(byte.to_ascii_lowercase())) % NUMBERS;
    }
    number
}

/// A host with its name.
pub fn host_at(alloc: Global, name: &str, address: SocketAddrV4) -> Result<Host, AllocError>
    ensures name { IfOk result (λ host. string_bytes host.name ≡ name.now) }
    ensures address { IfOk result (λ host. host.address ≡ address) }
{
    Ok(Host {
        number: number_of(name.as_bytes()),
        name: String::from_str(alloc, name)?,
        address,
    })
}
