//! The header of the PROXY protocol that a user's connection begins with, where that is configured.

ghost use Rattle.std.specs.Prelude.{◌≡◌, Some, option_map};
ghost use Rattle.proxy_config.specs.Networks.{MayUse};
ghost use Rattle.proxy_config.specs.declared.config.Config.{Config as AnyConfig};
ghost use Rattle.shard_desk.specs.Seats.{user_address};
ghost use Rattle.shard_desk.specs.declared.seat.Purpose.{Purpose as AnyPurpose};

use crate::hearing::Hearing;
use crate::reporter::Reporter;
use crate::seat::Purpose;
use crate::seats::Seats;
use crate::shared::Shares;
use proxy_config::may_use;
use proxy_header::{MAX_HEADER, Reading, read};
use socket_wire::UserWire;
use std::net::Ipv4Addr;
use std::sync::Wait;
use wire_kit::Got;

/// The header of a connection, which is read where it is whole. What comes after it stays.
pub(crate) fn header_of(user: &mut UserWire) -> Reading {
    let mut bytes = [0u8; MAX_HEADER];
    // All that came before an end is there once the end was reported.
    let is_closed = user.is_closed();
    let count = match user.look(&mut bytes) {
        Got::Bytes(count) => count,
        Got::Wait => 0,
        Got::Ended | Got::Fault => return Reading::Fault,
    };
    match read(&bytes[..count]) {
        Reading::Whole(header) => {
            let is_read = match bytes.get_mut(..header.length) {
                Some(own) => user.skip(own),
                None => false,
            };
            if is_read {
                Reading::Whole(header)
            } else {
                Reading::Fault
            }
        }
        Reading::Partial if !is_closed => {
            user.await_bytes();
            Reading::Partial
        }
        Reading::Partial | Reading::Fault => Reading::Fault,
    }
}

/// Takes note of a user that is to be refused.
fn turn_away(reporter: &mut Reporter, key: usize, purpose: Purpose) {
    if purpose == Purpose::Refusal {
        reporter.turn_away(key);
    }
}

/// Takes note of where the connection under this key comes from, as its header says, and judges who may use the proxy by that.
pub(crate) fn announce<S: Shares, R: Wait>(
    rt: &R,
    shared: &S,
    seats: &mut Seats,
    reporter: &mut Reporter,
    key: usize,
    from: Ipv4Addr,
) -> Hearing
    ensures may { (purpose : AnyPurpose) → result ≡ Hearing.Begins purpose → (config : AnyConfig) × S.config_is shared.now config
        × MayUse (option_map (λ vec. vec.items) config.users) from }
    ensures seat { (purpose : AnyPurpose) → result ≡ Hearing.Begins purpose → user_address seats.new key ≡ Some from }
{
    if !may_use(&shared.config().users, from) {
        shared.room().refuse();
        return Hearing::Ends;
    }
    let share = shared.addresses().lock(rt).enter(from);
    reporter.announce(key, from);
    let Some(purpose) = seats.announce(key, from, share) else {
        return Hearing::Full;
    };
    turn_away(reporter, key, purpose);
    Hearing::Begins(purpose)
}
