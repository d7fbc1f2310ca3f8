//! `adaptproxy probe` over sockets.

ghost use Rattle.std.specs.Prelude.{◌≡◌};

use proxy_commands::{Error, ServeError, read_configuration};
use proxy_config::Config;
use service_probe::{Bench, SampleChoice, probe, read_choice};
use socket_wire::Dial;
use span_bank::{Bank, Blanks};
use std::alloc::Global;
use std::io::{self, ErrorKind, Read, Write};
use std::marker::Brand;
use std::net::Net;
use std::sync::Wait;
use std::sync::ledger::Ledger;
use std::time::Clock;

/// The size of the budget, in bytes: the largest message fits, with a window.
const CAPACITY: u64 = 2 * 1024 * 1024;

/// The choice that the arguments say, of which the first is `probe`.
fn choice_of(args: &[String]) -> Result<SampleChoice, ServeError> {
    match args {
        [_probe, words @ ..] => match read_choice(words) {
            Some(choice) => Ok(choice),
            None => Err(ServeError::Ended(Error::Usage)),
        },
        [] => Err(ServeError::Ended(Error::Usage)),
    }
}

/// Tries services on a budget of these ledgers, each of which has a part for one message, and one more.
fn probe_on<H: Ledger, F: Ledger, S: Ledger, P: Ledger, O: Write, R: Wait + Net + Dial + Clock>(
    rt: &R,
    alloc: Global,
    blanks: Blanks,
    config: &Config,
    choice: SampleChoice,
    output: &mut O,
) -> io::Result<bool>
    requires held { (blanks.held.name ≡ H.name) × (blanks.held.parts ≡ H.parts) × (blanks.held.parts ≡ 2) }
    requires free { (blanks.free.name ≡ F.name) × (blanks.free.parts ≡ F.parts) × (blanks.free.parts ≡ 2) }
    requires slack { (blanks.slack.name ≡ S.name) × (blanks.slack.parts ≡ S.parts) × (blanks.slack.parts ≡ 2) }
    requires pages { (blanks.pages.name ≡ P.name) × (blanks.pages.parts ≡ P.parts) × (blanks.pages.parts ≡ 2) }
{
    let bank: Bank<(H, F, S, P)> = Bank::new(alloc, blanks, CAPACITY, 1, 16)?;
    let bench = Bench {
        rt,
        alloc,
        bank: &bank,
        config,
        choice,
    };
    probe(&bench, output)
}

/// Tries the services that a configuration names, prints what they answer, and answers the exit status: 0 where they answered all by the
/// rules.
pub fn probe_from<I: Read + Drop, O: Write, R: Wait + Net + Dial + Clock>(
    rt: &R,
    alloc: Global,
    reader: I,
    args: &[String],
    output: &mut O,
) -> Result<u8, ServeError> {
    let choice = choice_of(args)?;
    let config = read_configuration(alloc, reader)?;
    let blanks = Blanks::new(2);
    let probed = probe_on::<Brand, Brand, Brand, Brand, O, R>(
        rt, alloc, blanks, &config, choice, output,
    );
    // Written as a call, the drop is proved once, and not at each place.
    drop(config);
    match probed {
        Ok(true) => Ok(0),
        Ok(false) => Ok(1),
        Err(error) if error.kind() == ErrorKind::OutOfMemory => {
            Err(ServeError::Ended(Error::NoMemory))
        }
        Err(_) => Err(ServeError::Ended(Error::WriteFailed)),
    }
}
