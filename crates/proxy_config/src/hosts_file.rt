//! Reading a hosts file (hosts(5)): an address and the names at it a line.

ghost use Rattle.std.specs.Prelude.{◌≡◌, OnErr, IfOk, IfErr, MatchBool};
ghost use Rattle.proxy_config.specs.HostsFile.{lines_of, words_left, AddsLine, AddsNames, AreSaid, HasNoHosts, IsBadLine, IsHostsFault, IsIpv6Word, NamesHosts};
ghost use Rattle.proxy_config.specs.declared.hosts_file.HostsFault.TheVariants.{NoMemory as NothingLeft};

use crate::config::Config;
use crate::host::{Host, host_at};
use crate::hosts::HTTP_PORT;
use crate::sorting::sorted;
use crate::words::{Words, before, cut_line, words_of};
use std::alloc::{AllocError, Global};
use std::net::{Ipv4Addr, Ipv6Addr, SocketAddrV4};
use std::str;

/// Why a hosts file isn't taken.
#[derive(Clone, Copy)]
pub enum HostsFault {
    /// This line, counted from 1, can't be read: it is the first of these.
    Line(u64),
    /// No memory was found for its names.
    NoMemory,
}

impl From<AllocError> for HostsFault {
    ghost from_gives = { λ _ fault. fault ≡ NothingLeft };

    fn from(_: AllocError) -> HostsFault {
        HostsFault::NoMemory
    }
}

/// Adds a host for each word, which is its name. Answers whether there was one, and each may be a name.
fn add_names(
    alloc: Global,
    address: SocketAddrV4,
    words: Words<'_>,
    hosts: &mut Vec<Host>,
) -> Result<bool, AllocError>
    ensures { IfOk result (λ good. MatchBool good
        (AddsNames address (words_left words.entry) hosts.old.items hosts.new.items) (HasNoHosts (words_left words.entry))) }
{
    let mut is_named = false;
    for word in words {
        let Ok(name) = str::from_utf8(word) else {
            return Ok(false);
        };
        let host = host_at(alloc, name, address)?;
        if hosts.push(host).is_err() {
            return Err(AllocError);
        }
        is_named = true;
    }
    Ok(is_named)
}

/// Whether a word is an IPv6 address, with its zone where it has one.
fn is_ipv6(word: &[u8]) -> bool
    ensures { MatchBool result (IsIpv6Word word.now) (IsIpv6Word word.now → ⊥) }
{
    match Ipv6Addr::parse_ascii(before(word, b'%')) {
        Ok(_) => true,
        Err(_) => false,
    }
}

/// Adds the hosts that a line says. Answers whether it can be read.
fn add_line(alloc: Global, line: &[u8], hosts: &mut Vec<Host>) -> Result<bool, AllocError>
    ensures { IfOk result (λ good. MatchBool good (AddsLine line.now hosts.old.items hosts.new.items) (IsBadLine line.now)) }
{
    let mut words = words_of(line);
    let Some(first) = words.next() else {
        return Ok(true);
    };
    if is_ipv6(first) {
        return Ok(true);
    }
    match Ipv4Addr::parse_ascii(first) {
        Ok(ip) => add_names(alloc, SocketAddrV4::new(ip, HTTP_PORT), words, hosts),
        Err(_) => Ok(false),
    }
}

/// Reads the hosts that a text says, in the order of its lines.
fn hosts_in(alloc: Global, text: &[u8]) -> Result<Vec<Host>, HostsFault>
    ensures ok { IfOk result (λ hosts. AreSaid (lines_of text.now) hosts.items) }
    ensures err { IfErr result (IsHostsFault text.now) }
{
    let mut hosts = Vec::new(alloc);
    let mut number = 0;
    let mut rest = Some(text);
    while let Some(text) = rest {
        let (line, after) = cut_line(text);
        number += 1;
        if !add_line(alloc, line, &mut hosts)? {
            return Err(HostsFault::Line(number));
        }
        rest = after;
    }
    Ok(hosts)
}

impl Config {
    /// Reads the text of the hosts file, puts its names in place of those that stood, and answers how many they are, each
    /// counted wherever it stands. A name that stands twice is where its first line says.
    ///
    /// ```
    /// let text = b"192.0.2.7 www.example.org www # the school's\n";
    /// assert_eq!(rt; config.name_hosts(alloc, text), Ok(2));
    /// ```
    pub fn name_hosts(&mut self, alloc: Global, text: &[u8]) -> Result<u64, HostsFault>
        ensures ok { IfOk result (NamesHosts text.now self.old self.new) }
        ensures err { IfErr result (IsHostsFault text.now) }
        ensures kept { OnErr result (self.new ≡ self.old) }
    {
        let hosts = hosts_in(alloc, text)?;
        let count = hosts.len() as u64;
        self.hosts.file = sorted(hosts)?;
        Ok(count)
    }
}
