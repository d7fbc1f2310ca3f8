//! What the values of a configuration's keys may be, in words.

use proxy_config::{NumberKey, number_named};
use std::io::{self, Write};

/// A key's name, and what its value may be.
type Entry = (&'static str, &'static str);

/// The keys of the document whose values are no whole numbers with ranges of their own.
const OF_THE_DOCUMENT: [Entry; 19] = [
    (
        "listen",
        "an IPv4 address and a port, as \"127.0.0.1:3128\"",
    ),
    (
        "admin",
        "an IPv4 address and a port, as \"127.0.0.1:3129\", which isn't that of listen",
    ),
    ("retry", "true or false (default true)"),
    (
        "log",
        "the path of a file that can be opened, of 1 to 4096 bytes (default: no log)",
    ),
    ("log_query", "true or false (default true)"),
    (
        "metrics",
        "an IPv4 address and a port, as \"127.0.0.1:9140\", which isn't that of listen or admin (default: none)",
    ),
    (
        "users",
        "a list of networks, as [\"10.0.0.0/8\", \"192.0.2.7\"] (default: everyone)",
    ),
    (
        "denied",
        "a list of networks, as [\"127.0.0.0/8\"] (default: none)",
    ),
    ("client_ip", "true or false (default false)"),
    (
        "carry",
        "at most eight names of ICAP fields, each once, as [\"X-ICAP-E2G\"] (default none)",
    ),
    ("proxy_protocol", "true or false (default false)"),
    (
        "hosts_file",
        "the path of a file that can be opened, of 1 to 4096 bytes, in which each line has an IPv4 address and names, at most 67108864 bytes in all (default: none)",
    ),
    ("dial", "\"first\" or \"late\" (default \"first\")"),
    (
        "turn",
        "4096 to 65536 bytes, a multiple of 4096 and at most window (default 4096)",
    ),
    (
        "refusal_pages",
        "the path of a folder, of 1 to 4096 bytes, whose pages can be opened, each of at most 16384 bytes (default: plain texts)",
    ),
    (
        "hosts",
        "a table of host names, each with an IPv4 address and a port",
    ),
    ("reqmod", "a table with host, port, path and connections"),
    ("respmod", "a table with host, port, path and connections"),
    (
        "parent",
        "a table with host and port, which aren't those of listen, admin or metrics",
    ),
];

/// The keys of a service's table.
const OF_A_SERVICE: [Entry; 4] = [
    ("host", "an IPv4 address, as \"127.0.0.1\""),
    ("port", "1 to 65535 (default 1344)"),
    (
        "path",
        "a path that begins with / and has at most 1024 bytes, as \"/respmod\"",
    ),
    ("connections", "1 to 1024 (default 8)"),
];

/// The keys of the parent's table.
const OF_THE_PARENT: [Entry; 2] = [
    ("host", "an IPv4 address, as \"192.0.2.1\""),
    ("port", "1 to 65535"),
];

/// What the value of a host's name may be.
const OF_A_HOST: &str =
    "an IPv4 address and a port, as \"192.0.2.1:80\", for a name in quotation marks that stands once in any case of letters";

/// What is said of a key that there isn't.
const NO_KEY: &str = "there is no such key";

/// The words of a key's entry.
fn entry_of(entries: &[Entry], key: &str) -> &'static str {
    for (name, value) in entries {
        if *name == key {
            return value;
        }
    }
    NO_KEY
}

/// What the value of a key may be, and its default where it has one. A key of a table stands after the table's name and a dot.
fn value_of_key(key: &str) -> &'static str {
    if key.strip_prefix("hosts.").is_some() {
        return OF_A_HOST;
    }
    if let Some(inner) = key.strip_prefix("reqmod.") {
        return entry_of(&OF_A_SERVICE, inner);
    }
    if let Some(inner) = key.strip_prefix("respmod.") {
        return entry_of(&OF_A_SERVICE, inner);
    }
    if let Some(inner) = key.strip_prefix("parent.") {
        return entry_of(&OF_THE_PARENT, inner);
    }
    entry_of(&OF_THE_DOCUMENT, key)
}

/// Writes a line that says what the value of a key may be, and its default where it has one.
pub fn put_value_of_key<E: Write>(key: &str, errors: &mut E) -> io::Result<()> {
    let Some(number) = number_named(key) else {
        let value = value_of_key(key);
        return writeln!(errors, "adaptproxy: {key}: {value}");
    };
    let NumberKey {
        low,
        high,
        default,
        unit,
        meaning,
        ..
    } = number;
    let (colon, meaning) = match meaning {
        Some(meaning) => (": ", meaning),
        None => ("", ""),
    };
    writeln!(
        errors,
        "adaptproxy: {key}: {low} to {high} {unit} (default {default}{colon}{meaning})"
    )
}
