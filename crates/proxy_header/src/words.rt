//! The words of a line: addresses and ports (proxy-protocol.txt, section 2.1).

ghost use Rattle.std.specs.Prelude.{◌≡◌, ℕ, List, [], ◌∷◌, ◌++◌, IsTrue, IsFalse, IfSome, IfNone};
ghost use Rattle.std.specs.Net.Grammar.{IsIpv4Text};
ghost use Rattle.std.specs.declared.net.ipv4_addr.Ipv4Addr.{Ipv4Addr as AnyIp};
ghost use Rattle.adapt_bytes.specs.Numeral.{HasNoLeadingZero};
ghost use Rattle.adapt_bytes.specs.Text.{Lacks};
ghost use Rattle.proxy_header.specs.Lines.{IsConnection, IsPort, words};

use adapt_bytes::{MAX_PORT, read_decimal};
use std::net::Ipv4Addr;

/// The text after a word that it begins with.
pub(crate) fn after<'a>(text: &'a [u8], word: &[u8]) -> Option<&'a [u8]>
    ensures found { IfSome result (λ rest. text.now ≡ word.now ++ rest.now) }
    ensures none { IfNone result ((rest : List ℕ) → text.now ≡ word.now ++ rest → ⊥) }
{
    match text.strip_prefix(word) {
        Some(rest) => Some(rest),
        None => None,
    }
}

/// Whether a text begins with a word.
pub(crate) fn begins(text: &[u8], word: &[u8]) -> bool
    ensures yes { IsTrue result → (rest : List ℕ) × (text.now ≡ word.now ++ rest) }
    ensures no { IsFalse result → (rest : List ℕ) → text.now ≡ word.now ++ rest → ⊥ }
{
    match after(text, word) {
        Some(_) => true,
        None => false,
    }
}

/// The address that a text says.
fn ip_in(text: &[u8]) -> Option<Ipv4Addr>
    ensures found { IfSome result (IsIpv4Text text.now) }
    ensures none { IfNone result ((ip : AnyIp) → IsIpv4Text text.now ip → ⊥) }
{
    match Ipv4Addr::parse_ascii(text) {
        Ok(ip) => Some(ip),
        Err(_) => None,
    }
}

/// Whether a text is the digit 0, or doesn't begin with it.
fn has_no_leading_zero(text: &[u8]) -> bool
    ensures yes { IsTrue result → HasNoLeadingZero text.now }
    ensures no { IsFalse result → HasNoLeadingZero text.now → ⊥ }
{
    match text {
        [b'0'] => true,
        [b'0', ..] => false,
        _ => true,
    }
}

/// Whether a text is a port.
fn is_port(text: &[u8]) -> bool
    ensures yes { IsTrue result → IsPort text.now }
    ensures no { IsFalse result → IsPort text.now → ⊥ }
{
    if !has_no_leading_zero(text) {
        return false;
    }
    match read_decimal(text) {
        Some(port) => port <= MAX_PORT,
        None => false,
    }
}

/// What stands before a text's first space, and after it. `None` where it has none.
fn cut_at_space(text: &[u8]) -> Option<(&[u8], &[u8])>
    ensures found { IfSome result (λ cut. (text.now ≡ cut.0.now ++ 32 ∷ cut.1.now) × Lacks 32 cut.0.now) }
    ensures none { IfNone result (Lacks 32 text.now) }
{
    let at = text.iter().position(|byte| *byte == b' ')?;
    Some((&text[..at], &text[at + 1..]))
}

/// A text's first word, and what follows the space after it. `None` where it has no space.
fn cut_word(text: &[u8]) -> Option<(&[u8], &[u8])>
    ensures found { IfSome result (λ cut. words text.now ≡ cut.0.now ∷ words cut.1.now) }
    ensures none { IfNone result (words text.now ≡ text.now ∷ []) }
{
    match cut_at_space(text) {
        Some((word, rest)) => Some((word, rest)),
        None => None,
    }
}

/// A text's words, where there are four.
fn four_words(text: &[u8]) -> Option<(&[u8], &[u8], &[u8], &[u8])>
    ensures found { IfSome result (λ four. words text.now ≡ four.0.now ∷ four.1.now ∷ four.2.now ∷ four.3.now ∷ []) }
    ensures none { IfNone result ((a b c d : List ℕ) → words text.now ≡ a ∷ b ∷ c ∷ d ∷ [] → ⊥) }
{
    let (first, rest) = cut_word(text)?;
    let (second, rest) = cut_word(rest)?;
    let (third, fourth) = cut_word(rest)?;
    match cut_word(fourth) {
        Some(_) => None,
        None => Some((first, second, third, fourth)),
    }
}

/// Whether both texts are ports.
fn are_ports(source: &[u8], target: &[u8]) -> bool
    ensures yes { IsTrue result → IsPort source.now × IsPort target.now }
    ensures no { IsFalse result → IsPort source.now → IsPort target.now → ⊥ }
{
    is_port(source) && is_port(target)
}

/// Where a connection comes from, of which a text says both addresses and both ports.
pub(crate) fn source_in(text: &[u8]) -> Option<Ipv4Addr>
    ensures found { IfSome result (IsConnection text.now) }
    ensures none { IfNone result ((ip : AnyIp) → IsConnection text.now ip → ⊥) }
{
    let Some((source, target, source_port, target_port)) = four_words(text) else {
        return None;
    };
    if !are_ports(source_port, target_port) {
        return None;
    }
    match ip_in(target) {
        Some(_) => ip_in(source),
        None => None,
    }
}
