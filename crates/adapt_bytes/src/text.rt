//! Tokens, blanks at the ends of a text, and comparison without case.
ghost use Rattle.std.specs.Prelude.{◌≡◌, ◌↔◌, reverse, IsTrue};
ghost use Rattle.std.specs.Str.{str_eq_ignore_ascii_case};
ghost use Rattle.adapt_bytes.specs.Text.{is_token_byte, IsToken, is_blank, skip_blanks, trim};

/// Whether two texts are equal, ignoring ASCII case.
pub fn same_ascii(a: &[u8], b: &[u8]) -> bool
    ensures { result ≡ str_eq_ignore_ascii_case a.now b.now }
{
    a.eq_ignore_ascii_case(b)
}

/// Whether the text is a token: one or more token characters, and nothing else (RFC 9110, section 5.6.2).
pub fn is_token(text: &[u8]) -> bool
    ensures { IsTrue result ↔ IsToken text.now }
{
    !text.is_empty() && text.iter().all(|b| is_token_byte(*b))
}

#[tactic(auto, unfolding(crate::specs::Text::is_token_byte))]
fn is_token_byte(byte: u8) -> bool
    ensures { result ≡ is_token_byte byte }
{
    byte.is_ascii_alphanumeric()
        || matches!(
            byte,
            b'!' | b'#'
                | b'$'
                | b'%'
                | b'&'
                | b'\''
                | b'*'
                | b'+'
                | b'-'
                | b'.'
                | b'^'
                | b'_'
                | b'`'
                | b'|'
                | b'~'
        )
}

/// Whether the byte is a space or a tab.
pub fn is_blank(byte: u8) -> bool
    ensures { result ≡ is_blank byte }
{
    byte == b' ' || byte == b'\t'
}

/// The text without the spaces and tabs at both ends (OWS of RFC 9110, section 5.6.3).
#[tactic(auto, unfolding(crate::specs::Text::trim))]
pub fn trim(text: &[u8]) -> &[u8]
    ensures { result.now ≡ trim text.now }
{
    trim_end(trim_start(text))
}

fn trim_start(mut text: &[u8]) -> &[u8]
    ensures { result.now ≡ skip_blanks text.now }
{
    while let [first, rest @ ..] = text
        && is_blank(*first)
    {
        text = rest;
    }
    text
}

fn trim_end(mut text: &[u8]) -> &[u8]
    ensures { result.now ≡ reverse (skip_blanks (reverse text.now)) }
{
    while let [rest @ .., last] = text
        && is_blank(*last)
    {
        text = rest;
    }
    text
}
