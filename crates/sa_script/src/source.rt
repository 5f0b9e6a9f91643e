//! The source text of a statement: its piece without the white space at both ends.

ghost use Rattle.std.specs.Prelude.{◌≡◌};
ghost use Rattle.std.specs.Str.{IsCharBoundary};
ghost use Rattle.sa_lexer.specs.Byte as bytes;
ghost use Rattle.sa_script.specs.Piece as spec;

/// A statement's source text.
pub(crate) fn source_of(text: &str) -> &str
    ensures { result.now ≡ spec.source_of text.now }
{
    without_end(&text[front_space(text)..])
}

/// How many bytes of white space stand at the front.
pub(crate) fn front_space(text: &str) -> usize
    ensures count { result ≡ spec.front_space text.now }
    ensures cut { IsCharBoundary text.now result }
{
    let bytes = text.as_bytes();
    let mut count = 0;
    while count < bytes.len() && is_space(bytes[count]) {
        count += 1;
    }
    count
}

/// The text without the white space at its end.
fn without_end(text: &str) -> &str
    ensures { result.now ≡ spec.trimmed_end text.now }
{
    let bytes = text.as_bytes();
    let mut end = bytes.len();
    while end > 0 && is_space(bytes[end - 1]) {
        end -= 1;
    }
    &text[..end]
}

/// Whether a byte is white space: a tab, a line feed, a vertical tab, a form feed, a carriage return
/// or a space.
fn is_space(byte: u8) -> bool
    ensures { result ≡ bytes.is_space byte }
{
    matches!(byte, 9..=13 | 32)
}
