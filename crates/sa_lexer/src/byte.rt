ghost use Rattle.std.specs.Prelude.{◌≡◌};
ghost use Rattle.sa_lexer.specs.Byte.{is_space, is_word_byte};

/// Whether a byte is white space: a tab, a line feed, a vertical tab, a form feed, a carriage return
/// or a space.
pub(crate) fn is_space(byte: u8) -> bool
    ensures { result ≡ is_space byte }
{
    matches!(byte, 9..=13 | 32)
}

/// Whether a byte may stand in a word: a letter, a digit, `_`, `$`, or a part of a character past
/// ASCII.
pub(crate) fn is_word_byte(byte: u8) -> bool
    ensures { result ≡ is_word_byte byte }
{
    byte.is_ascii_alphanumeric() || byte == b'_' || byte == b'$' || byte >= 128
}
