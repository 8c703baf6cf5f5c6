ghost use Rattle.std.specs.Prelude.{◌≡◌};
ghost use Rattle.c_tree.specs.Scan as scan;

/// A space or a tab.
pub fn is_blank(byte: u8) -> bool
    ensures { result ≡ scan.is_blank byte }
{
    matches!(byte, b' ' | b'\t')
}

pub fn is_white(byte: u8) -> bool
    ensures { result ≡ scan.is_white byte }
{
    matches!(byte, b' ' | b'\t' | b'\r' | b'\n')
}

pub fn is_digit(byte: u8) -> bool
    ensures { result ≡ scan.is_digit byte }
{
    matches!(byte, b'0'..=b'9')
}

/// A letter or `_`, with which a name begins (C99 6.4.2.1).
pub fn is_letter(byte: u8) -> bool
    ensures { result ≡ scan.is_letter byte }
{
    matches!(byte, b'A'..=b'Z' | b'a'..=b'z' | b'_')
}

pub fn is_name_byte(byte: u8) -> bool
    ensures { result ≡ scan.is_name_byte byte }
{
    is_letter(byte) || is_digit(byte)
}

/// Whether the byte stands for itself in a string.
pub fn is_text(byte: u8) -> bool
    ensures { result ≡ scan.is_text byte }
{
    match byte {
        b'"' | b'\\' => false,
        b'\t' | b' '..=b'~' | 0x80..=0xFF => true,
        _ => false,
    }
}

/// Whether the byte stands for itself in a character.
pub fn is_character(byte: u8) -> bool
    ensures { result ≡ scan.is_character byte }
{
    match byte {
        b'\'' | b'\\' => false,
        b' '..=b'~' => true,
        _ => false,
    }
}
