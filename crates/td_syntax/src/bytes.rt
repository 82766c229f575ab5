//! Kinds of bytes.

ghost use Rattle.std.specs.Prelude.{◌≡◌};
ghost use Rattle.td_syntax.specs.Bytes.{is_blank, is_number_byte, is_run_byte, is_printable};

use td_nets::is_name_byte;

/// Whether a byte is white space: a space, a tab, an end of a line, or a form feed.
pub fn is_blank(b: u8) -> bool
    ensures { result ≡ is_blank b }
{
    b == b' ' || b == b'\n' || b == b'\t' || b == b'\r' || b == 12
}

/// Whether a byte may stand among the digits of a number: a digit or `_`.
pub fn is_number_byte(b: u8) -> bool
    ensures { result ≡ is_number_byte b }
{
    b.is_ascii_digit() || b == b'_'
}

/// Whether a name or a number goes on with this byte, or runs into it.
pub fn is_run_byte(b: u8) -> bool
    ensures { result ≡ is_run_byte b }
{
    is_name_byte(b) || b == b'.'
}

/// Whether an escaped name may have this byte: a character that is printed, and no white space.
pub fn is_printable(b: u8) -> bool
    ensures { result ≡ is_printable b }
{
    33 <= b && b <= 126
}
