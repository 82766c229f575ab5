//! Where an attribute ends.

ghost use Rattle.std.specs.Prelude.{◌≡◌, ◌≤◌, length, IfSome};
ghost use Rattle.td_syntax.specs.Lexical.{closes, behind_byte, end_behind};
ghost use Rattle.td_syntax.specs.declared.attribute.Place.TheVariants.{Plain};

/// What stands before a byte of an attribute.
#[derive(Clone, Copy, Debug, PartialEq, Eq)]
pub enum Place {
    Plain,
    /// A `*`, which a `)` may follow to end the attribute.
    Star,
    /// A quoted text that isn't closed.
    Quoted,
    /// A backslash in a quoted text, which takes the next byte with it there.
    Escaped,
}

fn closes(place: Place, byte: u8) -> bool
    ensures { result ≡ closes place byte }
{
    matches!(place, Place::Star) && byte == b')'
}

fn behind(place: Place, byte: u8) -> Place
    ensures { result ≡ behind_byte place byte }
{
    match place {
        Place::Plain | Place::Star => match byte {
            b'"' => Place::Quoted,
            b'*' => Place::Star,
            _ => Place::Plain,
        },
        Place::Quoted => match byte {
            b'"' => Place::Plain,
            b'\\' => Place::Escaped,
            _ => Place::Quoted,
        },
        Place::Escaped => Place::Quoted,
    }
}

/// How many bytes of the text there are up to the end of the attribute, if it ends. The text is
/// what follows the `(*`.
pub fn attribute_len(text: &[u8]) -> Option<usize>
    ensures place { result ≡ end_behind Plain text.now }
    ensures within { IfSome result (λ n. n ≤ length text.now) }
{
    let mut place = Place::Plain;
    for (i, byte) in text.iter().enumerate() {
        if closes(place, *byte) {
            return Some(i + 1);
        }
        place = behind(place, *byte);
    }
    None
}
