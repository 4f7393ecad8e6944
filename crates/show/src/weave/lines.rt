//! Taking lines off the front of a text.

ghost use Rattle.std.specs.Prelude.{◌≡◌, ◌<◌, ◌++◌, ◌∷◌, [], length, IfSome};

/// The first line of a text, without its line feed, and what follows that.
pub fn take_line(text: &[u8]) -> Option<(&[u8], &[u8])>
    ensures cut { IfSome result (λ cut. text.now ≡ cut.0.now ++ 10 ∷ cut.1.now) }
    ensures less { IfSome result (λ cut. length cut.1.now < length text.now) }
{
    match memchr::memchr(b'\n', text) {
        Some(i) => Some((&text[..i], &text[i + 1..])),
        None => None,
    }
}
