//! Cutting a text into its lines, a line into its fields and a field at a sign, each at the front.

ghost use Rattle.std.specs.Prelude.{◌≡◌, ◌≢◌, ◌++◌, ◌∷◌, [], ℕ, List, IfSome, IfNone, MatchOption, OnSome, slice_index_or};
ghost use Rattle.std.specs.Option.{option_copied};
ghost use Rattle.trace.specs.Cuts.{fields_of, fields_left, lines_of, parts, parts_left};
ghost use Rattle.trace.specs.Faults.{line_at};
ghost use Rattle.trace.specs.Words.{AllRight};

/// The first line of a text, without its line feed, and what follows that; `None` where no line is
/// ended.
pub(crate) fn take_line(text: &[u8]) -> Option<(&[u8], &[u8])>
    ensures ended { IfSome result (λ cut. text.now ≡ cut.0.now ++ 10 ∷ cut.1.now) }
    ensures lines { IfSome result (λ cut. lines_of text.now ≡ cut.0.now ∷ lines_of cut.1.now) }
    ensures none { IfNone result (lines_of text.now ≡ text.now ∷ []) }
{
    match memchr::memchr(b'\n', text) {
        Some(i) => Some((&text[..i], &text[i + 1..])),
        None => None,
    }
}

/// The line of a text by its number from 1 on, or none of its bytes where there is no such line.
pub fn line_of(text: &[u8], number: u64) -> &[u8]
    ensures { result.now ≡ line_at text.now number }
{
    let mut rest = text;
    let mut left = number;
    while left > 1 {
        let Some((_, after)) = take_line(rest) else {
            return &[];
        };
        rest = after;
        left -= 1;
    }
    match take_line(rest) {
        Some((line, _)) => line,
        None => rest,
    }
}

/// The first field of a line, and what follows its space, where there is one.
pub(crate) fn take_field(line: &[u8]) -> (&[u8], Option<&[u8]>)
    ensures { fields_of line.now ≡ result.0.now ∷ fields_left (option_copied result.1) }
{
    for (i, c) in line.iter().enumerate() {
        if *c == b' ' {
            return (&line[..i], Some(&line[i + 1..]));
        }
    }
    (line, None)
}

/// The nth of the fields that are left, from 0 on, or none of its bytes.
pub(crate) fn nth_field(rest: Option<&[u8]>, n: usize) -> &[u8]
    ensures { result.now ≡ slice_index_or (fields_left (option_copied rest.entry)) n [] }
{
    let Some(line) = rest else {
        return &[];
    };
    let (field, rest) = take_field(line);
    if n == 0 {
        return field;
    }
    nth_field(rest, n - 1)
}

/// Takes off the first of the fields that are left.
pub(crate) fn next_field<'a>(rest: &mut Option<&'a [u8]>) -> Option<&'a [u8]>
    ensures some { IfSome result (λ field. fields_left (option_copied rest.old) ≡ field.now ∷ fields_left (option_copied rest.new)) }
    ensures none { IfNone result (fields_left (option_copied rest.old) ≡ []) }
{
    let (field, left) = take_field((*rest)?);
    *rest = left;
    Some(field)
}

/// Whether no field is left.
pub(crate) fn at_end(rest: Option<&[u8]>) -> Option<()>
    ensures some { OnSome result (fields_left (option_copied rest.entry) ≡ []) }
    ensures none { IfNone result (¬ AllRight [] (fields_left (option_copied rest.entry))) }
{
    match rest {
        Some(_) => None,
        None => Some(()),
    }
}

/// What stands before the first of these signs, and what follows that, where there is one.
pub(crate) fn cut(bytes: &[u8], sign: u8) -> (&[u8], Option<&[u8]>)
    ensures { parts sign bytes.now ≡ result.0.now ∷ parts_left sign (option_copied result.1) }
{
    match memchr::memchr(sign, bytes) {
        Some(i) => (&bytes[..i], Some(&bytes[i + 1..])),
        None => (bytes, None),
    }
}

/// What follows this word, where a field begins with it.
pub(crate) fn behind<'a>(field: &'a [u8], word: &[u8]) -> Option<&'a [u8]>
    ensures { MatchOption result ((rest : List ℕ) → field.now ≢ word.now ++ rest) (λ rest. field.now ≡ word.now ++ rest.now) }
{
    field.strip_prefix(word)
}
