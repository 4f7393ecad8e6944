//! A line of a file: a call and its answer.

/// A call's words, and the answer that it must give.
#[derive(Clone, Copy)]
pub(crate) struct Row<'a> {
    pub call: &'a str,
    pub answer: &'a str,
}

/// The row that a line has, none where it is empty or a comment, which begins with `#`. The answer stands behind ` = `; a
/// line without it is a call that answers `ok`.
pub(crate) fn row_of(line: &str) -> Option<Row<'_>> {
    if line.is_empty() || line.starts_with('#') {
        return None;
    }
    match line.split_once(" = ") {
        Some((call, answer)) => Some(Row { call, answer }),
        None => Some(Row {
            call: line,
            answer: "ok",
        }),
    }
}
