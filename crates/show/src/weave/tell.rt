//! Who says what is to stand between the records.

use crate::weave::text::Text;

/// Says of events, one after another, what each was and what came of it.
pub trait Tell {
    /// What the last event was.
    fn head(&self) -> &Text;

    /// What came of it.
    fn tail(&self) -> &Text;

    /// Goes on to the next event.
    fn next(&mut self);

    /// Says how it ended, in place of the last event.
    fn end(&mut self);
}
