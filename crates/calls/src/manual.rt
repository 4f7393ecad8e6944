//! What a program says of itself to who asks for it.

/// The version of the programs, which is that of the library.
pub(crate) const VERSION: &str = "0.3.0";

/// What a program says of itself.
#[derive(Clone, Copy)]
pub struct Manual {
    /// Its name.
    pub name: &'static str,
    /// How a call looks, in a line.
    pub call: &'static str,
    /// What it takes, by some lines without the last one's end.
    pub help: &'static str,
}

/// What words ask a program to say of itself.
#[derive(Clone, Copy)]
pub(crate) enum Wish {
    Help,
    Version,
}

/// What the first word that asks for something asks for. Words after `--` are files.
pub(crate) fn wish_of(words: &[String]) -> Option<Wish> {
    for word in words {
        match word.as_str() {
            "--" => return None,
            "-h" | "--help" => return Some(Wish::Help),
            "-V" | "--version" => return Some(Wish::Version),
            _ => {}
        }
    }
    None
}
