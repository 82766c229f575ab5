//! What a request says, as it is quoted.

/// A text that a request has, and the number of its line, where it is of a file.
#[derive(Clone, Copy, Drop)]
pub struct Quote<'w> {
    pub text: &'w [u8],
    pub line: Option<u64>,
}
