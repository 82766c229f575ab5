//! Which pairs are asked about, and when inputs change, as the words say it.

use td_inputs::{Given, Taken};

/// The words about inputs. Each may be left out.
#[derive(Clone, Copy)]
pub struct Inputs<'a> {
    /// Those by place.
    pub given: Given<'a>,
    /// Those by name, in order.
    pub named: &'a [Taken<'a>],
}

/// The question of a search.
#[derive(Clone, Copy)]
pub struct Question<'a> {
    pub inputs: Inputs<'a>,
    /// At how many inputs, at most, the two vectors differ.
    pub flips: Option<u64>,
    /// The file that has more conditions.
    pub keep_file: Option<&'a str>,
    /// The text of that file, once it is read.
    pub keep_text: Option<&'a [u8]>,
}
