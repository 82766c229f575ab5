//! The texts of the files that a request names.

/// The texts of the files that a request names.
#[derive(Clone, Copy)]
pub struct Texts<'n, 'c, 'w> {
    /// The netlist's.
    pub netlist: &'n [u8],
    /// Those of certificates, in the order of the request's names: the one of a check, and those of
    /// the parts of a join. There may be fewer, where a file can't be read: the request is answered
    /// as far as the texts go.
    pub certificates: &'c [Vec<u8>],
    /// That of the file of conditions, where the request names one.
    pub keep: Option<&'w [u8]>,
}
