//! How a request ends.

ghost use Rattle.std.specs.Prelude.{◌≡◌};
ghost use Rattle.td_answer.specs.Statuses.{code_of};

/// How a request ends.
#[derive(Clone, Copy, Debug, PartialEq, Eq, Drop)]
pub enum Status {
    /// The command was carried out, or help was asked for.
    Done,
    /// A netlist, a circuit or a certificate's text was refused.
    Refused,
    /// The command line or a vector was wrong.
    BadCommand,
    /// The worst delay, or what is asked of it, stays open.
    Between,
    /// The checker refused a certificate.
    Rejected,
    /// A device failed, or memory ran out.
    Device,
    /// A pair is later than the required moment.
    Violated,
}

impl Status {
    /// The exit status of the program.
    pub fn code(self) -> u8
        ensures { result ≡ code_of self }
    {
        match self {
            Status::Done => 0,
            Status::Refused => 1,
            Status::BadCommand => 2,
            Status::Between => 3,
            Status::Rejected => 4,
            Status::Device => 5,
            Status::Violated => 6,
        }
    }
}
