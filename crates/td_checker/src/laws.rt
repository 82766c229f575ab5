//! Laws of the definitions. These functions run nothing.

ghost use Rattle.td_checker.specs.Checks.{TextsHaveOneVerdict};
ghost use Rattle.td_checker.specs.Verdicts.{OneVerdict};
ghost use Rattle.td_checker.specs.Written.{AcceptedIsWritten, TextIsAccepted};

/// A netlist and a certificate have at most one verdict.
pub fn one_verdict()
    ensures { OneVerdict }
{}

/// A netlist's text and a certificate's text have at most one verdict.
pub fn texts_have_one_verdict()
    ensures { TextsHaveOneVerdict }
{}

/// A certificate that is accepted, as an exact answer of a search gives it, can be written; its
/// text is within the limit, and the verdict on that text is `Accepted`.
pub fn accepted_is_written()
    ensures { AcceptedIsWritten }
{}

/// The verdict on the text of a certificate that is accepted is `Accepted`, whatever shows the
/// bounds of its leaves, where that text is within the limit.
pub fn text_is_accepted()
    ensures { TextIsAccepted }
{}
