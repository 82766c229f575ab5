//! Verdicts of the checker on a certificate.

ghost use Rattle.std.specs.Prelude.{◌≡◌};
ghost use Rattle.td_hints.specs.Verdicts.{flaw_sentence, sentence, advice};

use td_checker::Verdict;
use td_refutation::Flaw;

/// Why a line of a refutation isn't good.
pub fn flaw_sentence(flaw: Flaw) -> &'static [u8]
    ensures { result.now ≡ flaw_sentence flaw }
{
    match flaw {
        Flaw::WrongNumbers => b"a line with too few numbers, too many, or one that is out of range",
        Flaw::LateVariable => b"a variable after a step",
        Flaw::NotGood => b"a step that doesn't hold of this circuit",
    }
}

/// What is wrong with the certificate.
pub fn sentence(verdict: Verdict) -> &'static [u8]
    ensures { result.now ≡ sentence verdict }
{
    match verdict {
        Verdict::Accepted => b"the certificate is right",
        Verdict::PairTime => b"the delay of its pair isn't its time",
        Verdict::LeafBound(_) => {
            b"a leaf's number is less than the bound of its cube, or isn't the delay of its pair"
        }
        Verdict::LeafAboveTime(_) => {
            b"a leaf's number is greater than the certificate's time, or than the number of its line high"
        }
        Verdict::BadPosition(_) => b"a split at a position that doesn't exist or isn't free there",
        Verdict::NotAPoint(_) => b"a leaf of one pair where a bit is still free",
        Verdict::OtherCircuit => {
            b"its numbers of inputs and gates, or its conditions, don't fit the circuit"
        }
        Verdict::PairNotAdmitted => {
            b"its pair isn't one that its lines first, second, hold, flips and keep admit"
        }
        Verdict::LeafNotEmpty(_) => {
            b"a leaf has to show that no admitted pair lies in its cube, and doesn't"
        }
        Verdict::BadStep(_, flaw) => flaw_sentence(flaw),
        Verdict::OtherQuestion(_) => b"it is about other default delays, or about other outputs",
    }
}

/// What to do about it.
pub fn advice(verdict: Verdict) -> &'static [u8]
    ensures { result.now ≡ advice verdict }
{
    match verdict {
        Verdict::Accepted => b"there is nothing to do",
        Verdict::PairTime => {
            b"check it with the netlist, the default delays and the --output of its search; else search again"
        }
        Verdict::LeafBound(_) => {
            b"check it with the netlist, the default delays and the --output of its search; else search again"
        }
        Verdict::LeafAboveTime(_) => b"the certificate is wrong: search again",
        Verdict::BadPosition(_) => b"the certificate is wrong: search again",
        Verdict::NotAPoint(_) => b"the certificate is wrong: search again",
        Verdict::OtherCircuit => {
            b"give the netlist that it was made for; `info` counts inputs and gates"
        }
        Verdict::PairNotAdmitted => b"the certificate is wrong: search again",
        Verdict::LeafNotEmpty(_) => b"the certificate is wrong: search again",
        Verdict::OtherQuestion(_) => {
            b"give the --default-rise, --default-fall and --output of its search: its line has them"
        }
        Verdict::BadStep(_, _) => {
            b"check it with the netlist, the default delays and the --output that it was made for; else make it again"
        }
    }
}
