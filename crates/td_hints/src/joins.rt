//! Why certificates aren't joined.

ghost use Rattle.std.specs.Prelude.{◌≡◌};
ghost use Rattle.td_hints.specs.Joins.{sentence, advice};

use td_join::JoinFault;

/// What is wrong.
pub fn sentence<P>(fault: &JoinFault<P>) -> &'static [u8]
    ensures { result.now ≡ sentence fault.now }
{
    match fault {
        JoinFault::OutOfMemory => b"memory ran out",
        JoinFault::NoCertificate => b"there is no certificate to join",
        JoinFault::OtherCircuit(_, _) => {
            b"the two are of circuits with other numbers of inputs or gates"
        }
        JoinFault::OtherHold(_, _) => b"the two are of questions with other inputs held (--hold)",
        JoinFault::OtherFlips(_, _) => b"the two are of questions with another --flips",
        JoinFault::OtherMoments(_, _) => b"the two are of questions with another --at",
        JoinFault::OtherTerms(_, _) => {
            b"the two are of questions with other default delays or another --output"
        }
        JoinFault::Outside(_) => {
            b"its pins aren't a part of those of the whole (--first, --second)"
        }
        JoinFault::Overlap(_, _) => b"an admitted pair lies in both",
        JoinFault::Crossed(_, _) => {
            b"both lie in a cube that no bit halves so that each part lies in one of the halves"
        }
        JoinFault::Gap(_) => b"a part is missing: admitted pairs lie in no certificate",
        JoinFault::FalseNone(_) => {
            b"a leaf of it claims that no pair lies in its cube, but all pairs are admitted"
        }
    }
}

/// What to do about it.
pub fn advice<P>(fault: &JoinFault<P>) -> &'static [u8]
    ensures { result.now ≡ advice fault.now }
{
    match fault {
        JoinFault::OutOfMemory => b"give it more memory",
        JoinFault::NoCertificate => b"name the certificates of all parts",
        JoinFault::OtherCircuit(_, _) => b"one of them is of another netlist",
        JoinFault::OtherHold(_, _) => {
            b"one of them is of another question: search it again with the options that `parts` printed"
        }
        JoinFault::OtherFlips(_, _) => {
            b"one of them is of another question: search it again with the options that `parts` printed"
        }
        JoinFault::OtherMoments(_, _) => {
            b"one of them is of another question: search it again with the options that `parts` printed"
        }
        JoinFault::OtherTerms(_, _) => {
            b"one of them is of another question: search it again with the options that `parts` printed"
        }
        JoinFault::Outside(_) => {
            b"it is of another part of the pairs: leave it out, or loosen --first and --second"
        }
        JoinFault::Overlap(_, _) => b"give each part once, and only parts of one call of `parts`",
        JoinFault::Crossed(_, _) => b"give only parts of one call of `parts`",
        JoinFault::Gap(_) => {
            b"search the missing part: worst with the --first and --second that the line above has, and --cert; then join all, or tell join the narrower question"
        }
        JoinFault::FalseNone(_) => b"the certificate is wrong: search that part again",
    }
}
