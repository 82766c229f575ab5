//! Leaves without an admitted pair, where each pair is admitted.

ghost use Rattle.std.specs.Prelude.{◌≡◌, ◌↔◌, false, IsTrue, IfErr, OnOk, All};
ghost use Rattle.td_certificate.specs.declared.question.Version.TheVariants.{First};
ghost use Rattle.td_certificate.specs.Questions.{version_of};
ghost use Rattle.td_join.specs.Joining.{says_none, has_none};
ghost use Rattle.td_join.specs.Steps.{IsFalseNoneIn};

use crate::fault::JoinFault;
use td_certificate::{Certificate, Node, Question, Tree, Version};

/// Whether the node is a leaf that says that no admitted pair lies in its cube.
fn says_none(node: &Node) -> bool
    ensures { result ≡ says_none node.now }
{
    matches!(node, Node::Empty)
}

/// Whether some leaf says so.
fn has_none(tree: &Tree) -> bool
    ensures { result ≡ has_none tree.now }
{
    tree.nodes().iter().any(|node| says_none(node))
}

/// Whether all pairs are admitted and all inputs change at moment 0.
fn is_of_all(question: &Question) -> bool
    ensures { IsTrue result ↔ (version_of question.now ≡ First) }
{
    matches!(question.version(), Version::First)
}

/// Where all pairs are admitted and all inputs change at moment 0: whether no leaf says that no
/// admitted pair lies in its cube. The error says whose does.
pub fn without_false_none(
    question: &Question,
    certificates: &[Certificate],
) -> Result<(), JoinFault<usize>>
    ensures ok { OnOk result (version_of question.now ≡ First → All (λ c. has_none c.tree ≡ false) certificates.now) }
    ensures fault { IfErr result (IsFalseNoneIn certificates.now question.now) }
{
    if !is_of_all(question) {
        return Ok(());
    }
    for (place, certificate) in certificates.iter().enumerate() {
        if has_none(&certificate.tree) {
            return Err(JoinFault::FalseNone(place));
        }
    }
    Ok(())
}
