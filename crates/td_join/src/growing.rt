//! The tree of certificates that are joined.

ghost use Rattle.std.specs.Prelude.{IfOk, IfErr, All};
ghost use Rattle.td_join.specs.Joining.{AreJoined};
ghost use Rattle.td_join.specs.Steps.{certificates_of, IsPlaced, AreInOrder, AreAllInside};
ghost use Rattle.td_join.specs.Stacks.{IsTreeFault};

use crate::fault::JoinFault;
use crate::parts::{Group, Part};
use crate::steps::{Step, step_of};
use std::alloc::Global;
use td_certificate::Node;
use td_domain::Admit;

/// The nodes of the tree of some certificates, whose whole admits these pairs.
pub fn joined_nodes(
    alloc: Global,
    admit: &Admit,
    parts: Vec<Part>,
) -> Result<Vec<Node>, JoinFault<usize>>
    requires placed { All (IsPlaced (certificates_of parts.items)) parts.items }
    requires order { AreInOrder parts.items }
    requires within { AreAllInside admit.now.pins parts.items }
    ensures tree { IfOk result (λ nodes. AreJoined admit.now admit.now.pins (certificates_of parts.items) nodes.items) }
    ensures fault { IfErr result (IsTreeFault admit.now (certificates_of parts.items)) }
{
    let mut nodes = Vec::new(alloc);
    let mut groups = Vec::new(alloc);
    let cube = admit.pins().copy(alloc)?;
    groups.push(Group { cube, parts })?;
    while let Some(group) = groups.pop() {
        match step_of(alloc, admit, group)? {
            Step::Leaf(mut tree) => nodes.append(&mut tree)?,
            Step::Halves(position, low, high) => {
                nodes.push(Node::Split(position as u64))?;
                groups.push(high)?;
                groups.push(low)?;
            }
        }
    }
    Ok(nodes)
}
