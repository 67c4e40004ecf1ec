//! Copies of a world's parts, which share what they hold.

ghost use Rattle.std.specs.Prelude.{◌≡◌, IfOk};

use crate::inbox::SegmentQueue;
use crate::mail::Mail;
use std::alloc::{AllocError, Global};
use trace_node::Node;

/// Nodes that share knowledge and answers with these.
pub(crate) fn nodes_of<'a>(alloc: Global, nodes: &[Node<'a>]) -> Result<Vec<Node<'a>>, AllocError>
    ensures { IfOk result (λ copies. copies.items ≡ nodes.now) }
{
    let mut copies = Vec::new(alloc);
    for node in nodes {
        copies.push(node.try_clone()?)?;
    }
    Ok(copies)
}

/// Inboxes that share segments with these.
pub(crate) fn inboxes_of(
    alloc: Global,
    inboxes: &[SegmentQueue],
) -> Result<Vec<SegmentQueue>, AllocError>
    ensures { IfOk result (λ copies. copies.items ≡ inboxes.now) }
{
    let mut copies = Vec::new(alloc);
    for inbox in inboxes {
        copies.push(inbox.try_clone()?)?;
    }
    Ok(copies)
}

/// Mails that share frames with these.
pub(crate) fn mails_of(alloc: Global, mails: &[Mail]) -> Result<Vec<Mail>, AllocError>
    ensures { IfOk result (λ copies. copies.items ≡ mails.now) }
{
    let mut copies = Vec::new(alloc);
    for mail in mails {
        copies.push(mail.try_clone()?)?;
    }
    Ok(copies)
}
