// Which remote has which local identity.
ghost use Rattle.std.specs.Prelude.{◌≡◌, ◌∷◌, ◌++◌, [], ℕ, not, OnOk, OnErr, IfOk, IfSome, IfNone};
ghost use Rattle.std.specs.List.{filter};
ghost use Rattle.bearer_map.specs.Ids.{has_remote, IsAttached};
ghost use Rattle.link_base.specs.declared.names.Remote.{Remote};

use link_base::{LocalId, Memory, Remote};
use std::alloc::Global;
use std::marker::Model;

/// A local identity and the remote that has it (TS 38.351 clause 6.3.2).
#[derive(Clone, Copy, Debug, PartialEq, Eq)]
pub struct Attachment {
    /// The remote.
    pub remote: Remote,
    /// Its local identity.
    pub id: LocalId,
}

/// The local identities that one node attaches to remotes: each remote has at most one, and each belongs to at most one.
#[derive(Debug, Drop)]
pub struct Ids {
    attached: Vec<Attachment>,
}

impl Model for Ids {
    ghost use Rattle.std.specs.Prelude.{List};
    ghost use Rattle.bearer_map.specs.declared.ids.Attachment.{Attachment};
    ghost use Rattle.bearer_map.specs.Ids.{AreIds};

    ghost Value = { List Attachment };

    ghost view = { λ i. i.attached.items };

    ghost invariant = { λ i. AreIds i.attached.items };
}

impl Ids {
    ghost use Rattle.bearer_map.specs.Ids.{AreIds, attachment};

    /// No remote is attached.
    pub fn new(alloc: Global) -> Result<Ids, Memory>
        ensures { IfOk result (λ ids. ids ≡ []) }
    {
        Ok(Ids {
            attached: Vec::new(alloc),
        })
    }

    /// Equal attachments in memory of their own.
    pub fn copy(&self, alloc: Global) -> Result<Ids, Memory>
        ensures { IfOk result (λ ids. ids ≡ self.now) }
    {
        Ok(Ids {
            attached: Vec::from_slice(alloc, &self.attached)?,
        })
    }

    /// Attaches a remote that isn't attached, with a local identity that no remote has. After an `Err` nothing changed.
    pub fn attach(&mut self, remote: Remote, id: LocalId) -> Result<(), Memory>
        requires remote { (other : ℕ) → IsAttached self.old remote other → ⊥ }
        requires id { (other : Remote) → IsAttached self.old other id.0 → ⊥ }
        ensures ok { OnOk result (self.new ≡ self.old ++ attachment remote id ∷ []) }
        ensures err { OnErr result (self.new ≡ self.old) }
    {
        self.attached.push(Attachment { remote, id })?;
        Ok(())
    }

    /// Detaches a remote, if it is attached.
    pub fn detach(&mut self, remote: Remote)
        ensures { self.new ≡ filter (λ a. not (has_remote remote a)) self.old }
    {
        leave_out(&mut self.attached, remote);
    }

    /// The local identity of a remote, or None where it isn't attached.
    pub fn id_of(&self, remote: Remote) -> Option<LocalId>
        ensures found { IfSome result (λ id. IsAttached self.now remote id.0) }
        ensures none { IfNone result ((id : ℕ) → IsAttached self.now remote id → ⊥) }
        ensures each_once { AreIds self.now }
    {
        match of_remote(&self.attached, remote) {
            Some(a) => Some(a.id),
            None => None,
        }
    }

    /// The remote that has a local identity, or None where no remote has it.
    pub fn remote_of(&self, id: LocalId) -> Option<Remote>
        ensures found { IfSome result (λ remote. IsAttached self.now remote id.0) }
        ensures none { IfNone result ((remote : Remote) → IsAttached self.now remote id.0 → ⊥) }
        ensures each_once { AreIds self.now }
    {
        match with_id(&self.attached, id) {
            Some(a) => Some(a.remote),
            None => None,
        }
    }
}

/// The attachment of a remote.
fn of_remote(attached: &[Attachment], remote: Remote) -> Option<Attachment>
    ensures found { IfSome result (λ a. IsAttached attached.now remote a.id.0) }
    ensures none { IfNone result ((id : ℕ) → IsAttached attached.now remote id → ⊥) }
{
    attached.iter().copied().find(|a| a.remote.0 == remote.0)
}

/// The attachment with a local identity.
fn with_id(attached: &[Attachment], id: LocalId) -> Option<Attachment>
    ensures found { IfSome result (λ a. IsAttached attached.now a.remote id.0) }
    ensures none { IfNone result ((remote : Remote) → IsAttached attached.now remote id.0 → ⊥) }
{
    attached.iter().copied().find(|a| a.id.0 == id.0)
}

/// Leaves the attachment of a remote out.
fn leave_out(attached: &mut Vec<Attachment>, remote: Remote)
    ensures { attached.new.items ≡ filter (λ a. not (has_remote remote a)) attached.old.items }
{
    attached.retain(|a| a.remote.0 != remote.0);
}
