ghost use Rattle.std.specs.Prelude.{◌≡◌, ◌<◌, ◌↔◌, length, Some, None, false, IfOk, IsTrue, not, ◌&&◌};
ghost use Rattle.std.specs.List.{list_any};
ghost use Rattle.std.specs.Option.{option_copied};
ghost use Rattle.pg_perm.specs.declared.kinds.Event.TheVariants.{Evict};
ghost use Rattle.pg_perm.specs.declared.fault.Fault.{Fault};
ghost use Rattle.pg_perm.specs.Drafts.{IsWellFormed};
ghost use Rattle.pg_terms.specs.Terms as term;
ghost use Rattle.pg_terms.specs.Due as due;
ghost use Rattle.pg_terms.specs.Rows as says;
ghost use Rattle.pg_shape.specs.ShapeFaults.{HasShape, IsShapeFault};
ghost use Rattle.pg_shape.specs.Shaped.{IsProtocol, IsShaped};
ghost use Rattle.pg_shape.specs.FirstFaults as first;
ghost use Rattle.pg_shape.specs.Answers.{Judges};

use crate::error::ShapeError;
use crate::faults::shape_fault;
use crate::take_rules::may_keep;
use pg_perm::{CoreLine, Draft, Event, FwdClass, Perm, ReqClass, RowLine, TakeLine};
use pg_terms as terms;
use pg_terms::{DirCase, is_due};
use std::alloc::AllocError;
use std::marker::Model;

/// A draft that has the shape of a protocol. Contracts see the draft.
#[derive(Debug, Drop)]
pub struct Protocol {
    draft: Draft,
}

impl Model for Protocol {
    ghost use Rattle.pg_perm.specs.declared.draft.Draft.{Draft};
    ghost use Rattle.pg_shape.specs.Shaped.{IsProtocol};

    ghost Value = { Draft };

    ghost view = { λ p. p.draft };

    ghost invariant = { λ p. IsProtocol p.draft };
}

/// Makes a protocol of a draft, if it has the shape.
///
/// docs/TEXT.md has the rules of the shape. Where a line breaks one, the draft is given up, and the fault is the first line that does with
/// the first rule that it breaks. It takes no memory.
pub fn shape(draft: Draft) -> Result<Protocol, ShapeError>
    requires { IsWellFormed draft }
    ensures exact { Judges result (first.shape_fault draft) }
    ensures fault { (f : Fault) → result ≡ Err (ShapeError.Fault f) → IsShapeFault draft f }
    ensures protocol { IfOk result (λ p. p ≡ draft) }
    ensures whole { IfOk result (λ p. HasShape p) }
    ensures shaped { IfOk result (λ p. IsShaped p) }
{
    match shape_fault(&draft) {
        Some(fault) => Err(ShapeError::Fault(fault)),
        None => Ok(Protocol { draft }),
    }
}

impl Protocol {
    /// Another protocol of the same draft.
    pub fn copy(&self) -> Result<Protocol, AllocError>
        ensures { IfOk result (λ copy. copy ≡ self.now) }
    {
        let draft = self.draft.clone()?;
        Ok(Protocol { draft })
    }

    /// The draft of which the protocol was made, with what the shape gives of it.
    pub fn draft(&self) -> &Draft
        ensures exact { result.now ≡ self.now }
        ensures protocol { IsProtocol self.now }
        ensures well_formed { IsWellFormed self.now }
        ensures shaped { IsShaped self.now }
    {
        &self.draft
    }

    /// The out state, in which a cache has no copy.
    pub fn out(&self) -> u8
        ensures { term.out self.now ≡ Some result }
    {
        terms::out(&self.draft).unwrap() as u8
    }

    /// The state of a sharer, or none where caches share nothing.
    pub fn shared(&self) -> Option<u8>
        ensures exact { result ≡ term.shared self.now }
        ensures none { (result ≡ None) ↔ (list_any (λ c. term.is_shared c.role) self.now.caches ≡ false) }
    {
        let state = terms::shared(&self.draft)?;
        Some(state as u8)
    }

    /// The first request of a class.
    pub fn request_of(&self, class: ReqClass) -> Option<u8>
        ensures { result ≡ term.request_of self.now class }
    {
        let request = terms::request_of(&self.draft, class)?;
        Some(request as u8)
    }

    /// The first forward of a class.
    pub fn forward_of(&self, class: FwdClass) -> Option<u8>
        ensures { result ≡ term.forward_of self.now class }
    {
        let forward = terms::forward_of(&self.draft, class)?;
        Some(forward as u8)
    }

    /// What a core may do in a cache state.
    pub fn perm(&self, state: u8) -> Perm
        requires { state < length self.now.caches }
        ensures { term.perm_of self.now state ≡ Some result }
    {
        self.draft.caches.as_slice()[usize::from(state)].perm
    }

    /// What a core does at an event. There is no row for an evict of the out state.
    pub fn core_row(&self, state: u8, event: Event) -> &CoreLine
        requires state { state < length self.now.caches }
        requires event { event ≡ Evict → term.is (term.out self.now) state ≡ false }
        ensures { term.core_row self.now state event ≡ Some result.now }
    {
        terms::core_row(&self.draft, state, event).unwrap()
    }

    /// Whether a cache in this state may get this forward.
    pub fn due(&self, state: u8, forward: u8) -> bool
        ensures { result ≡ due.is_due self.now state forward }
    {
        is_due(&self.draft, state, forward)
    }

    /// Whether a cache in this state may get the keep forward.
    pub fn may_keep(&self, state: u8) -> bool
        ensures { result ≡ says.may_keep self.now state }
    {
        may_keep(&self.draft, state)
    }

    /// What a cache does with a forward, or none where it can't get it in this state.
    pub fn take_row(&self, state: u8, forward: u8) -> Option<&TakeLine>
        ensures exact { option_copied result ≡ term.take_row self.now state forward }
        ensures none { (result ≡ None) ↔ (due.is_due self.now state forward ≡ false) }
    {
        terms::take_row(&self.draft, state, forward)
    }

    /// What the directory does in a case, or none where the case can't come in this state.
    pub fn row(&self, dir: u8, at: DirCase) -> Option<&RowLine>
        ensures exact { option_copied result ≡ term.dir_row self.now dir at }
        ensures none { (result ≡ None) ↔ (due.is_due_case self.now dir at ≡ false) }
    {
        terms::dir_row(&self.draft, dir, at)
    }
}
