ghost use Rattle.std.specs.Prelude.{◌≡◌, ◌≢◌, ◌<◌, ◌≤◌, true, [], length, IfOk};
ghost use Rattle.pg_perm.specs.declared.kinds.Op.TheVariants as op;
ghost use Rattle.pg_perm.specs.declared.step.Step.TheVariants as step;
ghost use Rattle.pg_atomic.specs.States as states;
ghost use Rattle.pg_atomic.specs.Accesses as accesses;
ghost use Rattle.pg_atomic.specs.Steps as steps;
ghost use Rattle.pg_atomic_run.specs.Blocks as blocks;

use pg_atomic::Atomic;
use pg_perm::{Access, Event, Op, Sequence, Step, Steps};
use pg_shape::Protocol;
use std::alloc::{AllocError, Global};

/// A block, and the steps that were made on it.
#[derive(Drop)]
pub struct Block {
    pub atomic: Atomic,
    pub steps: Steps,
}

impl Block {
    pub fn new(alloc: Global, protocol: &Protocol, cores: u32) -> Result<Block, AllocError>
        requires some { 1 ≤ cores }
        requires few { cores ≤ 64 }
        ensures opens { IfOk result (λ x. x ≡ record { atomic = states.initial_state protocol.now cores; steps = [] }) }
        ensures reached { IfOk result (λ x. steps.IsReached protocol.now cores x.atomic) }
    {
        Ok(Block {
            atomic: Atomic::make(alloc, protocol, cores)?,
            steps: Sequence::new(alloc),
        })
    }

    /// Makes a transaction of a core and keeps it as a step.
    fn transact(&mut self, protocol: &Protocol, core: u32, event: Event) -> Result<(), AllocError>
        requires core { core < length self.old.atomic.states }
        requires reached { steps.IsReached protocol.now (length self.old.atomic.states) self.old.atomic }
        requires needs { steps.needs_transaction protocol.now (states.state_of self.old.atomic core) event ≡ true }
        ensures step { IfOk result (λ _. self.new ≡ blocks.block_after_step protocol.now (step.Txn core event) self.old) }
        ensures reached { steps.IsReached protocol.now (length self.old.atomic.states) self.new.atomic }
        ensures cores { length self.new.atomic.states ≡ length self.old.atomic.states }
        ensures permits { event ≢ Event.Evict → steps.may protocol.now (states.state_of self.new.atomic core) event ≡ true }
    {
        self.atomic.txn(protocol, core, event);
        self.steps.push(Step::Txn(core, event))
    }

    /// Makes an access of a core and keeps it as a step.
    fn access(&mut self, protocol: &Protocol, core: u32, access: Access) -> Result<(), AllocError>
        requires core { core < length self.old.atomic.states }
        requires reached { steps.IsReached protocol.now (length self.old.atomic.states) self.old.atomic }
        requires may { steps.may protocol.now (states.state_of self.old.atomic core) (accesses.event_of access) ≡ true }
        ensures step { IfOk result (λ _. self.new ≡ blocks.block_after_step protocol.now (accesses.step_of core (accesses.word_of self.old.atomic access) access) self.old) }
        ensures reached { steps.IsReached protocol.now (length self.old.atomic.states) self.new.atomic }
    {
        let word = self.atomic.access(protocol, core, access);
        self.steps.push(match access {
            Access::Load => Step::Load(core, word),
            Access::Store(_) => Step::Store(core, word),
        })
    }

    fn load(&mut self, protocol: &Protocol, core: u32) -> Result<(), AllocError>
        requires core { core < length self.old.atomic.states }
        requires reached { steps.IsReached protocol.now (length self.old.atomic.states) self.old.atomic }
        ensures step { IfOk result (λ _. self.new ≡ blocks.block_after_op protocol.now core op.Load self.old) }
        ensures reached { steps.IsReached protocol.now (length self.old.atomic.states) self.new.atomic }
    {
        if !self.atomic.may(protocol, core, Event::Load) {
            self.transact(protocol, core, Event::Load)?;
        }
        self.access(protocol, core, Access::Load)
    }

    fn store(&mut self, protocol: &Protocol, core: u32, value: u32) -> Result<(), AllocError>
        requires core { core < length self.old.atomic.states }
        requires reached { steps.IsReached protocol.now (length self.old.atomic.states) self.old.atomic }
        ensures step { IfOk result (λ _. self.new ≡ blocks.block_after_op protocol.now core (op.Store value) self.old) }
        ensures reached { steps.IsReached protocol.now (length self.old.atomic.states) self.new.atomic }
    {
        if !self.atomic.may(protocol, core, Event::Store) {
            self.transact(protocol, core, Event::Store)?;
        }
        self.access(protocol, core, Access::Store(value))
    }

    fn evict(&mut self, protocol: &Protocol, core: u32) -> Result<(), AllocError>
        requires core { core < length self.old.atomic.states }
        requires reached { steps.IsReached protocol.now (length self.old.atomic.states) self.old.atomic }
        ensures step { IfOk result (λ _. self.new ≡ blocks.block_after_op protocol.now core op.Evict self.old) }
        ensures reached { steps.IsReached protocol.now (length self.old.atomic.states) self.new.atomic }
    {
        if self.atomic.may(protocol, core, Event::Evict) {
            self.transact(protocol, core, Event::Evict)?;
        }
        Ok(())
    }

    /// Makes an operation of a core, and keeps its steps.
    pub fn perform(&mut self, protocol: &Protocol, core: u32, op: Op) -> Result<(), AllocError>
        requires core { core < length self.old.atomic.states }
        requires reached { steps.IsReached protocol.now (length self.old.atomic.states) self.old.atomic }
        ensures step { IfOk result (λ _. self.new ≡ blocks.block_after_op protocol.now core op self.old) }
        ensures reached { steps.IsReached protocol.now (length self.old.atomic.states) self.new.atomic }
    {
        match op {
            Op::Load => self.load(protocol, core),
            Op::Store(value) => self.store(protocol, core, value),
            Op::Evict => self.evict(protocol, core),
        }
    }
}
