//! A machine that was loaded.

use std::alloc::Global;
use std::marker::Model;
use vfm_core::Core;
use vfm_plain::Part;
use vfm_types::{Desc, NoMemory};

/// A machine that was loaded, as a core that goes on from there, and the digest of its state.
#[derive(Drop)]
pub struct Staged {
    core: Core,
    digest: [u8; 32],
}

impl Model for Staged {
    ghost use Rattle.vfm_dest.specs.StagedCores.{StagedState, StandsStaged};

    ghost Value = { StagedState };

    ghost view = { λ s. record { core = s.core; digest = s.digest } };

    ghost invariant = { λ s. StandsStaged s.core s.digest };
}

impl Staged {
    ghost use Rattle.std.specs.Prelude.{◌≡◌, [], List, None, IfOk};
    ghost use Rattle.vfm_types.specs.declared.entry.Entry.{Entry};
    ghost use Rattle.vfm_core.specs.CoreState.{IsStagedOn};
    ghost use Rattle.vfm_types.specs.declared.entry.Entry.TheVariants.{Resume};
    ghost use Rattle.vfm_plain.specs.Rules.{fault_of};
    ghost use Rattle.vfm_dest.specs.StagedCores.{EndsFor, StandsStaged};
    ghost use Rattle.vfm_intake.specs.Parts.{AreParts};
    ghost use Rattle.vfm_dest.specs.Stages.{IsStagedFrom, core_of, digest_of};

    /// Stages the machine of these parts: the memory, then each device in its order.
    pub fn of(alloc: Global, desc: &Desc, parts: Vec<Part>) -> Result<Staged, NoMemory>
        requires { AreParts desc.now parts.items }
        ensures { IfOk result (λ staged. IsStagedFrom staged desc.now parts.items) }
    {
        let core = Core::staged(alloc, desc.copy()?, parts)?;
        let digest = core.digest();
        Ok(Staged { core, digest })
    }

    /// The core. It has made no entry. After a legal list whose last pass has ended, without Abort, Resume and Fail, and
    /// whose machine it has, it goes on from there and may be taken over.
    pub fn core(&self) -> &Core
        ensures value { result.now ≡ core_of self.now }
        ensures stands { StandsStaged (core_of self.now) (digest_of self.now) }
        ensures begins { (past : List Entry) → EndsFor (core_of self.now) past
            → IsStagedOn (core_of self.now).desc past [] (core_of self.now).world }
        ensures may { (past : List Entry) → EndsFor (core_of self.now) past
            → fault_of (core_of self.now).desc past Resume ≡ None }
    {
        &self.core
    }

    /// The digest of the machine's state, SHA-256.
    pub fn digest(&self) -> [u8; 32]
        ensures { result ≡ digest_of self.now }
    {
        self.digest
    }

    /// The core, to go on with.
    pub fn into_core(self) -> Core
        ensures { result ≡ core_of self }
    {
        let Staged { core, digest: _ } = self;
        core
    }
}
