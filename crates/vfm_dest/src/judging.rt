//! What is answered once all channels were read.

ghost use Rattle.std.specs.Prelude.{◌≡◌, ◌+◌, ◌≤◌, ℕ, List, [], false, length, IfSome, IfNone, IfOk, IfErr};
ghost use Rattle.vfm_types.specs.Desc.{device_count};
ghost use Rattle.vfm_packet.specs.declared.answer.Expect.{Expect};
ghost use Rattle.vfm_streams.specs.Verdict.{Expects, verdict};
ghost use Rattle.vfm_mesh.specs.Meshes.{AreMesh};
ghost use Rattle.vfm_types.specs.Valid.{IsValid};
ghost use Rattle.vfm_intake.specs.Intakes.{streams_in, AreStreamsOf, IsIntakeOf};
ghost use Rattle.vfm_dest.specs.Drained.{HasLoaded};
ghost use Rattle.vfm_dest.specs.Heards.{Told, channels_of, AreRead, WereRead};
ghost use Rattle.vfm_dest.specs.Stages.{AllTold, IsFirstFault, IsStagedFrom, StagesBy};
ghost use Rattle.vfm_dest.specs.declared.judging.StageFault.TheVariants as faults;
ghost use Rattle.vfm_intake.specs.Parts.{AreParts};

use crate::{AllTaken, Staged, drain};
use std::alloc::Global;
use vfm_intake::{Intake, verdict_of};
use vfm_mesh::{Fan, Funnel, settle};
use vfm_plain::Part;
use vfm_recv::ChannelEnd;
use vfm_types::{Desc, NoMemory, Refusal};

/// Why nothing was staged.
#[derive(Clone, Copy, Debug, PartialEq, Eq)]
pub enum StageFault {
    /// What came is refused.
    Refusal(Refusal),
    /// The link of this channel failed, and of none below it.
    Link { channel: u32 },
    /// Memory ran out.
    NoMemory,
}

// The fault of the first channel whose link failed, or for which memory ran out.
fn first_fault(ends: &[ChannelEnd]) -> Option<StageFault>
    requires { length ends.now ≤ 4294967295 }
    ensures none { IfNone result (AllTold ends.now) }
    ensures some { IfSome result (IsFirstFault ends.now) }
{
    for channel in 0..ends.len() {
        match ends[channel] {
            ChannelEnd::Fault => {
                return Some(StageFault::Link {
                    channel: channel as u32,
                });
            }
            ChannelEnd::NoMemory => return Some(StageFault::NoMemory),
            _ => {}
        }
    }
    None
}

/// Judges what came of all channels, once they were read: the fans have got what came, and what the workers of the streams
/// took came to their intakes. What is left is loaded first.
pub fn judge(
    alloc: Global,
    desc: &Desc,
    ends: &[ChannelEnd],
    fans: Vec<Fan>,
    taken: AllTaken,
) -> Result<Staged, StageFault>
    requires valid { IsValid desc.now }
    requires intakes { AreStreamsOf desc.now taken.intakes.items }
    requires streams { length taken.intakes.items ≡ device_count desc.now + 1 }
    requires loaded { taken.is_short ≡ false → HasLoaded desc.now taken.funnels.items taken.intakes.items }
    requires mesh { AreMesh fans.items taken.funnels.items }
    requires funnels { length taken.funnels.items ≡ device_count desc.now + 1 }
    requires ends { length ends.now ≡ length fans.items }
    requires few { length fans.items ≤ 4294967295 }
    requires read { WereRead desc.now fans.items ends.now }
    ensures { (e : Expect) (before links : List Told) → Expects desc.now e → length before ≡ length fans.items
        → (are : AreRead e before (channels_of links fans.items ends.now))
        → StagesBy desc.now ends.now (verdict desc.now e are.came) result }
{
    if let Some(fault) = first_fault(ends) {
        return Err(fault);
    }
    let AllTaken {
        funnels,
        intakes,
        is_short,
    } = taken;
    if is_short {
        return Err(StageFault::NoMemory);
    }
    match Intake::of_streams(alloc, desc, intakes) {
        Ok(intake) => judge_rest(alloc, desc, ends, fans, funnels, intake),
        Err(NoMemory) => Err(StageFault::NoMemory),
    }
}

// Loads what is left in a mesh, and judges what came of all channels, of which none is a fault.
fn judge_rest(
    alloc: Global,
    desc: &Desc,
    ends: &[ChannelEnd],
    fans: Vec<Fan>,
    funnels: Vec<Funnel>,
    mut intake: Intake,
) -> Result<Staged, StageFault>
    requires made { IsIntakeOf intake desc.now }
    requires loaded { HasLoaded desc.now funnels.items (streams_in intake) }
    requires mesh { AreMesh fans.items funnels.items }
    requires funnels { length funnels.items ≡ device_count desc.now + 1 }
    requires ends { length ends.now ≡ length fans.items }
    requires few { length fans.items ≤ 4294967295 }
    requires told { AllTold ends.now }
    requires read { WereRead desc.now fans.items ends.now }
    ensures { (e : Expect) (before links : List Told) → Expects desc.now e → length before ≡ length fans.items
        → (are : AreRead e before (channels_of links fans.items ends.now))
        → StagesBy desc.now ends.now (verdict desc.now e are.came) result }
{
    let mut rest = settle(fans, funnels);
    if drain(desc, &mut rest, &mut intake).is_err() {
        return Err(StageFault::NoMemory);
    }
    match verdict_of(desc, ends, intake) {
        Ok(parts) => stage_parts(alloc, desc, parts),
        Err(refusal) => Err(StageFault::Refusal(refusal)),
    }
}

// Stages the machine of these parts.
fn stage_parts(alloc: Global, desc: &Desc, parts: Vec<Part>) -> Result<Staged, StageFault>
    requires { AreParts desc.now parts.items }
    ensures ok { IfOk result (λ staged. IsStagedFrom staged desc.now parts.items) }
    ensures fault { IfErr result (λ fault. fault ≡ faults.NoMemory) }
{
    match Staged::of(alloc, desc, parts) {
        Ok(staged) => Ok(staged),
        Err(_) => Err(StageFault::NoMemory),
    }
}
