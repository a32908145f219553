//! The verdict on a whole move.

ghost use Rattle.std.specs.Prelude.{◌≡◌, ◌≤◌, [], ℕ, List, length, vec_capacity, Some, IfOk};
ghost use Rattle.std.specs.Option.{option_map};
ghost use Rattle.vfm_types.specs.declared.desc.Desc.{Desc};
ghost use Rattle.vfm_packet.specs.Channel.{channel_limit};
ghost use Rattle.vfm_packet.specs.Packet.{Packet};
ghost use Rattle.vfm_packet.specs.Reading.{Reading};
ghost use Rattle.vfm_streams.specs.Judged.{said, stream_fault};
ghost use Rattle.vfm_streams.specs.Verdict.{stream_refusal, verdict_on};
ghost use Rattle.vfm_load.specs.Parts.{IsPartOf, loaded_part};
ghost use Rattle.vfm_intake_laws.specs.Refused.{refused_of};
ghost use Rattle.vfm_intake.specs.Streams.{IsAtRest, IsStreamOf, StandsAfter};
ghost use Rattle.vfm_intake.specs.Intakes.{AreStreamsOf, StandAfter, IsIntakeOf};
ghost use Rattle.vfm_intake.specs.Finished.{AllAtRest, AreFinished, refusal_in};
ghost use Rattle.vfm_intake.specs.Verdicts.{Answers, HasTakenIn, first_end_refusal};

use crate::{Intake, StreamIntake, end_refusal};
use vfm_plain::Part;
use vfm_recv::ChannelEnd;
use vfm_types::{Desc, Refusal};

/// What is answered about a move, once nothing more comes: the refusal of the least refused channel; or else that of the
/// least refused stream; or else the parts of the machine, memory first and then each device. Takes no memory. `ends` has
/// the answer about each channel, in their order, and the intake is of this description.
pub fn verdict_of(desc: &Desc, ends: &[ChannelEnd], intake: Intake) -> Result<Vec<Part>, Refusal>
    requires made { IsIntakeOf intake desc.now }
    requires numbered { length ends.now ≤ 4294967295 }
    // the verdict on the channels, whatever the order in which their parcels came
    ensures verdict { (readings : List Reading) → HasTakenIn intake desc.now ends.now readings
        → Answers desc.now (verdict_on desc.now channel_limit readings) result }
{
    if let Some(refusal) = refused_channel(ends) {
        return Err(refusal);
    }
    let Intake { streams, parts } = intake;
    parts_of(streams, parts)
}

// The refusal of the least channel that is refused.
fn refused_channel(ends: &[ChannelEnd]) -> Option<Refusal>
    requires { length ends.now ≤ 4294967295 }
    ensures { result ≡ first_end_refusal 0 ends.now }
{
    for channel in 0..ends.len() {
        if let Some(refusal) = end_refusal(channel as u32, ends[channel]) {
            return Some(refusal);
        }
    }
    None
}

// The part of each stream, in their order, put into a list that has the room; or the refusal of the least refused stream.
fn parts_of(streams: Vec<StreamIntake>, mut parts: Vec<Part>) -> Result<Vec<Part>, Refusal>
    requires empty { parts.items ≡ [] }
    requires room { length streams.items ≤ vec_capacity parts }
    requires rest { AllAtRest streams.items }
    requires few { length streams.items ≤ 4294967295 }
    ensures refusal { (D : Desc) (came : ℕ → List Packet) → StandAfter D came streams.items
        → refused_of D came 0 (length streams.items) ≡ refusal_in result }
    ensures parts { IfOk result (λ parts. (D : Desc) (came : ℕ → List Packet) → AreStreamsOf D streams.items
        → StandAfter D came streams.items → AreFinished D came (length streams.items) parts.items) }
{
    let mut stream = 0;
    for intake in streams {
        match part_of(intake, stream) {
            Ok(part) => parts.push(part).unwrap(),
            Err(refusal) => return Err(refusal),
        }
        stream += 1;
    }
    Ok(parts)
}

// The part of a stream, or its refusal.
fn part_of(intake: StreamIntake, stream: u32) -> Result<Part, Refusal>
    requires { IsAtRest intake }
    ensures refusal { (D : Desc) (came : List Packet) → StandsAfter intake D stream came
        → option_map (stream_refusal stream) (stream_fault D stream came) ≡ refusal_in result }
    ensures part { IfOk result (λ part. (D : Desc) (came : List Packet) → StandsAfter intake D stream came
        → part ≡ loaded_part D stream (said stream came)) }
    ensures fits { IfOk result (λ part. (D : Desc) → IsStreamOf intake D stream → IsPartOf D stream part) }
{
    match intake.finish() {
        Ok(part) => Ok(part),
        Err(refusal) => Err(refusal.refusal(stream)),
    }
}
