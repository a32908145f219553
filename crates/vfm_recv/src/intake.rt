//! What came of a channel, packet after packet.

ghost use Rattle.std.specs.Prelude.{◌≡◌, ◌+◌, ◌<◌, ◌≤◌, ℕ, List, ◌++◌, length, vec_len, is_ok, if◌then◌else◌};
ghost use Rattle.vfm_packet.specs.Answer.{IsPartial};
ghost use Rattle.vfm_recv.specs.Exact.{IsExact};

use crate::ChannelEnd;
use std::alloc::Global;
use std::mem;
use vfm_base::u32_at;
use vfm_mesh::{Fan, Parcel, Payload};
use vfm_packet::{CHANNEL_LIMIT, Cause, Decoded, Expect, HEAD_LEN, Header, Kind, decode, seal_len};
use vfm_types::NoMemory;

/// Where the reading of a channel stands.
#[derive(Clone, Copy, Debug, PartialEq, Eq)]
pub enum Stage {
    /// Packets came, and a part of another, maybe none.
    Open,
    /// An end packet came.
    Ended,
    /// An abort packet came.
    Aborted,
    /// What came after the packets is no packet.
    Bad { cause: Cause },
    /// Memory ran out.
    NoMemory,
}

/// Takes in the bytes of a channel as they come. The bytes of a packet are gathered in a vector of their own, which goes
/// into the parcel once the packet is whole. After a refusal what comes is only counted.
#[derive(Drop)]
pub struct Intake {
    alloc: Global,
    expect: Expect,
    stage: Stage,
    // the bytes of the packet that isn't whole yet
    held: Vec<u8>,
    // the offset of the first byte that isn't part of a packet before it
    place: u64,
    // how many bytes came
    came: u64,
    ghost counted: { place + vec_len held ≤ came },
    ghost limited: { came ≤ 67108865 },
}

// How many bytes more show what is gathered: the rest of a header, or the rest of the packet that it announces.
fn wanted(held: &[u8], expect: &Expect) -> usize
    requires { IsPartial expect.now held.now }
    ensures some { 0 < result }
    ensures exact { (more : List ℕ) → length more ≤ result → IsExact expect.now (held.now ++ more) }
{
    if held.len() < HEAD_LEN {
        return HEAD_LEN - held.len();
    }
    HEAD_LEN + u32_at(held, 24) as usize + seal_len(expect.version) - held.len()
}

// Appends bytes, and takes memory at once for so many, so that none are moved when the others come.
fn extend(held: &mut Vec<u8>, bytes: &[u8], wanted: usize) -> Result<(), NoMemory>
    ensures items { held.new.items ≡ (if is_ok result then held.old.items ++ bytes.now else held.old.items) }
{
    held.reserve(wanted)?;
    held.extend_from_slice(bytes)?;
    Ok(())
}

impl Intake {
    ghost use Rattle.std.specs.Prelude.{◌≡◌, ◌+◌, ◌<◌, ◌≤◌, ℕ, List, [], ◌++◌, length, take, nat_lt, IsTrue, ◌⊎◌};
    ghost use Rattle.vfm_packet.specs.Header.{carries};
    ghost use Rattle.vfm_packet.specs.Packet.{packet_size};
    ghost use Rattle.vfm_packet.specs.Answer.{BeginsWith};
    ghost use Rattle.vfm_packet.specs.Reading.{reading, unfinished, after_end};
    ghost use Rattle.vfm_mesh.specs.declared.fan.Fan.{Fan};
    ghost use Rattle.vfm_mesh.specs.Rows.{stream_count, fan_rings};
    ghost use Rattle.vfm_recv.specs.declared.channel_end.ChannelEnd.TheVariants as channel_ends;
    ghost use Rattle.vfm_recv.specs.declared.intake.Stage.TheVariants as stages;
    ghost use Rattle.vfm_recv.specs.Handed.{HandsOn};
    ghost use Rattle.vfm_recv.specs.Exact.{IsExact};
    ghost use Rattle.vfm_recv.specs.Intakes.{Standing, IsWaiting};
    ghost use Rattle.vfm_recv.specs.Pumped.{end_of, Says, HandsOnFirst};

    /// An intake that nothing came to.
    pub fn of(alloc: Global, expect: Expect) -> Intake
        ensures waiting { IsWaiting result }
        ensures stands { (fan : Fan) → Standing result [] fan fan }
        ensures expect { result.expect ≡ expect }
        ensures came { result.came ≡ 0 }
    {
        Intake {
            alloc,
            expect,
            stage: Stage::Open,
            held: Vec::new(alloc),
            place: 0,
            came: 0,
        }
    }

    /// How many bytes came.
    pub fn came(&self) -> u64
        ensures { result ≡ self.now.came }
    {
        self.came
    }

    // Gathers bytes, no more than what shows what is gathered, and says how many.
    fn gather(&mut self, bytes: &[u8]) -> usize
        requires open { self.old.stage ≡ stages.Open }
        requires waiting { IsWaiting self.old }
        requires room { self.old.came + length bytes.now ≤ 67108865 }
        requires some { 0 < length bytes.now }
        ensures some { 0 < result }
        ensures most { result ≤ length bytes.now }
        ensures stands { (came : List ℕ) (before fan : Fan) → Standing self.old came before fan → Standing self.new (came ++ take result bytes.now) before fan }
        ensures exact { self.new.stage ≡ stages.Open → IsExact self.new.expect self.new.held.items }
        ensures expect { self.new.expect ≡ self.old.expect }
        ensures came { self.new.came ≡ self.old.came + result }
    {
        let wanted = wanted(&self.held, &self.expect);
        let n = wanted.min(bytes.len());
        self.came += n as u64;
        if extend(&mut self.held, &bytes[..n], wanted).is_err() {
            self.stage = Stage::NoMemory;
        }
        n
    }

    // Hands on the packet that is gathered.
    fn hand_on(&mut self, head: Header, fan: &mut Fan)
        requires open { self.old.stage ≡ stages.Open }
        requires packet { BeginsWith self.old.expect self.old.held.items head }
        requires exact { packet_size head ≡ length self.old.held.items }
        requires carries { IsTrue (carries head.kind) }
        requires streams { stream_count fan.old ≡ self.old.expect.streams }
        ensures stands { (came : List ℕ) (before : Fan) → Standing self.old came before fan.old → Standing self.new came before fan.new }
        ensures waiting { IsWaiting self.new }
        ensures streams { stream_count fan.new ≡ stream_count fan.old }
        ensures rings { fan_rings fan.new ≡ fan_rings fan.old }
        ensures expect { self.new.expect ≡ self.old.expect }
        ensures came { self.new.came ≡ self.old.came }
    {
        let mut list = mem::replace(&mut self.held, Vec::new(self.alloc));
        let used = list.len() as u64;
        list.truncate(HEAD_LEN + head.length as usize);
        let parcel = Parcel::Packet {
            head,
            payload: Payload::of(list, HEAD_LEN),
        };
        match fan.offer(head.stream, parcel) {
            Ok(()) => {}
            Err(_) => {
                self.stage = Stage::NoMemory;
                return;
            }
        }
        self.place += used;
    }

    // Looks at what is gathered: hands on a packet that is whole, and stops at what no packet may follow.
    fn judge(&mut self, fan: &mut Fan)
        requires open { self.old.stage ≡ stages.Open }
        requires exact { IsExact self.old.expect self.old.held.items }
        requires streams { stream_count fan.old ≡ self.old.expect.streams }
        ensures stands { (came : List ℕ) (before : Fan) → Standing self.old came before fan.old → Standing self.new came before fan.new }
        ensures waiting { IsWaiting self.new }
        ensures streams { stream_count fan.new ≡ stream_count fan.old }
        ensures rings { fan_rings fan.new ≡ fan_rings fan.old }
        ensures expect { self.new.expect ≡ self.old.expect }
        ensures came { self.new.came ≡ self.old.came }
    {
        match decode(&self.held, &self.expect) {
            Decoded::More => {}
            Decoded::Bad { cause } => self.stage = Stage::Bad { cause },
            Decoded::Packet { head, used } => match head.kind {
                Kind::Data | Kind::Config => self.hand_on(head, fan),
                Kind::End => self.end(used),
                Kind::Abort => self.stage = Stage::Aborted,
            },
        }
    }

    // Nothing may follow the end packet that is gathered.
    fn end(&mut self, used: usize)
        requires { used ≡ length self.old.held.items }
        ensures stage { self.new.stage ≡ stages.Ended }
        ensures place { self.new.place ≡ self.old.place + used }
        ensures expect { self.new.expect ≡ self.old.expect }
        ensures came { self.new.came ≡ self.old.came }
    {
        self.held.clear();
        self.place += used as u64;
        self.stage = Stage::Ended;
    }

    // Takes in some of the bytes, at least one, and says how many.
    fn step(&mut self, bytes: &[u8], fan: &mut Fan) -> usize
        requires waiting { IsWaiting self.old }
        requires streams { stream_count fan.old ≡ self.old.expect.streams }
        requires room { self.old.came + length bytes.now ≤ 67108865 }
        requires some { 0 < length bytes.now }
        ensures some { 0 < result }
        ensures most { result ≤ length bytes.now }
        ensures stands { (came : List ℕ) (before : Fan) → Standing self.old came before fan.old → Standing self.new (came ++ take result bytes.now) before fan.new }
        ensures waiting { IsWaiting self.new }
        ensures streams { stream_count fan.new ≡ stream_count fan.old }
        ensures rings { fan_rings fan.new ≡ fan_rings fan.old }
        ensures expect { self.new.expect ≡ self.old.expect }
        ensures came { self.new.came ≡ self.old.came + result }
    {
        match self.stage {
            Stage::Open => self.step_open(bytes, fan),
            Stage::Ended | Stage::Aborted | Stage::Bad { .. } | Stage::NoMemory => {
                self.came += bytes.len() as u64;
                bytes.len()
            }
        }
    }

    // The same while packets may come.
    fn step_open(&mut self, bytes: &[u8], fan: &mut Fan) -> usize
        requires open { self.old.stage ≡ stages.Open }
        requires waiting { IsWaiting self.old }
        requires streams { stream_count fan.old ≡ self.old.expect.streams }
        requires room { self.old.came + length bytes.now ≤ 67108865 }
        requires some { 0 < length bytes.now }
        ensures some { 0 < result }
        ensures most { result ≤ length bytes.now }
        ensures stands { (came : List ℕ) (before : Fan) → Standing self.old came before fan.old → Standing self.new (came ++ take result bytes.now) before fan.new }
        ensures waiting { IsWaiting self.new }
        ensures streams { stream_count fan.new ≡ stream_count fan.old }
        ensures rings { fan_rings fan.new ≡ fan_rings fan.old }
        ensures expect { self.new.expect ≡ self.old.expect }
        ensures came { self.new.came ≡ self.old.came + result }
    {
        let n = self.gather(bytes);
        if let Stage::Open = self.stage {
            self.judge(fan);
        }
        n
    }

    /// Takes in bytes that came, and hands on each packet that is whole.
    pub fn take_in(&mut self, bytes: &[u8], fan: &mut Fan)
        requires waiting { IsWaiting self.old }
        requires streams { stream_count fan.old ≡ self.old.expect.streams }
        requires room { self.old.came + length bytes.now ≤ 67108865 }
        ensures stands { (came : List ℕ) (before : Fan) → Standing self.old came before fan.old → Standing self.new (came ++ bytes.now) before fan.new }
        ensures waiting { IsWaiting self.new }
        ensures streams { stream_count fan.new ≡ stream_count fan.old }
        ensures rings { fan_rings fan.new ≡ fan_rings fan.old }
        ensures expect { self.new.expect ≡ self.old.expect }
        ensures came { self.new.came ≡ self.old.came + length bytes.now }
    {
        let mut at = 0;
        while at < bytes.len() {
            at += self.step(&bytes[at..], fan);
        }
    }

    /// The answer, once nothing more comes.
    pub fn answer(&self) -> ChannelEnd
        requires { IsWaiting self.now }
        ensures says { (came : List ℕ) (before fan : Fan) → Standing self.now came before fan
            → Says result (reading self.now.expect came).refusal (HandsOn before fan (reading self.now.expect came).packets)
            (HandsOnFirst before fan (reading self.now.expect came).packets) }
        ensures no_fault { result ≡ channel_ends.Fault → ⊥ }
    {
        match self.stage {
            Stage::Open => self.unfinished(),
            Stage::Ended => self.after_end(),
            Stage::Aborted => ChannelEnd::Aborted { place: self.place },
            Stage::Bad { cause } => ChannelEnd::Bad {
                place: self.place,
                cause,
            },
            Stage::NoMemory => ChannelEnd::NoMemory,
        }
    }

    // The answer where no end packet came.
    fn unfinished(&self) -> ChannelEnd
        ensures { result ≡ end_of (unfinished (nat_lt 67108864 self.now.came) self.now.place self.now.held.items) }
    {
        if self.came > CHANNEL_LIMIT {
            return ChannelEnd::TooLong;
        }
        if self.held.is_empty() {
            return ChannelEnd::NoEnd { place: self.place };
        }
        ChannelEnd::Truncated { place: self.place }
    }

    // The answer where an end packet came.
    fn after_end(&self) -> ChannelEnd
        ensures answer { (rest : List ℕ) → self.now.came ≡ self.now.place + length rest
            → result ≡ end_of (after_end 67108864 (nat_lt 67108864 self.now.came) self.now.place rest) }
        ensures no_fault { result ≡ channel_ends.Fault → ⊥ }
    {
        if self.came > self.place && self.place < CHANNEL_LIMIT {
            return ChannelEnd::AfterEnd { place: self.place };
        }
        if self.came > CHANNEL_LIMIT {
            return ChannelEnd::TooLong;
        }
        ChannelEnd::Ended
    }

    /// The answer where the link failed.
    pub fn fault(&self) -> ChannelEnd
        requires { IsWaiting self.now }
        ensures says { (came : List ℕ) (before fan : Fan) → Standing self.now came before fan
            → Says result (reading self.now.expect came).refusal (HandsOn before fan (reading self.now.expect came).packets)
            (HandsOnFirst before fan (reading self.now.expect came).packets) }
        ensures fault { (result ≡ channel_ends.Fault) ⊎ (result ≡ channel_ends.NoMemory) }
    {
        match self.stage {
            Stage::NoMemory => ChannelEnd::NoMemory,
            Stage::Open | Stage::Ended | Stage::Aborted | Stage::Bad { .. } => ChannelEnd::Fault,
        }
    }
}
