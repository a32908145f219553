//! The entries of a journal, and the rules that each must meet.

ghost use Rattle.std.specs.Prelude.{◌≡◌, ◌≢◌, ◌<◌, ◌≤◌, ◌^◌, ◌↔◌, ℕ, Some, IsTrue, IsSome, IfSome, IfNone};
ghost use Rattle.vfm_types.specs.declared.entry.Entry.{Entry};
ghost use Rattle.vfm_types.specs.Entry.{code_of_parts, entry_code, entry_of_code, low_entry_of, high_entry_of, entry_fits};
ghost use Rattle.vfm_types.specs.RuleNumber.{rule_number, rule_of_number};

use crate::{DeviceId, MigState};

/// One step of the machine or of its move, as the journal keeps it.
#[derive(Clone, Copy, Debug, PartialEq, Eq)]
pub enum Entry {
    /// Device `d` puts its request `n` on the bus.
    Issue { d: DeviceId, n: u32 },
    /// Request `n` of device `d` reaches its target and has its whole effect.
    Deliver { d: DeviceId, n: u32 },
    /// Device `d` learns that its request `n` is done.
    Complete { d: DeviceId, n: u32 },
    /// Device `d` is held for the state `to`: it issues what that state allows and nothing more.
    Hold { d: DeviceId, to: MigState },
    /// Device `d` takes the arc to the state `to`.
    Arc { d: DeviceId, to: MigState },
    /// Device `d` fails the arc to the state `to`, and keeps its state.
    Fail { d: DeviceId, to: MigState },
    /// The dirty log of device `d` is read and cleared.
    Report { d: DeviceId },
    /// Copying pass `k` begins, counted from 1.
    Pass { k: u32 },
    /// Page `p` of the pass is copied.
    Copy { p: u32 },
    /// Block `b` (64 bytes) of the BARs of device `d` is read; blocks count over all of them.
    Block { d: DeviceId, b: u32 },
    /// Device `d` has no block to read now.
    Dry { d: DeviceId },
    /// The move begins: dirty logs start.
    Begin,
    /// Every device stands in `STOP_COPY`.
    Joint,
    /// The source gives up the move.
    Abort,
    /// The destination takes the machine over.
    Resume,
}

impl Entry {
    /// The entry as one number, `kind * 2^40 + device * 2^32 + number`: the kind is the place of the variant, counted
    /// from 1, the number its request, block, page, pass or state, and what the variant lacks is 0.
    pub fn code(self) -> u64
        ensures value { result ≡ entry_code self }
        ensures inverse { entry_of_code result ≡ Some self }
    {
        match self {
            Entry::Issue { d, n } => pack(1, d, n),
            Entry::Deliver { d, n } => pack(2, d, n),
            Entry::Complete { d, n } => pack(3, d, n),
            Entry::Hold { d, to } => pack(4, d, to.number()),
            Entry::Arc { d, to } => pack(5, d, to.number()),
            Entry::Fail { d, to } => pack(6, d, to.number()),
            Entry::Report { d } => pack(7, d, 0),
            Entry::Pass { k } => pack(8, DeviceId(0), k),
            Entry::Copy { p } => pack(9, DeviceId(0), p),
            Entry::Block { d, b } => pack(10, d, b),
            Entry::Dry { d } => pack(11, d, 0),
            Entry::Begin => pack(12, DeviceId(0), 0),
            Entry::Joint => pack(13, DeviceId(0), 0),
            Entry::Abort => pack(14, DeviceId(0), 0),
            Entry::Resume => pack(15, DeviceId(0), 0),
        }
    }

    /// The entry with this code, or `None` exactly where no entry has it.
    pub fn of_code(c: u64) -> Option<Entry>
        ensures value { result ≡ entry_of_code c }
        ensures inverse { IfSome result (λ e. entry_code e ≡ c) }
        ensures fits { IfSome result (λ e. IsTrue (entry_fits e)) }
        ensures none { IfNone result ((e : Entry) → IsTrue (entry_fits e) → entry_code e ≢ c) }
    {
        let kind = c >> 40;
        let d = DeviceId((c >> 32 & 0xff) as u8);
        let n = (c & 0xffff_ffff) as u32;
        if kind < 7 {
            low_entry(kind, d, n)
        } else {
            high_entry(kind, d, n)
        }
    }
}

// a kind, a device and a number in one number
fn pack(kind: u64, d: DeviceId, n: u32) -> u64
    requires { kind < 2 ^ 24 }
    ensures { result ≡ code_of_parts kind d n }
{
    kind * 0x100_0000_0000 + u64::from(d.0) * 0x1_0000_0000 + u64::from(n)
}

// the entry of a kind from 1 to 6
fn low_entry(kind: u64, d: DeviceId, n: u32) -> Option<Entry>
    ensures { result ≡ low_entry_of kind d n }
{
    match kind {
        1 => Some(Entry::Issue { d, n }),
        2 => Some(Entry::Deliver { d, n }),
        3 => Some(Entry::Complete { d, n }),
        4 => MigState::of_number(n).map(|to| Entry::Hold { d, to }),
        5 => MigState::of_number(n).map(|to| Entry::Arc { d, to }),
        6 => MigState::of_number(n).map(|to| Entry::Fail { d, to }),
        _ => None,
    }
}

// the entry of a kind above 6
fn high_entry(kind: u64, d: DeviceId, n: u32) -> Option<Entry>
    ensures { result ≡ high_entry_of kind d n }
{
    let device_lacks = d.0 == 0;
    let number_lacks = n == 0;
    match kind {
        7 if number_lacks => Some(Entry::Report { d }),
        8 if device_lacks => Some(Entry::Pass { k: n }),
        9 if device_lacks => Some(Entry::Copy { p: n }),
        10 => Some(Entry::Block { d, b: n }),
        11 if number_lacks => Some(Entry::Dry { d }),
        12 if device_lacks && number_lacks => Some(Entry::Begin),
        13 if device_lacks && number_lacks => Some(Entry::Joint),
        14 if device_lacks && number_lacks => Some(Entry::Abort),
        15 if device_lacks && number_lacks => Some(Entry::Resume),
        _ => None,
    }
}

/// Why an entry may not be made. Numbered from 1 in this order.
#[derive(Clone, Copy, Debug, PartialEq, Eq)]
pub enum Rule {
    /// The request isn't the one whose turn it is.
    Turn,
    /// The state isn't the next one on the way.
    Path,
    /// The state that the device is in, or held for, bars the request.
    Barred,
    /// Something is outstanding, or some device runs, that mustn't.
    Quiet,
    /// Too early: the move hasn't begun.
    Start,
    /// Not the page, pass or report whose turn it is.
    Pages,
    /// Not the block whose turn it is.
    Blocks,
    /// Not every device stands in `STOP_COPY`.
    Joint,
    /// It isn't decided that the devices are to stop.
    Decide,
    /// Out of the order of the move as a whole.
    Order,
}

impl Rule {
    /// The number of the rule, 1 to 10.
    pub fn number(self) -> u32
        ensures { result ≡ rule_number self }
    {
        match self {
            Rule::Turn => 1,
            Rule::Path => 2,
            Rule::Barred => 3,
            Rule::Quiet => 4,
            Rule::Start => 5,
            Rule::Pages => 6,
            Rule::Blocks => 7,
            Rule::Joint => 8,
            Rule::Decide => 9,
            Rule::Order => 10,
        }
    }

    /// The rule with this number, or `None` exactly where the number isn't 1 to 10.
    pub fn of_number(n: u32) -> Option<Rule>
        ensures value { result ≡ rule_of_number n }
        ensures known { IsSome result ↔ (1 ≤ n) × (n ≤ 10) }
        ensures inverse { IfSome result (λ rule. rule_number rule ≡ n) }
    {
        match n {
            1 => Some(Rule::Turn),
            2 => Some(Rule::Path),
            3 => Some(Rule::Barred),
            4 => Some(Rule::Quiet),
            5 => Some(Rule::Start),
            6 => Some(Rule::Pages),
            7 => Some(Rule::Blocks),
            8 => Some(Rule::Joint),
            9 => Some(Rule::Decide),
            10 => Some(Rule::Order),
            _ => None,
        }
    }
}
