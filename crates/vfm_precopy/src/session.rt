//! A session of reading: what is left, what comes next, and taking it.

ghost use Rattle.std.specs.Prelude.{◌≡◌, ◌+◌, ◌*◌, ◌≤◌, true, false, length, unwrap_or, IfOk, MatchResult};
ghost use Rattle.vfm_base.specs.PageSet.{least_page_from};
ghost use Rattle.vfm_space.specs.Blocks.{bytes_of_block, with_read};
ghost use Rattle.vfm_precopy.specs.Reading.{block_or, is_pre_copying, is_saving, initial_bytes, dirty_bytes, next_reading};

use vfm_space::Bar;
use vfm_types::MigState;

/// The device stands in no pre-copy state.
#[derive(Clone, Copy, Debug, PartialEq, Eq)]
pub struct NotPreCopy;

/// The device stands in no state that can be read from.
#[derive(Clone, Copy, Debug, PartialEq, Eq)]
pub struct NotSaving;

/// What a reading gives next.
#[derive(Clone, Copy, Debug, PartialEq, Eq)]
pub enum Next {
    /// The block with this number.
    Block(u32),
    /// Nothing now; more may come while the device runs.
    TemporaryEnd,
    /// Nothing any more.
    End,
}

/// The reading of a device's BARs in the state that the device stands in. No call takes memory.
#[derive(Drop)]
pub struct Session<'a> {
    state: MigState,
    bar: &'a mut Bar,
}

impl<'a> Session<'a> {
    /// A session over these BAR bytes, for a device in this state.
    pub fn of(state: MigState, bar: &'a mut Bar) -> Session<'a>
        ensures same_reference { result.bar.ghost_name ≡ bar.entry.ghost_name }
        ensures state { result.state ≡ state }
        ensures bar { result.bar.now ≡ bar.old }
    {
        Session { state, bar }
    }

    /// How many bytes were never read, and how many are in blocks that were written since they were read: the
    /// `initial_bytes` and `dirty_bytes` of `struct vfio_precopy_info`. `NotPreCopy` exactly where the device stands in
    /// neither pre-copy state.
    pub fn info(&self) -> Result<(u32, u32), NotPreCopy>
        ensures cause { MatchResult result (λ _. is_pre_copying self.now.state ≡ true) (λ _. is_pre_copying self.now.state ≡ false) }
        ensures initial { IfOk result (λ info. info.0 ≡ initial_bytes self.now.bar.now) }
        ensures dirty { IfOk result (λ info. info.1 ≡ dirty_bytes self.now.bar.now) }
    {
        match self.state {
            MigState::PreCopy | MigState::PreCopyP2p => {
                Ok((64 * self.bar.unread_count(), 64 * self.bar.dirty_count()))
            }
            _ => Err(NotPreCopy),
        }
    }

    /// What a reading gives next: the least block that was never read, else the least that was written since it was read;
    /// where there is neither, a temporary end in a pre-copy state and the end in STOP_COPY. `NotSaving` exactly in the
    /// other states.
    pub fn next(&self) -> Result<Next, NotSaving>
        ensures cause { MatchResult result (λ _. is_saving self.now.state ≡ true) (λ _. is_saving self.now.state ≡ false) }
        ensures next { IfOk result (λ next. next ≡ next_reading self.now.state self.now.bar.now) }
    {
        let end = match self.state {
            MigState::PreCopy | MigState::PreCopyP2p => Next::TemporaryEnd,
            MigState::StopCopy => Next::End,
            _ => return Err(NotSaving),
        };
        Ok(next_block(self.bar).unwrap_or(end))
    }

    /// Copies block `b` and takes its marks away.
    pub fn take(&mut self, b: u32, into: &mut [u8; 64])
        requires { 64 * (b + 1) ≤ length self.old.bar.now.bytes }
        ensures same_reference { self.new.bar.ghost_name ≡ self.old.bar.ghost_name }
        ensures state { self.new.state ≡ self.old.state }
        ensures given { into.new ≡ bytes_of_block b self.old.bar.now }
        ensures read { self.new.bar.now ≡ with_read b self.old.bar.now }
    {
        self.bar.read_block(b, into);
    }
}

// The block that is to be read next, if there is one.
fn next_block(bar: &Bar) -> Option<Next>
    ensures { (end : Next) → unwrap_or result end ≡ block_or (least_page_from bar.now.unread 0) (block_or (least_page_from bar.now.dirty 0) end) }
{
    let b = bar.unread().or(bar.dirty())?;
    Some(Next::Block(b))
}
