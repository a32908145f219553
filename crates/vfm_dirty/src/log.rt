//! The dirty log of one device.

ghost use Rattle.std.specs.Prelude.{◌≡◌, ◌<◌, ◌||◌, [], true, false, length, MatchResult, OnOk, OnErr};
ghost use Rattle.vfm_base.specs.PageSet.{contains_page, pages_where, IsPageList};
ghost use Rattle.vfm_dirty.specs.LogState.{empty_log, with_mark};

use std::marker::Model;
use vfm_types::PageSet;

/// The log was started before, and not stopped since.
#[derive(Clone, Copy, Debug, PartialEq, Eq)]
pub struct AlreadyStarted;

/// The log isn't started.
#[derive(Clone, Copy, Debug, PartialEq, Eq)]
pub struct NotStarted;

/// The pages below 1,024 that a device has written since its log was started or last reported. Seen as whether it is
/// started, and the marked pages in rising order.
///
/// No call takes memory.
#[derive(Drop)]
pub struct DirtyLog {
    started: bool,
    marked: PageSet,
}

impl Model for DirtyLog {
    ghost use Rattle.vfm_base.specs.PageSet.{IsPageList};
    ghost use Rattle.vfm_dirty.specs.LogState.{Log};

    ghost Value = { Log };

    ghost view = { λ l. record { started = l.started; marked = l.marked } };

    ghost invariant = { λ l. IsPageList l.marked };
}

impl DirtyLog {
    /// A log that isn't started, with no page marked.
    pub fn new() -> DirtyLog
        ensures { result ≡ empty_log }
    {
        DirtyLog {
            started: false,
            marked: PageSet::new(),
        }
    }

    /// Whether the log is started.
    pub fn is_started(&self) -> bool
        ensures { result ≡ self.now.started }
    {
        self.started
    }

    /// Starts the log with no page marked. `AlreadyStarted` exactly where it is started; it then stays as it was.
    pub fn start(&mut self) -> Result<(), AlreadyStarted>
        ensures cause { MatchResult result (λ _. self.old.started ≡ false) (λ _. self.old.started ≡ true) }
        ensures started { OnOk result (self.new ≡ record { started = true; marked = [] }) }
        ensures same { OnErr result (self.new ≡ self.old) }
    {
        if self.started {
            return Err(AlreadyStarted);
        }
        self.restart();
        Ok(())
    }

    /// Starts the log, or starts it anew: no page is marked.
    pub fn restart(&mut self)
        ensures { self.new ≡ record { started = true; marked = [] } }
    {
        self.started = true;
        self.marked.clear();
    }

    /// Marks page `p`, which is below 1,024. A log that isn't started stays as it is.
    pub fn mark(&mut self, p: u32)
        requires { p < 1024 }
        ensures { self.new ≡ with_mark p self.old }
    {
        if self.started {
            self.marked.add(p);
        }
    }

    /// Adds the marked pages to `into`, clears them, and answers how many there were. `NotStarted` exactly where the log
    /// isn't started; it and `into` then stay as they were.
    pub fn report(&mut self, into: &mut PageSet) -> Result<u32, NotStarted>
        ensures cause { MatchResult result (λ _. self.old.started ≡ true) (λ _. self.old.started ≡ false) }
        ensures count { MatchResult result (λ count. count ≡ length self.old.marked) (λ _. into.new ≡ into.old) }
        ensures given { OnOk result (into.new ≡ pages_where (λ q. contains_page into.old q || contains_page self.old.marked q)) }
        ensures cleared { OnOk result (self.new ≡ record self.old { marked = [] }) }
        ensures same { OnErr result (self.new ≡ self.old) }
    {
        if !self.started {
            return Err(NotStarted);
        }
        let count = self.marked.len();
        self.take_marks(into);
        Ok(count)
    }

    /// Adds the marked pages to `into` and clears them, whether or not the log is started.
    pub fn take_marks(&mut self, into: &mut PageSet)
        ensures given { into.new ≡ pages_where (λ q. contains_page into.old q || contains_page self.old.marked q) }
        ensures set { IsPageList into.new }
        ensures cleared { self.new ≡ record self.old { marked = [] } }
    {
        into.join(&self.marked);
        self.marked.clear();
    }

    /// Stops the log and clears its marks. `NotStarted` exactly where it isn't started; it then stays as it was.
    pub fn stop(&mut self) -> Result<(), NotStarted>
        ensures cause { MatchResult result (λ _. self.old.started ≡ true) (λ _. self.old.started ≡ false) }
        ensures stopped { OnOk result (self.new ≡ empty_log) }
        ensures same { OnErr result (self.new ≡ self.old) }
    {
        if !self.started {
            return Err(NotStarted);
        }
        self.reset();
        Ok(())
    }

    /// Stops the log, if it is started, and clears its marks.
    pub fn reset(&mut self)
        ensures { self.new ≡ empty_log }
    {
        self.started = false;
        self.marked.clear();
    }

    /// The marked pages.
    pub fn marks(&self) -> &PageSet
        ensures { result.now ≡ self.now.marked }
    {
        &self.marked
    }

    /// How many pages are marked.
    pub fn count(&self) -> u32
        ensures { result ≡ length self.now.marked }
    {
        self.marked.len()
    }
}
