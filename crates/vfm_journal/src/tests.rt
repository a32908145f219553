//! What no clause says: that a journal is made with ample memory.

use crate::Journal;
use std::test::Fail;
use vfm_types::{DeviceId, Entry};

#[test]
fn a_journal_keeps_its_entries_in_order(rt: HostRuntime) -> Result<(), Fail> {
    let mut journal = Journal::with_room(rt.alloc(), 2)?;
    let issue = Entry::Issue {
        d: DeviceId(3),
        n: 7,
    };
    assert!(rt; journal.is_empty());
    journal.push(issue);
    journal.push(Entry::Begin);
    assert!(rt; journal.len() == 2);
    assert!(rt; journal.at(0) == issue);
    assert!(rt; journal.at(1) == Entry::Begin);
    Ok(())
}
