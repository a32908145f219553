//! The copying law of legal runs: at the end of the last pass every page was copied last, and every block
//! read last, as it stands at the joint stop. Each law is a function without a body whose contract states
//! it; the definitions are those of `vfm_types` and `vfm_plain`, and of this crate what was copied and read
//! last, and what of it may have changed since.
#![tactic(auto)]

mod changed;
mod few;
mod joint;
mod losing;

pub use changed::{changed_block_is_stale, changed_page_is_stale};
pub use few::{copies_are_few, readings_are_few};
pub use joint::{
    last_pass_copies_joint_pages, last_pass_reads_joint_blocks, last_pass_sends_joint_machine,
    machine_stands_from_joint, reports_before_joint_are_void,
};
pub use losing::{
    copy_again_loses_nothing, dry_with_dirty_block, mark_at_issue, page_skipped,
    pass_without_report, report_before_stop, report_twice, resume_before_last_pass,
    resume_in_last_pass, runs_have_valid_machines,
};
