//! The auditor: whether the journals of a move are one legal run of its machine, and whether the states that a report
//! prints are those of that run.
#![tactic(auto)]

mod fault;
mod journals;
mod laws;
mod report;
mod same;
mod steps;

pub use fault::{AuditFault, ReportFault, Section};
pub use journals::audit;
pub use laws::{
    a_report_has_one_audit, legal_reports_have_their_run, printed_entries_can_be_audited,
};
pub use report::{audit_journals, audit_report};

#[cfg(test)]
mod tests;
