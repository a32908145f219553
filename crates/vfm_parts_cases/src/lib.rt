//! Worked cases of the parts of a machine, each checked by computation: functions without a body whose clauses hold by
//! themselves.
#![tactic(auto)]

pub mod cells;
pub mod forgotten;
pub mod journals;
pub mod staged;
