//! Worked cases of the definitions, each checked by computation: functions without a body whose clauses hold by
//! themselves. Journals are given to `broken` oldest first, and to every fact newest first.
#![tactic(auto)]

pub mod bars;
pub mod blocks;
pub mod changed;
pub mod clean;
pub mod descriptions;
pub mod given_up;
pub mod large;
pub mod marks;
pub mod paths;
pub mod plain;
pub mod refused_arcs;
pub mod refused_copying;
pub mod refused_phases;
pub mod refused_requests;
pub mod runs;
pub mod schedules;
pub mod states;
pub mod texts;
