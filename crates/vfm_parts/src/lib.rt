//! What the parts of a machine on its move hold, and the laws that let each entry be judged and made on the parts that
//! it touches. Each law is a function without a body whose contract states it.
#![tactic(auto)]

mod local;
mod page_sets;

pub use local::{effects_are_local, faults_are_local, parts_begin};
pub use page_sets::sets_are_page_sets;
