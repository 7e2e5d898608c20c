//! What accepting gives: the state that is shown. So whatever a program asks of a session while it waits is a preview.
#![tactic(auto)]

pub mod laws;
