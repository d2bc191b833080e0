// The call set up.
#![tactic(auto)]

pub mod set_up; // set_up.rt: the call
pub mod settings; // settings.rt: the settings that set up is told
