// What the entries ask of their arguments: the checks in front of them, the rescaling, and the door past both.
#![tactic(auto)]

pub mod checks;
pub mod door;
pub mod rescaling;
