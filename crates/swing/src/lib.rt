// The swing time (document 02, 2026-01): the layer that a technician uses, above the entries.
#![tactic(auto)]

pub mod period;
