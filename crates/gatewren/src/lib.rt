// The C interface, for C and Rust to link: the leaves and the entries under C names. A list only; what each does is in its crate.
#![tactic(auto)]

mod bench_layer;
mod decimals;
mod entries;
mod fused_leaf;
mod leaves;
mod power_leaf;
mod profile_entries;
mod reports;
mod series_leaf;
mod swing_layer;
mod tables;
mod work_lists;
