//! Tests of public calls that no table of rows reaches, and the instances of traits that they take:
//! tables of moves that are data, and steps with one rule.
#![tactic(auto)]

// The definitions in specs/ are of types of these two, so that they stand here without tests, too.
mod fragile;
mod ways;

pub use fragile::{Breaking, Fragile};
pub use ways::{Kind, Way, joined};

#[cfg(test)]
mod again;
#[cfg(test)]
mod base_tests;
#[cfg(test)]
mod best;
#[cfg(test)]
mod best_all;
#[cfg(test)]
mod best_tests;
#[cfg(test)]
mod carry_tests;
#[cfg(test)]
mod certificate_tests;
#[cfg(test)]
mod cost_tests;
#[cfg(test)]
mod derivation_tests;
#[cfg(test)]
mod listed;
#[cfg(test)]
mod loop_tests;
#[cfg(test)]
mod looping;
#[cfg(test)]
mod memo_tests;
#[cfg(test)]
mod moves_tests;
#[cfg(test)]
mod outside_tests;
#[cfg(test)]
mod random;
#[cfg(test)]
mod rows;
#[cfg(test)]
mod search;
#[cfg(test)]
mod syntax_tests;
#[cfg(test)]
mod toy;
#[cfg(test)]
mod trial_tests;
