//! Tests of jobs that are made by hand.
#![tactic(auto)]

#[cfg(test)]
mod turned;
