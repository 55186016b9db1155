//! Tests of which files are found, and of the server for editors, on a disk that is a list of files.
#![tactic(auto)]

#[cfg(test)]
mod finding;
#[cfg(test)]
mod serving;
