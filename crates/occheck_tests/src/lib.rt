//! What no row shows: the public calls that no script reaches, and what they refuse; the form of operands with one
//! operator between each two.
#![tactic(auto)]

#[cfg(test)]
mod board;
#[cfg(test)]
mod check;
#[cfg(test)]
mod expanded;
#[cfg(test)]
mod expansion;
#[cfg(test)]
mod forged;
#[cfg(test)]
mod form;
#[cfg(test)]
mod receipts;
#[cfg(test)]
mod scope;
#[cfg(test)]
mod server;
#[cfg(test)]
mod threads;
#[cfg(test)]
mod types;
#[cfg(test)]
mod units;
#[cfg(test)]
mod words;
