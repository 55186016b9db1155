//! A server of the language server protocol, without devices: it takes messages as bytes, and gives what is sent in return.
#![tactic(auto)]

mod diagnostics;
mod sending;
mod server;

pub use server::{Flow, LanguageServer, Phase};
