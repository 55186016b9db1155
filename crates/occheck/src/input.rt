//! Where a script is read from: standard input or a file.
use std::fs::File;
use std::io::{self, Read, Stdin};

/// Where a script is read from.
#[derive(Drop)]
pub enum Input {
    Standard(Stdin),
    File(File),
}

impl Read for Input {
    fn read(&mut self, buffer: &mut [u8]) -> io::Result<usize> {
        match self {
            Input::Standard(input) => input.read(buffer),
            Input::File(file) => file.read(buffer),
        }
    }
}
