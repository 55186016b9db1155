//! What was read of a script and is not answered: part of a command, or nothing.
ghost use Rattle.occheck_commands.specs.Ended.{IsNoFeed};
ghost use Rattle.occheck_commands.specs.Left.{ending};
ghost use Rattle.occheck_script.specs.inside.Begun.{IsBegun};
ghost use Rattle.occheck_script.specs.inside.Going.{IsRefusedIn};
ghost use Rattle.std.specs.Prelude.{◌≡◌, ◌≤◌, ◌<◌, ◌+◌, ◌^◌, ◌++◌, Bool, List, OnErr, OnOk, [], drop, length, ℕ};

use occheck_commands::{Lines, lines_lacking, skip_blank};
use std::alloc::{AllocError, Global};

/// What was read of a script and is not answered.
#[derive(Drop)]
pub struct Begun {
    pub bytes: Vec<u8>,
    /// The line on which it begins.
    pub line: usize,
    /// How many lines have to end before a command can be whole, at least.
    pub lacks: usize,
}

/// How far some bytes were answered, and what is left.
#[derive(Clone, Copy)]
pub struct Answered {
    /// How many bytes the commands used up.
    pub used: usize,
    /// The line after them.
    pub line: usize,
    /// How many lines have to end before the next command can be whole, at least.
    pub lacks: usize,
}

impl Begun {
    /// Nothing was read.
    pub fn new(alloc: Global) -> Begun
        ensures bytes { result.bytes.items ≡ [] }
        ensures line { result.line ≡ 1 }
        ensures lacks { result.lacks ≡ 1 }
        ensures begun { IsBegun result }
    {
        Begun {
            bytes: Vec::new(alloc),
            line: 1,
            lacks: 1,
        }
    }

    /// What was read, and then these bytes. Lines without bytes in front of a command are left out.
    pub fn add(&mut self, piece: &[u8]) -> Result<(), AllocError>
        requires begun { IsBegun self.old }
        requires small { self.old.line + length self.old.bytes.items + length piece.now < 2 ^ 60 }
        ensures begun { OnOk result (IsBegun self.new) }
        ensures same { OnOk result ((over : Bool) (more : List ℕ) → ending over self.new.line (self.new.bytes.items ++ more) ≡ ending over self.old.line (self.old.bytes.items ++ (piece.now ++ more))) }
        ensures line { OnOk result (self.new.line + length self.new.bytes.items ≡ self.old.line + length self.old.bytes.items + length piece.now) }
        ensures refused { OnErr result ((over : Bool) (more : List ℕ) → IsRefusedIn 0 (ending over self.old.line (self.old.bytes.items ++ (piece.now ++ more)))) }
    {
        let added = self.without_blank(piece);
        match self.bytes.extend_from_slice(added) {
            Ok(()) => {
                self.lacks = lines_lacking(added, self.lacks);
                Ok(())
            }
            Err(refused) => Err(refused),
        }
    }

    /// What of the bytes goes on with what was read: where that is nothing, without the lines without bytes that come first.
    fn without_blank<'a>(&mut self, piece: &'a [u8]) -> &'a [u8]
        requires begun { IsBegun self.old }
        requires small { self.old.line + length piece.now < 2 ^ 60 }
        ensures begun { IsBegun self.new }
        ensures bytes { self.new.bytes ≡ self.old.bytes }
        ensures begins { IsNoFeed (self.old.bytes.items ++ result.now) }
        ensures same { (over : Bool) (more : List ℕ) → ending over self.new.line (self.old.bytes.items ++ (result.now ++ more)) ≡ ending over self.old.line (self.old.bytes.items ++ (piece.entry.now ++ more)) }
        ensures line { self.new.line + length result.now ≡ self.old.line + length piece.entry.now }
    {
        if !self.bytes.is_empty() {
            return piece;
        }
        let left = skip_blank(Lines {
            bytes: piece,
            line: self.line,
        });
        self.line = left.line;
        self.lacks = 1;
        left.bytes
    }

    /// What is left after commands that used bytes up.
    pub fn keep(&mut self, answered: Answered)
        requires { answered.used ≤ length self.old.bytes.items }
        ensures bytes { self.new.bytes.items ≡ drop answered.used self.old.bytes.items }
        ensures line { self.new.line ≡ answered.line }
        ensures lacks { self.new.lacks ≡ answered.lacks }
    {
        self.bytes.drain(..answered.used);
        self.line = answered.line;
        self.lacks = answered.lacks;
    }
}
