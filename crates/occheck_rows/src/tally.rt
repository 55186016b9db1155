//! How many rows were met, and how many were not.
ghost use Rattle.std.specs.Fmt.{decimal};
ghost use Rattle.std.specs.Prelude.{◌≡◌, ◌++◌, Some, codes, cond};
ghost use Rattle.occheck_script.specs.Devices.{counted};

use std::fmt;

/// How many checks held, and how many did not, each counted up to the greatest number of 64 bits.
#[derive(Clone, Copy)]
pub struct Tally {
    pub passed: u64,
    pub failed: u64,
}

impl Tally {
    /// No check yet.
    pub fn new() -> Tally
        ensures passed { result.passed ≡ 0 }
        ensures failed { result.failed ≡ 0 }
    {
        Tally {
            passed: 0,
            failed: 0,
        }
    }

    /// One more check, which held or not.
    pub fn add(&mut self, held: bool)
        ensures passed { self.new.passed ≡ cond held (counted self.old.passed 1) self.old.passed }
        ensures failed { self.new.failed ≡ cond held self.old.failed (counted self.old.failed 1) }
    {
        if held {
            self.passed = self.passed.saturating_add(1);
        } else {
            self.failed = self.failed.saturating_add(1);
        }
    }
}

impl fmt::Display for Tally {
    ghost output = { λ t. Some (decimal t.passed ++ codes " passed, " ++ decimal t.failed ++ codes " failed") };

    fn fmt<W: fmt::Write>(&self, f: &mut fmt::Formatter<W>) -> fmt::Result {
        let passed = self.passed;
        let failed = self.failed;
        write!(f, "{passed} passed, {failed} failed")
    }
}
