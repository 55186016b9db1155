//! What makes the program fail, and its exit status.
ghost use Rattle.occ.specs.Failing.{fails as spec_fails, is_race as spec_is_race, status_of};
ghost use Rattle.std.specs.Prelude.{◌≡◌};

use occ_base::{Code, Grade};

/// Nothing is wrong.
pub const CLEAN: u8 = 0;
/// An error was told.
pub const ERRORS: u8 = 1;
/// A file, the command line, memory or a device cannot be read or had.
pub const TROUBLE: u8 = 2;

/// Whether a code is about races: of U or A.
fn is_race(code: Code) -> bool
    ensures { result ≡ spec_is_race code }
{
    matches!(
        code,
        Code::U1 | Code::U2 | Code::U3 | Code::A1 | Code::A2 | Code::A3 | Code::A4
    )
}

/// Whether a diagnostic makes the program fail: an error does, and where races have to be excluded each of U or A.
pub fn does_fail(race_free: bool, grade: Grade, code: Code) -> bool
    ensures { result ≡ spec_fails race_free grade code }
{
    match grade {
        Grade::Error => true,
        Grade::Check => race_free && is_race(code),
    }
}

/// The exit status.
pub fn status(is_trouble: bool, fails: bool) -> u8
    ensures { result ≡ status_of is_trouble fails }
{
    if is_trouble {
        TROUBLE
    } else if fails {
        ERRORS
    } else {
        CLEAN
    }
}
