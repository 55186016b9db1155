//! Takes a job out of those that are handed out.
ghost use Rattle.occ_board.specs.Machine.{unhanded};
ghost use Rattle.occ_board.specs.Same.{same_input};
ghost use Rattle.std.specs.Prelude.{◌≡◌};

use super::comparing::Same;
use occ_check::Job;

/// Whether two jobs are one.
fn is_job(one: &Job, other: &Job) -> bool
    ensures { result ≡ same_input one.now other.now }
{
    one.is_same(other)
}

/// Takes a job away from those that are handed out.
pub fn unhand(handed: &mut Vec<Job>, job: &Job)
    ensures { handed.new.items ≡ unhanded handed.old.items job.now }
{
    let mut index = 0;
    while index < handed.len() {
        if is_job(&handed[index], job) {
            handed.remove(index);
        } else {
            index += 1;
        }
    }
}
