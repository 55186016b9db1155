//! That the input of a check decides what the rules give; that each open unit has a job; that circles of `#USE` have
//! their G2.
ghost use Rattle.occ_base.specs.FileName.{is_unit};
ghost use Rattle.occ_check.specs.Diagnostics.{diags_of, interface_of};
ghost use Rattle.occ_check.specs.Input.{IsInput};
ghost use Rattle.occ_check.specs.declared.used.UsedUnit.{UsedUnit};
ghost use Rattle.occ_project.specs.declared.reads.Read.{Read};
ghost use Rattle.occ_check.specs.Checks.{diags, input, interface};
ghost use Rattle.occ_project_units.specs.Project.{IsProject, file_of};
ghost use Rattle.occ_project_units.specs.Units.{unit_reads, used_units};
ghost use Rattle.std.specs.Option.{is_some};
ghost use Rattle.std.specs.Prelude.{◌≡◌, ℕ, List, map, true};

use super::checked::Checked;
use occ_project_units::laws::{along_law, reads_law};

/// What the rules give for a unit of a project is what they give for the input of its check alone.
pub fn input_law()
    ensures diags { (files : List Read) (u : List ℕ) → IsProject files → diags files u ≡ diags_of (input files u) }
    ensures interface { (files : List Read) (u : List ℕ) → IsProject files → interface files u ≡ interface_of (input files u) }
{
    along_law::<Checked>();
}

/// There is a check of each open unit of a project, with the files that it reads there, and with the units that it
/// uses: as they stand there, or otherwise.
pub fn job_law()
    ensures stands { (files : List Read) (u : List ℕ) → is_unit u ≡ true → is_some (file_of files u).source ≡ true → IsInput (input files u) }
    ensures any { (files : List Read) (u : List ℕ) (used : List UsedUnit) → is_unit u ≡ true → is_some (file_of files u).source ≡ true → map (λ one. one.unit) used ≡ used_units files u → IsInput (record { unit = u; reads = unit_reads files u; used = used }) }
{
    reads_law();
}
