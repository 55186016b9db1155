//! Worked rows: some file names, how diagnostics print, and their order.
ghost use Rattle.std.specs.Prelude.{◌≡◌, ◌++◌, ◌∷◌, [], codes, false, map, None, replicate, Some, true};
ghost use Rattle.occ_base.specs.Diag.{diag_line};
ghost use Rattle.occ_base.specs.FileName.{is_unit, name_fault};
ghost use Rattle.occ_base.specs.Order.{all_codes, is_rising};
ghost use Rattle.occ_base.specs.Sample.{sample};
ghost use Rattle.occ_base.specs.declared.code.Code.TheVariants as code;
ghost use Rattle.occ_base.specs.declared.code.Grade.TheVariants as grade;
ghost use Rattle.occ_base.specs.declared.file_name.NameFault.TheVariants as fault;

/// What the definition of a file name says of some bytes.
pub fn file_name_rows()
    ensures unit { name_fault (codes "a.occ") ≡ None }
    ensures included { name_fault (codes "k-1_x.2.inc") ≡ None }
    ensures list { name_fault (codes "z.lbb") ≡ None }
    ensures bare { name_fault (codes ".occ") ≡ None }
    ensures longest { name_fault (replicate 60 97 ++ codes ".occ") ≡ None }
    ensures empty { name_fault (codes "") ≡ Some fault.Length }
    ensures long { name_fault (replicate 61 97 ++ codes ".occ") ≡ Some fault.Length }
    ensures length_first { name_fault (replicate 65 32) ≡ Some fault.Length }
    ensures blank { name_fault (codes "a b.occ") ≡ Some fault.Byte }
    ensures byte_first { name_fault (codes "a/b.txt") ≡ Some fault.Byte }
    ensures suffix { name_fault (codes "z.txt") ≡ Some fault.Suffix }
    ensures capitals { name_fault (codes "A.OCC") ≡ Some fault.Suffix }
    ensures is_unit { is_unit (codes "a.occ") ≡ true }
    ensures library { name_fault (codes "z.lib") ≡ Some fault.Suffix }
    ensures is_text { is_unit (codes "k.inc") ≡ false }
    ensures is_list { is_unit (codes "z.lbb") ≡ false }
{}

/// How some diagnostics print.
pub fn diag_rows()
    ensures named { diag_line (sample (codes "a.occ") 3 code.U1 grade.Error (Some (codes "x"))) ≡ codes "a.occ:3 U1 error x" }
    ensures nameless { diag_line (sample (codes "k.inc") 16384 code.L2 grade.Error None) ≡ codes "k.inc:16384 L2 error -" }
    ensures check { diag_line (sample (codes "a.occ") 4 code.A1 grade.Check (Some (codes "a"))) ≡ codes "a.occ:4 A1 check a" }
{}

/// The order of diagnostics: by file, then by line, then by code, then an error before a check, then by name; each
/// row is a list in rising order in which what stands after the deciding part would turn it.
pub fn order_rows()
    ensures files { is_rising (sample (codes "Z.occ") 9 code.F1 grade.Check (Some (codes "z")) ∷ sample (codes "a.occ") 8 code.U1 grade.Check (Some (codes "y")) ∷ sample (codes "a1.occ") 1 code.G1 grade.Error None ∷ []) ≡ true }
    ensures lines { is_rising (sample (codes "a.occ") 2 code.F1 grade.Check (Some (codes "z")) ∷ sample (codes "a.occ") 10 code.G1 grade.Error None ∷ []) ≡ true }
    ensures codes { is_rising (map (λ c. sample (codes "a.occ") 1 c grade.Error None) all_codes) ≡ true }
    ensures code_first { is_rising (sample (codes "a.occ") 1 code.G1 grade.Check (Some (codes "z")) ∷ sample (codes "a.occ") 1 code.G2 grade.Error None ∷ []) ≡ true }
    ensures grades { is_rising (sample (codes "a.occ") 1 code.A1 grade.Error (Some (codes "z")) ∷ sample (codes "a.occ") 1 code.A1 grade.Check None ∷ []) ≡ true }
    ensures names { is_rising (sample (codes "a.occ") 1 code.N1 grade.Error None ∷ sample (codes "a.occ") 1 code.N1 grade.Error (Some (codes "X")) ∷ sample (codes "a.occ") 1 code.N1 grade.Error (Some (codes "a")) ∷ sample (codes "a.occ") 1 code.N1 grade.Error (Some (codes "a.b")) ∷ sample (codes "a.occ") 1 code.N1 grade.Error (Some (codes "aa")) ∷ []) ≡ true }
{}
