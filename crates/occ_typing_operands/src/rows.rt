//! Worked rows: literals, untyped constants, shifts, wanted types, conversions, parts.
ghost use Rattle.std.specs.Prelude.{[], ◌∷◌, ◌≡◌, None, Some, false, negsuc, pos, true};
ghost use Rattle.occ_base.specs.declared.code.Code.TheVariants as code;
ghost use Rattle.occ_typing_operands.specs.Operators.{front_operated, operated, shift_operated};
ghost use Rattle.occ_typing_operands.specs.Outcomes.{decimal, hexadecimal};
ghost use Rattle.occ_typing_operands.specs.declared.kind.Kind.TheVariants as k;
ghost use Rattle.occ_typing_operands.specs.declared.kind.TypedValue.TheVariants as o;
ghost use Rattle.occ_typing_operands.specs.declared.kind.Wrong.TheVariants as w;
ghost use Rattle.occ_typing_operands.specs.Parts.{field, subscripted};
ghost use Rattle.occ_typing_operands.specs.Settling.{fault_of, int, known, settled, silent};
ghost use Rattle.occ_typing_operands.specs.Wanting.{conversion, wanted};
ghost use Rattle.occ_types.specs.declared.constant.Monadic.TheVariants as m;
ghost use Rattle.occ_types.specs.declared.constant.Operator.TheVariants as op;
ghost use Rattle.occ_types.specs.declared.types.OccType.TheVariants as t;
ghost use Rattle.occ_types.specs.declared.value.Primitive.TheVariants as p;
ghost use Rattle.occ_types.specs.declared.value.Value.TheVariants as v;

/// What literals come to in each type.
pub fn literal_rows()
    ensures byte { (decimal (pos 255)).byte ≡ o.Constant (v.Byte 255) }
    ensures no_byte { (decimal (pos 256)).byte ≡ o.Unfit }
    ensures least { (decimal (negsuc 32767)).int16 ≡ o.Constant (v.Int16 (negsuc 32767)) }
    ensures below { (decimal (negsuc 32768)).int16 ≡ o.Unfit }
    ensures bits { (hexadecimal 65535).int16 ≡ o.Constant (v.Int16 (negsuc 0)) }
    ensures no_bits { (hexadecimal 65536).int16 ≡ o.Unfit }
    ensures no_int { (decimal (pos 5000000000)).int ≡ o.Unfit }
    ensures long { (decimal (pos 5000000000)).int64 ≡ o.Constant (v.Int64 (pos 5000000000)) }
{}

/// Untyped operands under operators: each literal fits, and the sum does not; a minus in front of a literal in
/// parentheses. One faulty operand makes the whole faulty without a word.
pub fn untyped_rows()
    ensures sum { operated op.Add (k.Untyped (decimal (pos 200)) ∷ k.Untyped (decimal (pos 100)) ∷ []) ≡ record { faults = []; kind = k.Untyped (record { is_faulty = false; byte = o.Faulty w.Value; int16 = o.Constant (v.Int16 (pos 300)); int = o.Constant (v.Int (pos 300)); int32 = o.Constant (v.Int32 (pos 300)); int64 = o.Constant (v.Int64 (pos 300)) }) } }
    ensures negated { front_operated m.Negate (k.Untyped (hexadecimal 128)) ≡ record { faults = []; kind = k.Untyped (record { is_faulty = false; byte = o.Faulty w.Value; int16 = o.Constant (v.Int16 (negsuc 127)); int = o.Constant (v.Int (negsuc 127)); int32 = o.Constant (v.Int32 (negsuc 127)); int64 = o.Constant (v.Int64 (negsuc 127)) }) } }
    ensures faulty { operated op.Add (k.Faulty ∷ k.Untyped (decimal (pos 5000000000)) ∷ []) ≡ silent }
{}

/// A free 1 shifted by an INT of 33: the count is too large but for an INT64.
#[tactic(auto, using(occ_types::proofs::Agreeing::fit_rules))]
pub fn shift_rows()
    ensures { shift_operated op.ShiftLeft (k.Untyped (decimal (pos 1))) (known int (Some (v.Int (pos 33)))) ≡ record { faults = []; kind = k.Untyped (record { is_faulty = false; byte = o.Faulty w.Value; int16 = o.Faulty w.Value; int = o.Faulty w.Value; int32 = o.Faulty w.Value; int64 = o.Constant (v.Int64 (pos 8589934592)) }) } }
{}

/// Untyped operands shifted by counts that have a fault, or are no INT: what is reported where an INT is wanted. What is shifted
/// comes first.
#[tactic(auto, using(occ_types::proofs::Agreeing::fit_rules))]
pub fn count_rows()
    ensures silent { settled int (shift_operated op.ShiftLeft (k.Untyped (decimal (pos 5))) k.Faulty).kind ≡ silent }
    ensures unfit { settled int (shift_operated op.ShiftLeft (k.Untyped (decimal (pos 5000000000))) k.Faulty).kind ≡ fault_of code.T6 }
    ensures byte { settled int (shift_operated op.ShiftLeft (k.Untyped (decimal (pos 5))) (known (t.Primitive p.Byte) None)).kind ≡ fault_of code.T1 }
    ensures unfit_byte { settled int (shift_operated op.ShiftLeft (k.Untyped (decimal (pos 5000000000))) (known (t.Primitive p.Byte) None)).kind ≡ fault_of code.T6 }
{}

/// Literals where a type is wanted: 255 is a BYTE, 256 is none but an INT, `#FFFF` stands for the bits of an INT16, and
/// 5000000000 is neither a BYTE nor an INT.
#[tactic(auto, using(occ_types::proofs::Agreeing::fit_rules))]
pub fn wanted_rows()
    ensures byte { wanted (t.Primitive p.Byte) (k.Untyped (decimal (pos 255))) ≡ record { faults = []; kind = known (t.Primitive p.Byte) (Some (v.Byte 255)) } }
    ensures no_byte { wanted (t.Primitive p.Byte) (k.Untyped (decimal (pos 256))) ≡ fault_of code.T2 }
    ensures bits { wanted (t.Primitive p.Int16) (k.Untyped (hexadecimal 65535)) ≡ record { faults = []; kind = known (t.Primitive p.Int16) (Some (v.Int16 (negsuc 0))) } }
    ensures neither { wanted (t.Primitive p.Byte) (k.Untyped (decimal (pos 5000000000))) ≡ fault_of code.T6 }
{}

/// Conversions: 255 and 256 to BYTE, TRUE to INT, and an INT to an array.
#[tactic(auto, using(occ_types::proofs::Agreeing::fit_rules))]
pub fn conversion_rows()
    ensures byte { conversion (t.Primitive p.Byte) (k.Untyped (decimal (pos 255))) ≡ record { faults = []; kind = known (t.Primitive p.Byte) (Some (v.Byte 255)) } }
    ensures no_byte { conversion (t.Primitive p.Byte) (k.Untyped (decimal (pos 256))) ≡ fault_of code.T6 }
    ensures truth { conversion int (known (t.Primitive p.Bool) (Some (v.Bool true))) ≡ record { faults = []; kind = known int (Some (v.Int (pos 1))) } }
    ensures array { conversion (t.Array (Some 2) int) (known int None) ≡ fault_of code.T2 }
{}

/// The places 3 and 4 of an array of four, a place of an INT, and the names `x`, which is 120, and `z`, which is 122, in a
/// record with the field `x`, and with one whose line has a fault.
#[tactic(auto, using(occ_types::proofs::Agreeing::fit_rules))]
pub fn part_rows()
    ensures inside { subscripted (t.Array (Some 4) int) (k.Untyped (decimal (pos 3))) ≡ record { faults = []; kind = known int None } }
    ensures following { subscripted (t.Array (Some 4) int) (k.Untyped (decimal (pos 4))) ≡ fault_of code.T6 }
    ensures no_array { subscripted int (k.Untyped (decimal (pos 0))) ≡ fault_of code.T2 }
    ensures field { field ((record { name = 120 ∷ []; of = int }) ∷ []) (120 ∷ []) ≡ record { faults = []; kind = known int None } }
    ensures no_field { field ((record { name = 120 ∷ []; of = int }) ∷ []) (122 ∷ []) ≡ record { faults = (record { code = code.N1; name = Some (122 ∷ []) }) ∷ []; kind = k.Faulty } }
    ensures faulty_field { field ((record { name = 120 ∷ []; of = t.Unknown }) ∷ []) (120 ∷ []) ≡ silent }
{}
