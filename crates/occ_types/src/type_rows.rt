//! Worked rows: bytes and measures of types.
#![tactic(auto, using(crate::proofs::Measures::measure_rules, crate::proofs::Sizes::size_rules))]

ghost use Rattle.occ_types.specs.Fits.{field_fits, tag_fits};
ghost use Rattle.occ_types.specs.Measure.{item_measure, measure_of, protocol_measure};
ghost use Rattle.occ_types.specs.Size.{bytes_in, size_of};
ghost use Rattle.occ_types.specs.declared.types.Field.{Field as AField};
ghost use Rattle.occ_types.specs.declared.types.Item.TheVariants as i;
ghost use Rattle.occ_types.specs.declared.types.OccType.TheVariants as t;
ghost use Rattle.occ_types.specs.declared.types.Packing.TheVariants as packing;
ghost use Rattle.occ_types.specs.declared.types.Protocol.TheVariants as c;
ghost use Rattle.occ_types.specs.declared.value.Primitive.TheVariants as p;
ghost use Rattle.std.specs.Prelude.{None, Some, [], false, true, ◌∷◌, ◌≡◌};

/// The bytes of types.
pub fn size_rows()
    ensures int64 { size_of (t.Primitive p.Int64) ≡ Some 8 }
    ensures bool { size_of (t.Primitive p.Bool) ≡ Some 1 }
    ensures record { size_of (t.Record packing.Plain ((record { name = 97 ∷ []; of = t.Primitive p.Int }) ∷ (record { name = 98 ∷ []; of = t.Primitive p.Byte }) ∷ [])) ≡ Some 5 }
    ensures no_fields { size_of (t.Record packing.Packed []) ≡ Some 0 }
    ensures array { size_of (t.Array (Some 3) (t.Array (Some 2) (t.Primitive p.Int16))) ≡ Some 12 }
    ensures named { size_of (t.Named (78 ∷ []) (t.Primitive p.Int32)) ≡ Some 4 }
    ensures open { size_of (t.Array None (t.Primitive p.Int)) ≡ None }
    ensures open_inside { size_of (t.Array (Some 0) (t.Array None (t.Primitive p.Int))) ≡ None }
    ensures channel { size_of (t.Array (Some 0) (t.Channel c.Any)) ≡ None }
    ensures timer { size_of t.Timer ≡ None }
    ensures greatest { bytes_in (size_of (t.Array (Some 2147483647) (t.Primitive p.Byte))) ≡ Some 2147483647 }
    ensures too_large { bytes_in (size_of (t.Array (Some 536870912) (t.Primitive p.Int))) ≡ None }
    ensures none_of_large { bytes_in (size_of (t.Array (Some 0) (t.Array (Some 4294967295) (t.Primitive p.Int64)))) ≡ Some 0 }
{}

/// The levels and the number of the types in a type written out.
pub fn measure_rows()
    ensures int { measure_of (t.Primitive p.Int) ≡ record { levels = 1; types = 1 } }
    ensures timer { measure_of t.Timer ≡ record { levels = 1; types = 1 } }
    ensures array { measure_of (t.Array (Some 3) (t.Array None (t.Primitive p.Int))) ≡ record { levels = 3; types = 3 } }
    ensures no_fields { measure_of (t.Record packing.Plain []) ≡ record { levels = 1; types = 1 } }
    ensures fields { measure_of (t.Record packing.Plain ((record { name = 97 ∷ []; of = t.Primitive p.Int }) ∷ (record { name = 98 ∷ []; of = t.Named (78 ∷ []) (t.Primitive p.Int) }) ∷ [])) ≡ record { levels = 3; types = 4 } }
    ensures any { measure_of (t.Channel c.Any) ≡ record { levels = 2; types = 2 } }
    ensures carried { measure_of (t.Channel (c.Sequence (i.Value (t.Primitive p.Int) ∷ []))) ≡ record { levels = 2; types = 2 } }
    ensures counted { item_measure (i.Counted p.Byte (t.Primitive p.Int)) ≡ record { levels = 2; types = 3 } }
    ensures tags { protocol_measure (c.Variant ((record { name = 97 ∷ []; items = i.Value (t.Primitive p.Int) ∷ [] }) ∷ (record { name = 98 ∷ []; items = [] }) ∷ [])) ≡ record { levels = 1; types = 1 } }
    ensures defined { protocol_measure (c.Defined (80 ∷ []) (c.Sequence (i.Value (t.Primitive p.Int) ∷ i.Value (t.Primitive p.Byte) ∷ []))) ≡ record { levels = 2; types = 3 } }
{}

/// A field `x` whose line has a fault agrees with any `x`, and with no `y`; so does a tag, whatever stands after it.
#[tactic(auto, using(crate::proofs::Agreeing::fit_rules))]
pub fn fault_rows()
    ensures first { field_fits (record { name = 120 ∷ []; of = t.Unknown }) (record { name = 120 ∷ []; of = t.Array None t.Timer }) ≡ true }
    ensures second { field_fits (record { name = 120 ∷ []; of = t.Primitive p.Int }) (record { name = 120 ∷ []; of = t.Unknown }) ≡ true }
    ensures name { field_fits (record { name = 120 ∷ []; of = t.Unknown }) (record { name = 121 ∷ []; of = t.Unknown }) ≡ false }
    ensures other { field_fits (record { name = 120 ∷ []; of = t.Primitive p.Int }) (record { name = 120 ∷ []; of = t.Primitive p.Byte }) ≡ false }
    ensures tag { tag_fits (record { name = 116 ∷ []; items = i.Value t.Unknown ∷ [] }) (record { name = 116 ∷ []; items = [] }) ≡ true }
    ensures other_tag { tag_fits (record { name = 116 ∷ []; items = [] }) (record { name = 116 ∷ []; items = i.Value (t.Primitive p.Int) ∷ [] }) ≡ false }
{}
