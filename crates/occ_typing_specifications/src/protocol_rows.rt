//! Worked rows: items and tags with and without a fault.
ghost use Rattle.std.specs.Prelude.{[], ◌∷◌, ◌≡◌, None, Some, codes};
ghost use Rattle.occ_base.specs.declared.code.Code.TheVariants as code;
ghost use Rattle.occ_typing_operands.specs.Settling.{int};
ghost use Rattle.occ_types.specs.declared.types.Item.TheVariants as i;
ghost use Rattle.occ_types.specs.declared.types.OccType.TheVariants as t;
ghost use Rattle.occ_types.specs.declared.value.Primitive.TheVariants as p;
ghost use Rattle.occ_typing_specifications.specs.Items.{counted_if, value_if};
ghost use Rattle.occ_typing_specifications.specs.Tags.{tag_items};

/// An item of a known type and of one with a fault; a counted one of a BYTE and INTs, and where the type of its count or of
/// its values has a fault.
pub fn item_rows()
    ensures value { value_if (Some int) ≡ Some (i.Value int) }
    ensures faulty { value_if None ≡ None }
    ensures counted { counted_if (Some p.Byte) (Some int) ≡ Some (i.Counted p.Byte int) }
    ensures no_count { counted_if None (Some int) ≡ None }
    ensures no_values { counted_if (Some p.Byte) None ≡ None }
{}

/// The items of a tag without a fault, of one that reported T8, and of one that names a faulty type.
pub fn tag_rows()
    ensures known { tag_items [] (Some (i.Value int ∷ [])) ≡ i.Value int ∷ [] }
    ensures reported { tag_items ((record { code = code.T8; name = Some (codes "a") }) ∷ []) (Some (i.Value int ∷ [])) ≡ i.Value t.Unknown ∷ [] }
    ensures faulty { tag_items [] None ≡ i.Value t.Unknown ∷ [] }
{}
