//! Worked rows: subscripts, segments, segments of segments, names.
ghost use Rattle.std.specs.Prelude.{◌≡◌, ◌∷◌, [], None, Some, codes, false, negsuc, pos, true};
ghost use Rattle.occ_types.specs.declared.interface.PartSelector.TheVariants as s;
ghost use Rattle.occ_types.specs.declared.interface.Places.TheVariants as places;
ghost use Rattle.occ_usage_parts.specs.declared.part.Overlap.TheVariants as o;
ghost use Rattle.occ_usage_parts.specs.Keeping.{meets_some};
ghost use Rattle.occ_usage_parts.specs.Parts.{overlap_of, overlap_of_selectors};
ghost use Rattle.occ_usage_parts.specs.Places.{common, moved};
ghost use Rattle.occ_usage_parts.specs.Selecting.{following, followed_by, inside, named, part_of, retyped, segment, subscript, sure, unsure, whole, with_field, with_segment, with_subscript};

/// `a[1]`, `a[2]`, `a[i]` with an `i` that is not known, `a`, and `b`.
pub fn subscript_rows()
    ensures apart { overlap_of_selectors (s.Interval (subscript (Some (pos 1))) ∷ []) (s.Interval (subscript (Some (pos 2))) ∷ []) ≡ o.Apart }
    ensures same { overlap_of_selectors (s.Interval (subscript (Some (pos 1))) ∷ []) (s.Interval (subscript (Some (pos 1))) ∷ []) ≡ o.Must }
    ensures unknown { overlap_of_selectors (s.Interval (subscript None) ∷ []) (s.Interval (subscript (Some (pos 2))) ∷ []) ≡ o.May }
    ensures longer { overlap_of_selectors [] (s.Interval (subscript (Some (pos 2))) ∷ []) ≡ o.Must }
    ensures longer_unknown { overlap_of_selectors (s.Interval (subscript None) ∷ []) [] ≡ o.Must }
    ensures deeper { overlap_of_selectors (s.Interval (subscript None) ∷ s.Interval (subscript (Some (pos 1))) ∷ []) (s.Interval (subscript (Some (pos 1))) ∷ s.Interval (subscript (Some (pos 2))) ∷ []) ≡ o.Apart }
    ensures roots { overlap_of (record { root = 0; selectors = [] }) (record { root = 1; selectors = [] }) ≡ o.Apart }
    ensures root { overlap_of (record { root = 1; selectors = [] }) (record { root = 1; selectors = [] }) ≡ o.Must }
{}

/// `[a FROM 1 FOR 2]`, `[a FROM 2]` with an `a` of unknown size, `[a FROM n FOR 0]`, and segments of no places.
pub fn segment_rows()
    ensures inside { overlap_of_selectors (s.Interval (segment (Some (pos 1)) (Some (pos 2))) ∷ []) (s.Interval (subscript (Some (pos 2))) ∷ []) ≡ o.Must }
    ensures outside { overlap_of_selectors (s.Interval (segment (Some (pos 1)) (Some (pos 2))) ∷ []) (s.Interval (subscript (Some (pos 3))) ∷ []) ≡ o.Apart }
    ensures beside { overlap_of_selectors (s.Interval (segment (Some (pos 0)) (Some (pos 2))) ∷ []) (s.Interval (segment (Some (pos 2)) (Some (pos 2))) ∷ []) ≡ o.Apart }
    ensures crossing { overlap_of_selectors (s.Interval (segment (Some (pos 0)) (Some (pos 3))) ∷ []) (s.Interval (segment (Some (pos 2)) (Some (pos 2))) ∷ []) ≡ o.Must }
    ensures from_before { overlap_of_selectors (s.Interval (segment (Some (pos 2)) None) ∷ []) (s.Interval (subscript (Some (pos 1))) ∷ []) ≡ o.Apart }
    ensures from { overlap_of_selectors (s.Interval (segment (Some (pos 2)) None) ∷ []) (s.Interval (subscript (Some (pos 2147483647))) ∷ []) ≡ o.May }
    ensures from_from { overlap_of_selectors (s.Interval (segment (Some (pos 2)) None) ∷ []) (s.Interval (segment (Some (pos 7)) None) ∷ []) ≡ o.May }
    ensures unknown_base { segment None (Some (pos 0)) ≡ unsure places.All }
    ensures empty { overlap_of_selectors (s.Interval (segment (Some (pos 2)) (Some (pos 0))) ∷ []) [] ≡ o.Apart }
    ensures negative { segment (Some (pos 2)) (Some (negsuc 0)) ≡ sure places.None }
    ensures empty_after { overlap_of_selectors (s.Interval (subscript (Some (pos 1))) ∷ s.Interval (segment (Some (pos 2)) (Some (pos 0))) ∷ []) (s.Interval (subscript (Some (pos 1))) ∷ []) ≡ o.Apart }
    ensures longest { segment (Some (pos 0)) (Some (pos 4294967296)) ≡ sure (places.Run (pos 0) 4294967295) }
    ensures too_long { segment (Some (pos 0)) (Some (pos 4294967297)) ≡ sure (places.From (pos 0)) }
{}

/// What is selected from `[a FROM 2 FOR 3]`, from `[a FROM n FOR 3]` with an `n` that is not known, and from segments of
/// segments.
pub fn segment_of_segment_rows()
    ensures subscript { part_of (with_subscript (with_segment (whole 0) (Some (pos 2)) (Some (pos 3))) (Some (pos 1))) ≡ record { root = 0; selectors = s.Interval (sure (places.Run (pos 3) 0)) ∷ [] } }
    ensures after_the_end { part_of (with_subscript (with_segment (whole 0) (Some (pos 2)) (Some (pos 3))) (Some (pos 3))) ≡ record { root = 0; selectors = s.Interval (sure places.None) ∷ [] } }
    ensures segment { part_of (with_segment (with_segment (whole 0) (Some (pos 2)) (Some (pos 3))) (Some (pos 1)) (Some (pos 9))) ≡ record { root = 0; selectors = s.Interval (sure (places.Run (pos 3) 1)) ∷ [] } }
    ensures third { part_of (with_subscript (with_segment (with_segment (whole 0) (Some (pos 2)) (Some (pos 3))) (Some (pos 1)) (Some (pos 2))) (Some (pos 1))) ≡ record { root = 0; selectors = s.Interval (sure (places.Run (pos 4) 0)) ∷ [] } }
    ensures next { part_of (with_subscript (with_subscript (with_segment (whole 0) (Some (pos 2)) (Some (pos 3))) (Some (pos 1))) (Some (pos 7))) ≡ record { root = 0; selectors = s.Interval (sure (places.Run (pos 3) 0)) ∷ s.Interval (sure (places.Run (pos 7) 0)) ∷ [] } }
    ensures unknown_base { part_of (with_subscript (with_segment (whole 0) None (Some (pos 3))) (Some (pos 1))) ≡ record { root = 0; selectors = s.Interval (unsure places.All) ∷ [] } }
    ensures empty_in_unknown { part_of (with_segment (with_segment (whole 0) None (Some (pos 3))) (Some (pos 0)) (Some (pos 0))) ≡ record { root = 0; selectors = s.Interval (unsure places.All) ∷ [] } }
    ensures unknown_in_known { part_of (with_segment (with_segment (whole 0) (Some (pos 2)) (Some (pos 3))) None (Some (pos 1))) ≡ record { root = 0; selectors = s.Interval (unsure (places.Run (pos 2) 2)) ∷ [] } }
    ensures in_unknown_in_known { part_of (with_subscript (with_segment (with_segment (whole 0) (Some (pos 2)) (Some (pos 3))) None (Some (pos 1))) (Some (pos 0))) ≡ record { root = 0; selectors = s.Interval (unsure (places.Run (pos 2) 2)) ∷ [] } }
    ensures sure_in_from { part_of (with_subscript (with_segment (whole 0) (Some (pos 2)) None) (Some (pos 1))) ≡ record { root = 0; selectors = s.Interval (sure (places.Run (pos 3) 0)) ∷ [] } }
    ensures base { following (Some (pos 2)) (Some (negsuc 0)) ≡ Some (pos 1) }
    ensures beyond { inside (sure (places.From (pos 1))) (Some (pos 9223372036854775807)) (subscript (Some (pos 1))) ≡ unsure (places.From (pos 1)) }
    ensures base_beyond { following (Some (pos 9223372036854775807)) (Some (pos 1)) ≡ None }
{}

/// `r[x]` and `r[y]`, names that RETYPES or an abbreviation gives, and a formal whose actual is `[a FROM 2 FOR 3]`.
pub fn name_rows()
    ensures fields { overlap_of (part_of (with_field (whole 0) (codes "x"))) (part_of (with_field (whole 0) (codes "y"))) ≡ o.Apart }
    ensures field { overlap_of (part_of (with_field (whole 0) (codes "x"))) (part_of (with_subscript (with_field (whole 0) (codes "x")) (Some (pos 1)))) ≡ o.Must }
    ensures retyped { part_of (with_subscript (retyped (with_subscript (whole 0) (Some (pos 1)))) (Some (pos 7))) ≡ record { root = 0; selectors = s.Interval (sure (places.Run (pos 1) 0)) ∷ [] } }
    ensures retyped_segment { part_of (with_segment (retyped (with_segment (whole 0) (Some (pos 2)) (Some (pos 3)))) (Some (pos 0)) (Some (pos 1))) ≡ record { root = 0; selectors = s.Interval (sure (places.Run (pos 2) 2)) ∷ [] } }
    ensures named { (named (named (whole 0) 3) 5).chain ≡ 3 ∷ 5 ∷ [] }
    ensures followed { followed_by (with_segment (whole 0) (Some (pos 2)) (Some (pos 3))) (s.Interval (subscript (Some (pos 1))) ∷ s.Field (codes "x") ∷ []) ≡ record { root = 0; selectors = s.Interval (sure (places.Run (pos 3) 0)) ∷ s.Field (codes "x") ∷ [] } }
    ensures whole_formal { followed_by (with_segment (whole 0) (Some (pos 2)) (Some (pos 3))) [] ≡ record { root = 0; selectors = s.Interval (sure (places.Run (pos 2) 2)) ∷ [] } }
    ensures component { followed_by (with_subscript (whole 0) (Some (pos 2))) (s.Interval (subscript (Some (pos 1))) ∷ []) ≡ record { root = 0; selectors = s.Interval (sure (places.Run (pos 2) 0)) ∷ s.Interval (sure (places.Run (pos 1) 0)) ∷ [] } }
    ensures retyped_actual { followed_by (retyped (whole 0)) (s.Interval (subscript (Some (pos 1))) ∷ []) ≡ record { root = 0; selectors = [] } }
{}
