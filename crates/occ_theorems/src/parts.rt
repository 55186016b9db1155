//! Laws of parts of variables and channels: which of them share an element.
ghost use Rattle.occ_usage_parts.specs.Keeping.{IsUnion, following as spec_after};
ghost use Rattle.occ_usage_parts.specs.Parts.{Meet as MeetElements, all_sure, are_apart, has_empty, overlap_of};
ghost use Rattle.occ_usage_parts.specs.Places.{Meet, common, holds, meet, moved};
ghost use Rattle.occ_usage_parts.specs.Selecting.{inside, unsure};
ghost use Rattle.occ_usage_parts.specs.declared.part.Overlap.TheVariants as o;
ghost use Rattle.occ_usage_parts.specs.declared.part.Part.{Part as APart};
ghost use Rattle.occ_types.specs.declared.interface.Interval.{Interval as AnInterval};
ghost use Rattle.occ_types.specs.declared.interface.PartSelector.{PartSelector as ASelector};
ghost use Rattle.occ_types.specs.declared.interface.Places.{Places as ThePlaces};
ghost use Rattle.std.specs.Prelude.{IfSome, List, None, Some, false, true, ℕ, ℤ, ◌&&◌, ◌++◌, ◌+ℤ◌, ◌||◌, ◌↔◌, ◌≡◌};

/// Two parts are apart exactly if their roots differ or no element is in both; which of them is first does not matter.
/// So no fault is reported of parts that share nothing. They surely meet where all selectors at common depths are sure.
#[tactic(auto, using(crate::proofs::Elements::apart_law, crate::proofs::Elements::must_law, occ_usage_parts::proofs::Turning::overlap_turned, crate::proofs::Elements::empty_apart, crate::proofs::Elements::longer_law))]
pub fn overlap_law()
    ensures apart { (a b : APart) → (overlap_of a b ≡ o.Apart) ↔ (a.root ≡ b.root → MeetElements a.selectors b.selectors → ⊥) }
    ensures must { (a b : APart) → (overlap_of a b ≡ o.Must) ↔ ((a.root ≡ b.root) × MeetElements a.selectors b.selectors × (all_sure a.selectors b.selectors ≡ true)) }
    ensures symmetric { (a b : APart) → overlap_of a b ≡ overlap_of b a }
    ensures empty { (a b : APart) → has_empty a.selectors ≡ true → overlap_of a b ≡ o.Apart }
    ensures longer { (root : ℕ) (xs more : List ASelector) → has_empty (xs ++ more) ≡ false → overlap_of (record { root = root; selectors = xs }) (record { root = root; selectors = xs ++ more }) ≡ o.Apart → ⊥ }
{}

/// Each set of indices is written in one way, and common and moved sets hold exactly the indices that they should.
/// So two sets meet exactly if some index is in both.
#[tactic(auto, using(occ_usage_parts::proofs::Sets::common_holds, crate::proofs::Sets::one_writing, occ_usage_parts::proofs::Sets::meet_exactly, crate::proofs::Sets::moved_holds))]
pub fn interval_law()
    ensures one_writing { (p q : ThePlaces) → ((x : ℤ) → holds p x ≡ holds q x) → p ≡ q }
    ensures common { (p q : ThePlaces) (x : ℤ) → holds (common p q) x ≡ (holds p x && holds q x) }
    ensures meet { (p q : ThePlaces) → (meet p q ≡ true) ↔ Meet p q }
    ensures moved { (b : ℤ) (p : ThePlaces) → IfSome (moved b p) (λ q. (x : ℤ) → holds q (b +ℤ x) ≡ holds p x) }
{}

/// An interval that is selected from a segment with a known base holds those of its indices, counted from there, that are in the segment.
/// Where the base is unknown it is that whole segment, unsure, so no element of it is passed over.
pub fn segment_law()
    ensures places { (outer inner : AnInterval) (b : ℤ) (q : ThePlaces) → moved b inner.places ≡ Some q → (x : ℤ) → holds (inside outer (Some b) inner).places (b +ℤ x) ≡ (holds outer.places (b +ℤ x) && holds inner.places x) }
    ensures mark { (outer inner : AnInterval) (b : ℤ) (q : ThePlaces) → moved b inner.places ≡ Some q → (inside outer (Some b) inner).mark ≡ inner.mark }
    ensures unknown { (outer inner : AnInterval) → inside outer None inner ≡ unsure outer.places }
{}

/// A part whose last interval is the union of those of two others meets a part exactly if one of the two does.
/// So what earlier components use may be kept as runs, and the answer stays.
#[tactic(auto, using(occ_usage_parts::proofs::Joining::union_apart))]
pub fn joined_law()
    ensures { (front : List ASelector) (i j k : AnInterval) → IsUnion i.places j.places k.places → (q : List ASelector) → are_apart (spec_after front k) q ≡ (are_apart (spec_after front i) q && are_apart (spec_after front j) q) }
{}
