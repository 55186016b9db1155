//! Laws of names and types: what is in scope, what is reported of a line, what a typed tree has.
ghost use Rattle.occ_base.specs.declared.diag.Diag.{Diag as ADiag};
ghost use Rattle.occ_usage_values.specs.Bounds.{Env as AnEnv};
ghost use Rattle.occ_check.specs.Codes.{use_code};
ghost use Rattle.occ_check.specs.Exports.{interface_in, lines_exports};
ghost use Rattle.occ_check.specs.FormalUses.{in_order};
ghost use Rattle.occ_theorems.specs.Exports.{IsLastOfName, use_order};
ghost use Rattle.occ_types.specs.declared.interface.Export.{Export as AnExport};
ghost use Rattle.occ_types.specs.declared.interface.FormalUse.{FormalUse as AFormalUse};
ghost use Rattle.occ_scope.specs.Visible.{nothing};
ghost use Rattle.occ_protocol.specs.Carrying.{Carrier};
ghost use Rattle.occ_protocol.specs.Lines.{exchanged};
ghost use Rattle.occ_protocol.specs.Matching.{has_fault};
ghost use Rattle.occ_protocol.specs.Messages.{IsMessage, IsSound as IsSoundCarrier};
ghost use Rattle.occ_protocol.specs.declared.given.Given.{Given as AGiven};
ghost use Rattle.occ_scope.specs.Nearest.{IsNearest, nearest};
ghost use Rattle.occ_tree.specs.Forest.{Forest};
ghost use Rattle.occ_tree.specs.Obeys.{Obeys};
ghost use Rattle.occ_typing_lines.specs.Lines.{body_of};
ghost use Rattle.occ_typing_lines.specs.declared.parent.Role.TheVariants as role;
ghost use Rattle.occ_typing_lines.specs.declared.using.Import.{Import as AnImport};
ghost use Rattle.occ_types.specs.Constant.{IsCongruent, is_in_range, settled_wrapped, value_of, wrapped};
ghost use Rattle.occ_types.specs.Interface.{IsEquivalence, IsSameInterface, IsSameSet};
ghost use Rattle.std.specs.List.Sorted.{IsStrictlySortedBy};
ghost use Rattle.occ_types.specs.Measure.{above, all_of, beside, field_measures, held, item_measure, item_measures, measure_of, one, protocol_measure, tag_measures};
ghost use Rattle.occ_types.specs.declared.measure.Measure.{Measure as AMeasure};
ghost use Rattle.occ_types.specs.declared.types.Field.{Field as AField};
ghost use Rattle.occ_types.specs.declared.types.Item.TheVariants as i;
ghost use Rattle.occ_types.specs.declared.types.Item.{Item as AnItem};
ghost use Rattle.occ_types.specs.declared.types.OccType.TheVariants as t;
ghost use Rattle.occ_types.specs.declared.types.OccType.{OccType as AType};
ghost use Rattle.occ_types.specs.declared.types.Packing.{Packing as APacking};
ghost use Rattle.occ_types.specs.declared.types.Protocol.TheVariants as p;
ghost use Rattle.occ_types.specs.declared.types.Protocol.{Protocol as AProtocol};
ghost use Rattle.occ_types.specs.declared.types.Tag.{Tag as ATag};
ghost use Rattle.occ_types.specs.declared.value.Primitive.{Primitive as APrimitive};
ghost use Rattle.occ_typing.specs.Known.{IsKnownScope};
ghost use Rattle.occ_typing.specs.Places.{At, IsAmong, IsReported, Stands};
ghost use Rattle.occ_typing.specs.Rounds.{IsRound};
ghost use Rattle.occ_typing.specs.Typed.{IsTypedTree};
ghost use Rattle.occ_typing.specs.Units.{type_faults};
ghost use Rattle.occ_typing.specs.Whole.{AreKnownImports, AreWhole, IsKnownInterface};
ghost use Rattle.occ_typing.specs.declared.tree.TypedLine.{TypedLine as ATypedLine};
ghost use Rattle.occ_typing.specs.declared.unit.Typed.{Typed as ATyped};
ghost use Rattle.std.specs.List.{Contains, list_any, slice_get};
ghost use Rattle.std.specs.Prelude.{IsTrue, List, None, Option, Some, [], false, ℕ, ℤ, ◌↔◌, ◌≡◌, ◌≢◌};

/// The nearest specification of a name is the last one with that name; there is none where the name is nowhere.
/// So an inner specification hides an outer one, and nothing else does.
pub fn nearest_law()
    ensures some { (entered : List (List ℕ)) (name : List ℕ) (place : ℕ) → (nearest entered name ≡ Some place) ↔ IsNearest entered name place }
    ensures none { (entered : List (List ℕ)) (name : List ℕ) → (nearest entered name ≡ None) ↔ ((place : ℕ) → slice_get entered place ≢ Some name) }
{}

/// In scope at a line is what its ancestors enter and what the specifications before them and before itself add, outermost first.
/// So scope is read off the tree of lines, without the walk that the checker makes.
pub fn type_scope_law()
    ensures { (is : List AnImport) → (f : Forest) → IsRound is f }
{}

/// A diagnostic of types is one of the unit exactly if it is reported of one of its lines, by what is in scope there.
/// So no line is left out, and none answers for another.
pub fn type_report_law()
    ensures { (is : List AnImport) → (f : Forest) → (d : ADiag) → IsAmong d (type_faults is f) ↔ IsReported is f d }
{}

/// Where trees obey the table, imports are known and no diagnostic of types is reported, all of the typed tree is known.
/// So the rules of uses never meet a line, an expression or a name of which nothing is known.
pub fn typed_tree_law()
    ensures tree { (is : List AnImport) → (f : Forest) → (tree : ATyped) → Obeys f → AreKnownImports is → IsTypedTree is f tree → AreWhole tree.lines }
    ensures names { (is : List AnImport) → (f : Forest) → (a : At) → Obeys f → AreKnownImports is → type_faults is f ≡ [] → Stands is (body_of role.Process) nothing nothing f a → IsKnownScope a.scope }
{}

/// All that a unit with a whole typed tree exports is known.
/// So the units that use it have whole typed trees too, where they have no diagnostics.
pub fn interface_law()
    ensures { (env : AnEnv) → (lines : List ATypedLine) → AreWhole lines → IsKnownInterface (interface_in env lines) }
{}

/// No two uses of formals have one code. So the uses of an export are those that its body has, each once, in the order of their codes.
/// Two lists of the same uses become one list, however often each stands in them and in whatever order.
#[tactic(auto, using(crate::proofs::UseCodes::same_code, crate::proofs::Ordered::in_order_rises, crate::proofs::Ordered::one_order))]
pub fn export_uses_law()
    ensures code { (a b : AFormalUse) → use_code a ≡ use_code b → a ≡ b }
    ensures among { (us : List AFormalUse) (u : AFormalUse) → Contains (in_order us) u ↔ Contains us u }
    ensures rises { (us : List AFormalUse) → IsStrictlySortedBy use_order (in_order us) }
    ensures one { (us vs : List AFormalUse) → IsSameSet us vs → in_order us ≡ in_order vs }
{}

/// A unit exports exactly the PROCs and FUNCTIONs that its outermost lines specify last of their names, with their uses in order.
/// So two interfaces of units that are the same, uses as sets, are equal: inputs can be compared part by part.
pub fn export_law()
    ensures last { (env : AnEnv) (lines : List ATypedLine) (e : AnExport) → Contains (interface_in env lines).exports e ↔ IsLastOfName (lines_exports env 0 lines) e }
    ensures ordered { (env : AnEnv) (lines : List ATypedLine) (e : AnExport) → Contains (interface_in env lines).exports e → in_order e.uses ≡ e.uses }
    ensures one { (env other : AnEnv) (lines others : List ATypedLine) → IsSameInterface (interface_in env lines) (interface_in other others) → interface_in env lines ≡ interface_in other others }
{}

/// Of items without a fault nothing is reported exactly where they are a message that the channel carries.
/// That holds where no fault hides what the channel carries. So each exchange that passes is one that the protocol has.
pub fn message_law()
    ensures silent { (c : Carrier) (root : List ℕ) (tag : Option (List ℕ)) (xs : List AGiven) → IsMessage c tag xs → exchanged c root tag xs ≡ [] }
    ensures message { (c : Carrier) (root : List ℕ) (tag : Option (List ℕ)) (xs : List AGiven) → IsSoundCarrier c tag → list_any has_fault xs ≡ false → exchanged c root tag xs ≡ [] → IsMessage c tag xs }
{}

/// Being one type, one protocol or the same interface is an equivalence: `same_type`, `same_protocol` and `same_interface` test it.
/// So types and interfaces can be compared in any order.
pub fn equality_law()
    ensures types { IsEquivalence {X = AType} (λ a b. a ≡ b) }
    ensures protocols { IsEquivalence {X = AProtocol} (λ a b. a ≡ b) }
    ensures interfaces { IsEquivalence IsSameInterface }
{}

/// The measure of a type comes from the measures of its parts.
/// So `Measure::above` and `Measure::beside` make it without a walk through parts that were measured before.
#[tactic(auto, using(occ_types::proofs::Measures::measure_rules))]
pub fn measure_law()
    ensures array { (n : Option ℕ) (of : AType) → measure_of (t.Array n of) ≡ above (measure_of of) }
    ensures record { (packing : APacking) (fields : List AField) → measure_of (t.Record packing fields) ≡ above (all_of (field_measures fields)) }
    ensures named { (name : List ℕ) (of : AType) → measure_of (t.Named name of) ≡ above (measure_of of) }
    ensures channel { (carried : AProtocol) → measure_of (t.Channel carried) ≡ above (protocol_measure carried) }
    ensures sequence { (items : List AnItem) → protocol_measure (p.Sequence items) ≡ all_of (item_measures items) }
    ensures variant { (tags : List ATag) → protocol_measure (p.Variant tags) ≡ all_of (tag_measures tags) }
    ensures defined { (name : List ℕ) (of : AProtocol) → protocol_measure (p.Defined name of) ≡ above (protocol_measure of) }
    ensures value { (of : AType) → item_measure (i.Value of) ≡ measure_of of }
    ensures counted { (count : APrimitive) (of : AType) → item_measure (i.Counted count of) ≡ beside one (above (measure_of of)) }
    ensures held_above { (m : AMeasure) → held (above (held m)) ≡ held (above m) }
    ensures held_beside { (a b : AMeasure) → held (beside (held a) (held b)) ≡ held (beside a b) }
{}

/// PLUS, MINUS and TIMES give the one number in range that differs by a multiple of 2 to the number of bits.
/// So a constant has the value that a machine of that width has.
pub fn wrapping_law()
    ensures result { (t : APrimitive) (n : ℤ) → settled_wrapped t n ≡ Ok (value_of t (wrapped t n)) }
    ensures in_range { (t : APrimitive) (n : ℤ) → IsTrue (is_in_range t (wrapped t n)) }
    ensures congruent { (t : APrimitive) (n : ℤ) → IsCongruent t (wrapped t n) n }
    ensures only { (t : APrimitive) (m n : ℤ) → IsTrue (is_in_range t m) → IsCongruent t m n → m ≡ wrapped t n }
{}
