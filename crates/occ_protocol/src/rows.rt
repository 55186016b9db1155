//! Worked rows: channels, sequences, counted items, ANY, tags, timers, wanted types.
ghost use Rattle.std.specs.Prelude.{[], ◌∷◌, ◌≡◌, None, Some, codes, false, true};
ghost use Rattle.occ_base.specs.declared.code.Code.TheVariants as code;
ghost use Rattle.occ_typing_operands.specs.Settling.{int, known};
ghost use Rattle.occ_typing_operands.specs.declared.kind.Kind.TheVariants as k;
ghost use Rattle.occ_types.specs.declared.types.Item.TheVariants as i;
ghost use Rattle.occ_types.specs.declared.types.OccType.TheVariants as t;
ghost use Rattle.occ_types.specs.declared.types.Protocol.TheVariants as protocol;
ghost use Rattle.occ_types.specs.declared.value.Primitive.TheVariants as p;
ghost use Rattle.occ_protocol.specs.Carrying.{carrier};
ghost use Rattle.occ_protocol.specs.Carrying.Carrier.{Data, Hidden, Nothing, Sequence, Time};
ghost use Rattle.occ_protocol.specs.Lines.{alternative, awaited, cased, exchanged, is_timer, lacks, received, tag_place, takes_tag};
ghost use Rattle.occ_protocol.specs.Matching.{asked, named};
ghost use Rattle.occ_protocol.specs.Wanting.{wants};
ghost use Rattle.occ_protocol.specs.declared.given.Given.TheVariants as g;
ghost use Rattle.occ_protocol.specs.declared.given.Shape.TheVariants as s;
ghost use Rattle.occ_protocol.specs.declared.given.Want.TheVariants as w;
ghost use Rattle.occ_protocol.specs.declared.given.Wanted.TheVariants as wanted;
ghost use Rattle.occ_protocol.specs.inside.Samples.{bool, byte, c, choice, counted, faulty, pair, plain, row, tags, three};

/// What elements carry: a channel of a protocol with a name, an array of channels, a timer and a variable; one with a
/// fault.
#[tactic(auto, using(occ_types::proofs::Agreeing::fit_rules, crate::proofs::Carried::carried_rules))]
pub fn carrier_rows()
    ensures channel { carrier (known (t.Channel (protocol.Defined (codes "P") (protocol.Sequence (i.Value int ∷ [])))) None) ≡ Sequence (i.Value int ∷ []) }
    ensures tags { carrier (known (t.Channel (protocol.Defined (codes "P") (protocol.Variant tags))) None) ≡ choice }
    ensures any { carrier (known (t.Channel protocol.Any) None) ≡ Data }
    ensures array { carrier (known (three (t.Channel protocol.Any)) None) ≡ Nothing }
    ensures timer { carrier (known t.Timer None) ≡ Time }
    ensures variable { carrier (known int None) ≡ Nothing }
    ensures faulty { carrier k.Faulty ≡ Hidden }
{}

/// Items of a channel of `INT; BYTE`: as they are to be; with a BOOL, alone and beside a faulty one; one alone, three, and
/// three of which one is faulty; a counted one in the place of a plain one; a tag; through an element with a fault.
#[tactic(auto, using(crate::proofs::Primitives::written_rules))]
pub fn sequence_rows()
    ensures good { exchanged pair c None (plain int ∷ plain byte ∷ []) ≡ [] }
    ensures truth { exchanged pair c None (plain bool ∷ plain byte ∷ []) ≡ named code.P1 c }
    ensures faulty { exchanged pair c None (faulty ∷ plain byte ∷ []) ≡ [] }
    ensures beside_faulty { exchanged pair c None (plain bool ∷ faulty ∷ []) ≡ named code.P1 c }
    ensures fewer { exchanged pair c None (plain int ∷ []) ≡ named code.P1 c }
    ensures more { exchanged pair c None (plain int ∷ plain byte ∷ plain byte ∷ []) ≡ named code.P1 c }
    ensures more_faulty { exchanged pair c None (plain bool ∷ plain byte ∷ faulty ∷ []) ≡ [] }
    ensures counted { exchanged pair c None (counted int (three byte) ∷ plain byte ∷ []) ≡ named code.P1 c }
    ensures named { exchanged pair c None (plain (t.Named (codes "N") int) ∷ plain byte ∷ []) ≡ named code.P1 c }
    ensures tag { exchanged pair c (Some (codes "a")) (plain bool ∷ []) ≡ named code.P3 c }
    ensures hidden { exchanged Hidden c None (plain bool ∷ []) ≡ [] }
    ensures no_channel { exchanged Nothing c None (plain bool ∷ []) ≡ named code.P4 c }
{}

/// Items of a channel of `INT::[]BYTE`: as they are to be; a plain one; a count of another type, and one of which the type
/// has a name; an array of other values, and one whose type has a name; a faulty count beside what is no array.
#[tactic(auto, using(crate::proofs::Primitives::written_rules))]
pub fn counted_rows()
    ensures good { exchanged row c None (counted int (three byte) ∷ []) ≡ [] }
    ensures open { exchanged row c None (counted int (t.Array None byte) ∷ []) ≡ [] }
    ensures plain { exchanged row c None (plain (three byte) ∷ []) ≡ named code.P1 c }
    ensures count { exchanged row c None (counted byte (three byte) ∷ []) ≡ named code.P1 c }
    ensures named_count { exchanged row c None (counted (t.Named (codes "N") int) (three byte) ∷ []) ≡ named code.P1 c }
    ensures values { exchanged row c None (counted int (three int) ∷ []) ≡ named code.P1 c }
    ensures named_array { exchanged row c None (counted int (t.Named (codes "V") (three byte)) ∷ []) ≡ named code.P1 c }
    ensures faulty { exchanged row c None (g.Counted k.Faulty (known int None) ∷ []) ≡ [] }
{}

/// Items of a channel of ANY: data of any type and number, with a count too; a count that is a BOOL; a channel; an array of
/// channels with a count.
#[tactic(auto, using(occ_types::proofs::Agreeing::fit_rules))]
pub fn any_rows()
    ensures good { exchanged Data c None (plain bool ∷ counted byte (three int) ∷ plain (t.Named (codes "N") int) ∷ []) ≡ [] }
    ensures count { exchanged Data c None (counted bool (three int) ∷ []) ≡ named code.P1 c }
    ensures channel { exchanged Data c None (plain (t.Channel protocol.Any) ∷ []) ≡ named code.P1 c }
    ensures channels { exchanged Data c None (counted int (three (t.Channel protocol.Any)) ∷ []) ≡ named code.P1 c }
    ensures faulty { exchanged Data c None (faulty ∷ []) ≡ [] }
    ensures tag { exchanged Data c (Some (codes "a")) [] ≡ named code.P3 c }
{}

/// Items of a channel with the tags `a; INT`, `b` and `f`: after each, after one that it has not, and after none. The
/// line of `f` has a fault. A variant of a case input reports the same, where the channel has tags.
#[tactic(auto, using(crate::proofs::Primitives::written_rules))]
pub fn tag_rows()
    ensures good { exchanged choice c (Some (codes "a")) (plain int ∷ []) ≡ [] }
    ensures truth { exchanged choice c (Some (codes "a")) (plain bool ∷ []) ≡ named code.P1 c }
    ensures fewer { exchanged choice c (Some (codes "a")) [] ≡ named code.P1 c }
    ensures alone { exchanged choice c (Some (codes "b")) [] ≡ [] }
    ensures faulty { exchanged choice c (Some (codes "f")) (plain bool ∷ plain bool ∷ []) ≡ [] }
    ensures other { exchanged choice c (Some (codes "tagz")) (plain bool ∷ []) ≡ named code.P2 (codes "tagz") }
    ensures none { exchanged choice c None (plain int ∷ []) ≡ named code.P3 c }
    ensures variant { alternative choice c (codes "tagz") [] ≡ named code.P2 (codes "tagz") }
    ensures variant_items { alternative choice c (codes "a") (plain bool ∷ []) ≡ named code.P1 c }
    ensures variant_of_another { alternative pair c (codes "a") (plain bool ∷ []) ≡ [] }
    ensures lacked { lacks choice (codes "tagz") ≡ true }
    ensures there { lacks choice (codes "b") ≡ false }
    ensures not_asked { lacks pair (codes "tagz") ≡ false }
    ensures place { tag_place choice (codes "b") ≡ Some 1 }
    ensures no_place { tag_place choice (codes "tagz") ≡ None }
{}

/// Timers: an input of an INT, of a BYTE, of two, of two of which one is faulty, and of a counted one; an output, a tag, a
/// case input and `AFTER`. `AFTER`, and a case input, of channels and of a variable.
#[tactic(auto, using(crate::proofs::Primitives::written_rules))]
pub fn timer_rows()
    ensures timer { is_timer Time ≡ true }
    ensures no_timer { is_timer pair ≡ false }
    ensures int { received Time c (plain int ∷ []) ≡ [] }
    ensures byte { received Time c (plain byte ∷ []) ≡ named code.P1 c }
    ensures two { received Time c (plain int ∷ plain int ∷ []) ≡ named code.P1 c }
    ensures two_faulty { received Time c (plain int ∷ faulty ∷ []) ≡ [] }
    ensures counted { received Time c (counted int (three byte) ∷ []) ≡ named code.P1 c }
    ensures output { exchanged Time c None (plain int ∷ []) ≡ named code.P4 c }
    ensures tag { exchanged Time c (Some (codes "a")) [] ≡ named code.P4 c }
    ensures cased { cased Time c ≡ named code.P4 c }
    ensures awaited { awaited Time c ≡ [] }
    ensures channel_awaited { awaited pair c ≡ named code.P4 c }
    ensures variable_awaited { awaited Nothing c ≡ named code.P4 c }
    ensures hidden_awaited { awaited Hidden c ≡ [] }
    ensures variable_cased { cased Nothing c ≡ named code.P4 c }
    ensures sequence_cased { cased pair c ≡ named code.P3 c }
    ensures any_cased { cased Data c ≡ named code.P3 c }
    ensures choice_cased { cased choice c ≡ [] }
    ensures received_without_tag { received choice c (plain int ∷ []) ≡ named code.P3 c }
    ensures received { received row c (counted int (three byte) ∷ []) ≡ [] }
{}

/// What is wanted: the types of the protocol, in as many items; nothing of more, of a counted one in the place of a plain
/// one, and through ANY; after a tag what it has; and through what is hidden, is no channel, or has not the tag, a fault
/// hides it. There a name alone that is first is not looked up.
#[tactic(auto, using(occ_types::proofs::Agreeing::fit_rules, crate::proofs::Meeting::wanting_rules))]
pub fn want_rows()
    ensures pair { wants (asked pair None) (s.Plain ∷ s.Plain ∷ []) ≡ wanted.Plain (w.Of int) ∷ wanted.Plain (w.Of byte) ∷ [] }
    ensures row { wants (asked row None) (s.Counted ∷ []) ≡ wanted.Counted (w.Of int) (w.Of (t.Array None byte)) ∷ [] }
    ensures more { wants (asked row None) (s.Counted ∷ s.Plain ∷ []) ≡ wanted.Counted w.Nothing w.Nothing ∷ wanted.Plain w.Nothing ∷ [] }
    ensures plain { wants (asked row None) (s.Plain ∷ []) ≡ wanted.Plain w.Nothing ∷ [] }
    ensures any { wants (asked Data None) (s.Plain ∷ []) ≡ wanted.Plain w.Nothing ∷ [] }
    ensures tag { wants (asked choice (Some (codes "a"))) (s.Plain ∷ []) ≡ wanted.Plain (w.Of int) ∷ [] }
    ensures no_tag { wants (asked choice (Some (codes "tagz"))) (s.Plain ∷ []) ≡ wanted.Plain w.Hidden ∷ [] }
    ensures faulty_tag { wants (asked choice (Some (codes "f"))) (s.Plain ∷ []) ≡ wanted.Plain w.Hidden ∷ [] }
    ensures untagged { wants (asked choice None) (s.Plain ∷ []) ≡ wanted.Plain w.Hidden ∷ [] }
    ensures hidden { wants (asked Hidden None) (s.Counted ∷ []) ≡ wanted.Counted w.Hidden w.Hidden ∷ [] }
    ensures no_channel { wants (asked Nothing None) (s.Plain ∷ []) ≡ wanted.Plain w.Hidden ∷ [] }
    ensures hidden_name { takes_tag Hidden ≡ true }
    ensures name_for_nothing { takes_tag Nothing ≡ true }
    ensures tag_name { takes_tag choice ≡ true }
    ensures sequence_name { takes_tag pair ≡ false }
    ensures any_name { takes_tag Data ≡ false }
{}
