//! `VAL n IS e:` and `VAL t n IS e:`: the value, its typed tree, and the name that comes into scope.
ghost use Rattle.std.specs.Prelude.{◌≡◌, ◌∷◌, ◌++◌, [], IfOk, IfSome, IsTrue, OnOk, Some};
ghost use Rattle.occ_expr_operations.specs.Views.{expr_view};
ghost use Rattle.occ_typing_specifications.specs.Valuing.{kind_unless_reported as spec_kind_unless_reported, value as spec_value, value_alone as spec_value_alone, value_as as spec_value_as, value_name as spec_value_name, value_reported, value_tree as spec_value_tree, value_with_type as spec_value_with_type};
ghost use Rattle.occ_typing_tables.specs.Terms.{judged};
ghost use Rattle.occ_typing_rules.specs.Placing.{tree_of as spec_tree_of};
ghost use Rattle.occ_typing_rules.specs.Abbreviating.{abbreviated as spec_abbreviated, abbreviated_as as spec_abbreviated_as, as_type as spec_as_type};
ghost use Rattle.occ_expr.specs.inside.Passing.{IsKnownOf};
ghost use Rattle.occ_types.specs.declared.types.OccType.{OccType};

use super::comparing::value_is_of;
use occ_base::{Fault, Items, Name, Shared};
use occ_expr::{expression, type_form};
use occ_expr_operations::{Opening, Reading};
use occ_forms_expressions::{Expr, TypeForm};
use occ_scope::{Access, Meaning, Scope, ScopeEntry, Whole, one_entry};
use occ_types::{OccType, is_data};
use occ_typing_operands::Kind;
use occ_typing_rules::{TypedExpr, abbreviated, abbreviated_as, as_type, tree_of};
use occ_typing_tables::{Term, hidden};
use std::alloc::{AllocError, Global};

/// A value that is settled, if it is data of a type and is known to be of it.
fn settled_as<'a>(of: &OccType, term: &'a Term, is_known: bool) -> Option<&'a Kind>
    requires { IsTrue is_known → IsKnownOf of.now term.now }
    ensures { IfSome result (λ kind. spec_abbreviated_as of.now (judged term.now) ≡ spec_as_type of.now kind.now) }
{
    if !is_known || !is_data(of) {
        return None;
    }
    let Term::Single(kind) = term else {
        return None;
    };
    match kind {
        Kind::Known(_) => Some(kind),
        _ => None,
    }
}

/// What is known of a value for a name of this type.
fn value_of(
    alloc: Global,
    of: &Shared<OccType>,
    term: &Term,
    is_known: bool,
    faults: &mut Items<Fault>,
) -> Result<Kind, AllocError>
    requires { IsTrue is_known → IsKnownOf of.now term.now }
    ensures kind { IfOk result (λ kind. kind ≡ (spec_abbreviated_as of.now (judged term.now)).kind) }
    ensures faults { OnOk result (faults.new ≡ faults.old ++ (spec_abbreviated_as of.now (judged term.now)).faults) }
{
    match settled_as(of.get(), term, is_known) {
        Some(kind) => as_type(alloc, of, kind),
        None => abbreviated_as(alloc, of, term, faults),
    }
}

/// What is known of a value for a name of this type, if the type is known; else what is wanted of it is hidden.
#[tactic(auto, unfolding(crate::specs::Valuing::value_as))]
fn value_as(
    alloc: Global,
    of: &Option<Shared<OccType>>,
    term: &Term,
    is_known: bool,
    faults: &mut Items<Fault>,
) -> Result<Kind, AllocError>
    requires { (to : OccType) → IsTrue is_known → of.now ≡ Some to → IsKnownOf to term.now }
    ensures kind { IfOk result (λ kind. kind ≡ (spec_value_as of.now (judged term.now)).kind) }
    ensures faults { OnOk result (faults.new ≡ faults.old ++ (spec_value_as of.now (judged term.now)).faults) }
{
    match of {
        None => {
            hidden(alloc, term, faults)?;
            Ok(Kind::Faulty)
        }
        Some(of) => value_of(alloc, of, term, is_known, faults),
    }
}

/// What is read of a value: what is known of it, and its tree, if it has no fault.
#[derive(Drop)]
pub struct Valued {
    pub kind: Kind,
    pub tree: Option<Shared<TypedExpr>>,
}

/// The value of `VAL n IS e`, of which this is read.
fn valued_alone(
    alloc: Global,
    read: &Reading,
    faults: &mut Items<Fault>,
) -> Result<Valued, AllocError>
    ensures kind { IfOk result (λ value. value.kind ≡ (spec_abbreviated (judged read.now.term)).kind) }
    ensures tree { IfOk result (λ value. value.tree ≡ spec_tree_of (spec_abbreviated (judged read.now.term)).kind read.now.open_expr) }
    ensures faults { OnOk result (faults.new ≡ faults.old ++ (spec_abbreviated (judged read.now.term)).faults) }
{
    let kind = abbreviated(alloc, &read.term, faults)?;
    let tree = tree_of(alloc, &kind, &read.open_expr)?;
    Ok(Valued { kind, tree })
}

/// A value of which no type is wanted, in its own type.
#[tactic(auto, unfolding(crate::specs::Valuing::value_alone))]
pub fn value_alone(
    alloc: Global,
    expr: &Expr,
    scope: &Scope,
    faults: &mut Items<Fault>,
) -> Result<Valued, AllocError>
    ensures kind { IfOk result (λ value. value.kind ≡ (spec_value_alone scope.now expr.now).kind) }
    ensures tree { IfOk result (λ value. value.tree ≡ spec_tree_of (spec_value_alone scope.now expr.now).kind ((expr_view expr.now).open_expr scope.now)) }
    ensures faults { OnOk result (faults.new ≡ faults.old ++ (spec_value_alone scope.now expr.now).faults) }
{
    let read = expression(alloc, expr, scope, faults)?;
    let value = valued_alone(alloc, &read, faults);
    drop(read);
    value
}

/// The value of `VAL t n IS e`, of which this is read, for a name of this type, if the type is known. Perhaps it is known that
/// the value is of the type.
fn valued_as(
    alloc: Global,
    of: &Option<Shared<OccType>>,
    read: &Reading,
    is_known: bool,
    faults: &mut Items<Fault>,
) -> Result<Valued, AllocError>
    requires { (to : OccType) → IsTrue is_known → of.now ≡ Some to → IsKnownOf to read.now.term }
    ensures kind { IfOk result (λ value. value.kind ≡ (spec_value_as of.now (judged read.now.term)).kind) }
    ensures tree { IfOk result (λ value. value.tree ≡ spec_tree_of (spec_value_as of.now (judged read.now.term)).kind read.now.open_expr) }
    ensures faults { OnOk result (faults.new ≡ faults.old ++ (spec_value_as of.now (judged read.now.term)).faults) }
{
    let kind = value_as(alloc, of, &read.term, is_known, faults)?;
    let tree = tree_of(alloc, &kind, &read.open_expr)?;
    Ok(Valued { kind, tree })
}

/// The value of `VAL t n IS e`.
#[tactic(auto, unfolding(crate::specs::Valuing::value_with_type))]
fn value_with_type(
    alloc: Global,
    of: &TypeForm,
    expr: &Expr,
    scope: &Scope,
    faults: &mut Items<Fault>,
) -> Result<Valued, AllocError>
    ensures kind { IfOk result (λ value. value.kind ≡ (spec_value_with_type scope.now of.now expr.now).kind) }
    ensures tree { IfOk result (λ value. value.tree ≡ spec_tree_of (spec_value_with_type scope.now of.now expr.now).kind ((expr_view expr.now).open_expr scope.now)) }
    ensures faults { OnOk result (faults.new ≡ faults.old ++ (spec_value_with_type scope.now of.now expr.now).faults) }
{
    let to = type_form(alloc, of, Opening::Allowed, scope, faults)?;
    let is_known = value_is_of(of, expr, scope);
    let read = expression(alloc, expr, scope, faults)?;
    let value = valued_as(alloc, &to, &read, is_known, faults);
    drop(read);
    value
}

/// The value, with a type or without.
#[tactic(auto, unfolding(crate::specs::Valuing::value_tree))]
fn value_read(
    alloc: Global,
    of: &Option<TypeForm>,
    expr: &Expr,
    scope: &Scope,
    faults: &mut Items<Fault>,
) -> Result<Valued, AllocError>
    ensures kind { IfOk result (λ value. value.kind ≡ (value_reported scope.now of.now expr.now).kind) }
    ensures tree { IfOk result (λ value. value.tree ≡ spec_value_tree scope.now of.now expr.now) }
    ensures faults { OnOk result (faults.new ≡ faults.old ++ (value_reported scope.now of.now expr.now).faults) }
{
    match of {
        None => value_alone(alloc, expr, scope, faults),
        Some(of) => value_with_type(alloc, of, expr, scope, faults),
    }
}

/// What is known of the value, if the line reported nothing.
pub fn kind_unless_reported(reported: &Items<Fault>, kind: Kind) -> Kind
    ensures { result ≡ spec_kind_unless_reported reported.now kind }
{
    if reported.is_empty() {
        kind
    } else {
        Kind::Faulty
    }
}

/// The name of a value of which this is known.
pub fn value_name(alloc: Global, kind: Kind, name: &Name) -> Result<Meaning, AllocError>
    ensures { IfOk result (λ meaning. meaning ≡ spec_value_name kind name.now) }
{
    match kind {
        Kind::Known(known) => Ok(Meaning::Element(Whole {
            of: known.of,
            access: Access::Value,
            value: known.value,
            root: name.copied(alloc)?,
        })),
        Kind::Faulty => Ok(Meaning::Faulty),
        Kind::Untyped(_) => Ok(Meaning::Faulty),
    }
}

/// What comes into scope after a line that abbreviates a value, and the tree of the value, if it has no fault.
#[derive(Drop)]
pub struct ValueLine {
    pub adds: Items<ScopeEntry>,
    pub tree: Option<Shared<TypedExpr>>,
}

/// `VAL n IS e:` or `VAL t n IS e:`
#[tactic(auto, unfolding(crate::specs::Valuing::value))]
pub fn value(
    alloc: Global,
    of: &Option<TypeForm>,
    name: &Name,
    expr: &Expr,
    scope: &Scope,
    faults: &mut Items<Fault>,
) -> Result<ValueLine, AllocError>
    ensures adds { IfOk result (λ line. line.adds ≡ (spec_value scope.now of.now name.now expr.now).adds) }
    ensures tree { IfOk result (λ line. line.tree ≡ spec_value_tree scope.now of.now expr.now) }
    ensures faults { OnOk result (faults.new ≡ faults.old ++ (spec_value scope.now of.now name.now expr.now).faults) }
{
    let mut reported = Items::new(alloc);
    let Valued { kind, tree } = value_read(alloc, of, expr, scope, &mut reported)?;
    let kind = kind_unless_reported(&reported, kind);
    faults.append(reported)?;
    let meaning = value_name(alloc, kind, name)?;
    let adds = one_entry(alloc, name, meaning)?;
    Ok(ValueLine { adds, tree })
}
