//! What comes into scope by a line, for uses: one specification for each name, with its value, part or body.
ghost use Rattle.std.specs.Prelude.{◌≡◌, ◌++◌, ◌+◌, ◌-◌, ◌∷◌, ◌≤◌, [], None, IfOk, OnOk, length, take};
ghost use Rattle.occ_usage_values.specs.declared.bound.Bound.TheVariants as bounds;
ghost use Rattle.occ_usage_lines.specs.Entering.{abbreviated as spec_abbreviated, access_bound, body_bound as spec_body_bound, entry_bounds, export_bounds, exported_use as spec_exported_use, exported_uses as spec_exported_uses, index_value as spec_index_value, interface_bounds as spec_interface_bounds, looked_at as spec_looked_at, meaning_bound as spec_meaning_bound, named_at as spec_named_at, one_line as spec_one_line, retyped as spec_retyped, retyped_value as spec_retyped_value, specified as spec_specified, valued as spec_valued};

use super::effect::each_effect;
use super::form::each_uses;
use super::scope::UsageScope;
use occ_base::{Items, Name, Shared};
use occ_project::Location;
use occ_scope::{Access, Meaning, ScopeEntry};
use occ_types::{Effect, Export, FormalUse, Interface, Value};
use occ_typing_lines::TypedForm;
use occ_typing_rules::{TypedElement, TypedExpr};
use occ_usage_conflicts::body_uses;
use occ_usage_parts::{Part, SelectedPart, Selectors};
use occ_usage_values::{
    Bound, Chain, Use, element_size, element_uses, expression_uses, is_timer, place, size, value,
};
use std::alloc::{AllocError, Global};

/// What a name of this access stands for, which is that of a timer or of something else.
fn of_access(alloc: Global, name: &Name, access: Access, timer: bool) -> Result<Bound, AllocError>
    ensures { IfOk result (λ bound. bound ≡ access_bound name.now access timer) }
{
    match access {
        Access::Variable => {
            if timer {
                Ok(Bound::Other)
            } else {
                Ok(Bound::Root(name.copied(alloc)?))
            }
        }
        Access::Formal => Ok(Bound::Value(None, None, Items::new(alloc))),
        Access::Value => Ok(Bound::Value(None, None, Items::new(alloc))),
    }
}

/// What a name stands for, of which its line says nothing more.
fn of_meaning(alloc: Global, name: &Name, meaning: &Meaning) -> Result<Bound, AllocError>
    ensures { IfOk result (λ bound. bound ≡ spec_meaning_bound name.now meaning.now) }
{
    match meaning {
        Meaning::Element(whole) => of_access(alloc, name, whole.access, is_timer(whole.of.get())),
        Meaning::Procedure(_) => Ok(Bound::Body(Items::new(alloc), Effect::None)),
        Meaning::Function(_, _) => Ok(Bound::Body(Items::new(alloc), Effect::None)),
        Meaning::Faulty => Ok(Bound::Other),
        Meaning::Type(_) => Ok(Bound::Other),
        Meaning::Protocol(_) => Ok(Bound::Other),
    }
}

/// Enters names of which their line says nothing more.
#[inline(always)]
pub fn enter_all(
    alloc: Global,
    entries: &[ScopeEntry],
    env: &mut UsageScope,
) -> Result<(), AllocError>
    ensures { OnOk result (env.new ≡ env.old ++ entry_bounds entries.now) }
{
    for entry in entries {
        env.enter(alloc, of_meaning(alloc, &entry.name, entry.meaning.get())?)?;
    }
    Ok(())
}

/// The number of the specification after so many more. There is none where numbers end, which memory does before them.
pub fn number_after(number: usize, more: usize) -> Result<usize, AllocError>
    ensures { IfOk result (λ following. following ≡ number + more) }
{
    match number.checked_add(more) {
        Some(following) => Ok(following),
        None => Err(AllocError),
    }
}

/// The value of an index in one of the rounds of a replicator with this base, if it is an INT.
pub fn index_value(base: i32, round: u32) -> Option<Value>
    ensures { result ≡ spec_index_value base round }
{
    match i32::try_from(i64::from(base) + i64::from(round)) {
        Ok(n) => Some(Value::Int(n)),
        Err(_) => None,
    }
}

/// Enters an index, of which the value is known or not.
pub fn enter_index(
    alloc: Global,
    value: Option<Value>,
    env: &mut UsageScope,
) -> Result<(), AllocError>
    ensures { OnOk result (env.new ≡ env.old ++ bounds.Value value None [] ∷ []) }
{
    env.enter(alloc, Bound::Value(value, None, Items::new(alloc)))
}

/// The place by the name of an abbreviation with this number.
fn named_at(
    alloc: Global,
    place: Option<SelectedPart>,
    number: usize,
) -> Result<Option<SelectedPart>, AllocError>
    ensures { IfOk result (λ named. named ≡ spec_named_at number place) }
{
    match place {
        Some(place) => Ok(Some(place.named(alloc, number)?)),
        None => Ok(None),
    }
}

/// The place by a name that RETYPES or RESHAPES gives it.
fn looked_at(place: Option<SelectedPart>) -> Result<Option<SelectedPart>, AllocError>
    ensures { IfOk result (λ looked. looked ≡ spec_looked_at place) }
{
    match place {
        Some(place) => Ok(Some(place.retyped()?)),
        None => Ok(None),
    }
}

/// `n IS el:`
fn abbreviated(
    alloc: Global,
    element: &TypedElement,
    line: &Location,
    env: &[Bound],
) -> Result<Bound, AllocError>
    ensures { IfOk result (λ bound. bound ≡ spec_abbreviated element.now env.now line.now) }
{
    let place = named_at(alloc, place(alloc, element, env)?, env.len())?;
    let mut reads = Items::new(alloc);
    element_uses(alloc, element, env, line, &mut reads)?;
    Ok(Bound::Abbreviation(place, element_size(element, env), reads))
}

/// `t n RETYPES el:` or `t n RESHAPES el:`
fn retyped(
    alloc: Global,
    element: &TypedElement,
    line: &Location,
    env: &[Bound],
) -> Result<Bound, AllocError>
    ensures { IfOk result (λ bound. bound ≡ spec_retyped element.now env.now line.now) }
{
    let place = named_at(alloc, looked_at(place(alloc, element, env)?)?, env.len())?;
    let mut reads = Items::new(alloc);
    element_uses(alloc, element, env, line, &mut reads)?;
    Ok(Bound::Abbreviation(place, None, reads))
}

/// `VAL n IS e:`
fn valued(
    alloc: Global,
    expr: &TypedExpr,
    line: &Location,
    env: &[Bound],
) -> Result<Bound, AllocError>
    ensures { IfOk result (λ bound. bound ≡ spec_valued expr.now env.now line.now) }
{
    let mut reads = Items::new(alloc);
    expression_uses(alloc, expr, env, line, &mut reads)?;
    Ok(Bound::Value(value(expr, env), size(expr, env), reads))
}

/// `VAL t n RETYPES e:` or `VAL t n RESHAPES e:`
fn retyped_value(
    alloc: Global,
    expr: &TypedExpr,
    line: &Location,
    env: &[Bound],
) -> Result<Bound, AllocError>
    ensures { IfOk result (λ bound. bound ≡ spec_retyped_value expr.now env.now line.now) }
{
    let mut reads = Items::new(alloc);
    expression_uses(alloc, expr, env, line, &mut reads)?;
    Ok(Bound::Value(None, None, reads))
}

/// A PROC or a FUNCTION with these uses, and whether it has an effect.
pub fn body_bound(uses: Items<Use>, has_effect: bool) -> Bound
    ensures { result ≡ spec_body_bound uses has_effect }
{
    if has_effect {
        Bound::Body(uses, Effect::Some)
    } else {
        Bound::Body(uses, Effect::None)
    }
}

/// A FUNCTION of one line.
fn one_line(
    alloc: Global,
    formals: &[ScopeEntry],
    results: &[Shared<TypedExpr>],
    line: &Location,
    env: &mut UsageScope,
) -> Result<Bound, AllocError>
    ensures bound { IfOk result (λ bound. bound ≡ spec_one_line formals.now results.now env.old line.now) }
    ensures env { OnOk result (env.new ≡ env.old) }
{
    let depth = env.len();
    enter_all(alloc, formals, env)?;
    let mut uses = Items::new(alloc);
    each_uses(alloc, results, env.as_slice(), line, &mut uses)?;
    let has_effect = each_effect(results, env.as_slice());
    let uses = body_uses(alloc, uses.as_slice(), depth, env.len(), line)?;
    env.cut(depth);
    Ok(body_bound(uses, has_effect))
}

/// A use of a formal of an export, round which so many specifications stand.
fn exported_use(
    alloc: Global,
    number: usize,
    line: &Location,
    found: &FormalUse,
) -> Result<Use, AllocError>
    ensures { IfOk result (λ made. made ≡ spec_exported_use number line.now found.now) }
{
    Ok(Use {
        part: Part {
            root: number_after(number, found.formal as usize)?,
            selectors: Selectors::of(alloc, found.selectors.as_slice())?,
        },
        kind: found.kind,
        line: line.share()?,
        chain: Chain::none(),
    })
}

/// The uses of the formals of an export, round which so many specifications stand.
fn exported_uses(
    alloc: Global,
    number: usize,
    line: &Location,
    uses: &[FormalUse],
) -> Result<Items<Use>, AllocError>
    ensures { IfOk result (λ made. made ≡ spec_exported_uses number line.now uses.now) }
{
    let mut made = Items::from_vec(Vec::with_capacity(alloc, uses.len())?);
    for found in uses {
        made.push(exported_use(alloc, number, line, found)?)?;
    }
    Ok(made)
}

/// Enters exports of a unit.
fn enter_exports(
    alloc: Global,
    exports: &[Export],
    line: &Location,
    env: &mut UsageScope,
) -> Result<(), AllocError>
    ensures { OnOk result (env.new ≡ env.old ++ export_bounds (length env.old) line.now exports.now) }
{
    for export in exports {
        let uses = exported_uses(alloc, env.len(), line, export.uses.as_slice())?;
        env.enter(alloc, Bound::Body(uses, export.effect))?;
    }
    Ok(())
}

/// Enters what used units show.
fn enter_interfaces(
    alloc: Global,
    interfaces: &[Shared<Interface>],
    line: &Location,
    env: &mut UsageScope,
) -> Result<(), AllocError>
    ensures { OnOk result (env.new ≡ env.old ++ spec_interface_bounds (length env.old) line.now interfaces.now) }
{
    for interface in interfaces {
        enter_exports(alloc, interface.get().exports.as_slice(), line, env)?;
    }
    Ok(())
}

/// Enters what a line specifies, by which these names come into scope; of a head over the lines of a body nothing more than
/// the names.
pub fn enter_line(
    alloc: Global,
    form: &TypedForm,
    line: &Location,
    entries: &[ScopeEntry],
    env: &mut UsageScope,
) -> Result<(), AllocError>
    ensures { OnOk result (env.new ≡ env.old ++ spec_specified env.old line.now entries.now form.now) }
{
    match form {
        TypedForm::Abbreviation(element) => {
            env.enter(alloc, abbreviated(alloc, element, line, env.as_slice())?)
        }
        TypedForm::Retyped(element) => {
            env.enter(alloc, retyped(alloc, element, line, env.as_slice())?)
        }
        TypedForm::Value(expr) => env.enter(
            alloc,
            valued(alloc, expr.get(), line, env.as_slice())?,
        ),
        TypedForm::RetypedValue(expr) => {
            env.enter(
                alloc,
                retyped_value(alloc, expr.get(), line, env.as_slice())?,
            )
        }
        TypedForm::OneLineFunction(formals, results) => {
            let bound = one_line(alloc, formals.as_slice(), results.as_slice(), line, env)?;
            env.enter(alloc, bound)
        }
        TypedForm::Uses(interfaces) => enter_interfaces(alloc, interfaces.as_slice(), line, env),
        _ => enter_all(alloc, entries, env),
    }
}
