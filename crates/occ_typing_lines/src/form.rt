//! Typed forms from their parts; an unknown form where a part has a fault and so no tree.
ghost use Rattle.occ_typing_lines.specs.Actions.{assigning, sending};
ghost use Rattle.occ_typing_lines.specs.Constructs.{replicated};
ghost use Rattle.occ_typing_lines.specs.Lines.{made};
ghost use Rattle.occ_typing_lines.specs.Parts.{instance_form as spec_instance_form, varied};
ghost use Rattle.occ_typing_lines.specs.declared.tree.TypedForm.TheVariants as t;
ghost use Rattle.std.specs.Prelude.{◌≡◌, IfOk};

use super::options::TypedOptions;
use super::tree::{BlockKind, TypedForm};
use occ_base::{Boxed, Items, Shared};
use occ_typing_rules::{TypedElement, TypedExpr};
use occ_typing_statements::{
    TypedAssignment, TypedInput, TypedInstance, TypedReplicator, TypedSending, TypedVariant,
};
use std::alloc::{AllocError, Global};

/// An assignment, if its trees are there.
pub fn assignment_form(
    alloc: Global,
    tree: Option<TypedAssignment>,
) -> Result<Boxed<TypedForm>, AllocError>
    ensures { IfOk result (λ form. form ≡ made assigning tree) }
{
    let Some(TypedAssignment { targets, values }) = tree else {
        return Boxed::new(alloc, TypedForm::Unknown);
    };
    Boxed::new(alloc, TypedForm::Assignment(targets, values))
}

/// An instance of a PROC, if its trees are there.
pub fn instance_form(tree: Option<TypedInstance>) -> TypedForm
    ensures { result ≡ made spec_instance_form tree }
{
    let Some(TypedInstance { callee, actuals }) = tree else {
        return TypedForm::Unknown;
    };
    TypedForm::Instance(callee, actuals)
}

/// An output, if its trees are there.
pub fn output_form(
    alloc: Global,
    tree: Option<TypedSending>,
) -> Result<Boxed<TypedForm>, AllocError>
    ensures { IfOk result (λ form. form ≡ made sending tree) }
{
    let Some(TypedSending { channel, outputs }) = tree else {
        return Boxed::new(alloc, TypedForm::Unknown);
    };
    Boxed::new(alloc, TypedForm::Output(channel, outputs))
}

/// An input, if its trees are there.
pub fn input_form(alloc: Global, tree: Option<TypedInput>) -> Result<Boxed<TypedForm>, AllocError>
    ensures { IfOk result (λ form. form ≡ made t.Input tree) }
{
    match tree {
        Some(tree) => Boxed::new(alloc, TypedForm::Input(tree)),
        None => Boxed::new(alloc, TypedForm::Unknown),
    }
}

/// A construct with a replicator, if that has a tree.
pub fn replicated_form(kind: BlockKind, tree: Option<TypedReplicator>) -> TypedForm
    ensures { result ≡ made (replicated kind) tree }
{
    match tree {
        Some(tree) => TypedForm::Block(kind, Some(tree)),
        None => TypedForm::Unknown,
    }
}

/// The first line of a case input, if what it receives through has a tree.
pub fn case_input_form(tree: Option<TypedElement>) -> TypedForm
    ensures { result ≡ made t.CaseInput tree }
{
    match tree {
        Some(tree) => TypedForm::CaseInput(tree),
        None => TypedForm::Unknown,
    }
}

/// A variant, if its trees are there.
pub fn variant_form(tree: Option<TypedVariant>) -> TypedForm
    ensures { result ≡ made varied tree }
{
    let Some(
        TypedVariant {
            place,
            tag,
            targets,
        },
    ) = tree
    else {
        return TypedForm::Unknown;
    };
    TypedForm::Variant(place, tag, targets)
}

/// A `WHILE`, if its condition has a tree.
pub fn while_form(tree: Option<Shared<TypedExpr>>) -> TypedForm
    ensures { result ≡ made t.While tree }
{
    match tree {
        Some(tree) => TypedForm::While(tree),
        None => TypedForm::Unknown,
    }
}

/// A `CASE`, if its selector has a tree.
pub fn selection_form(tree: Option<Shared<TypedExpr>>) -> TypedForm
    ensures { result ≡ made t.Selection tree }
{
    match tree {
        Some(tree) => TypedForm::Selection(tree),
        None => TypedForm::Unknown,
    }
}

/// A condition, if it has a tree.
pub fn condition_form(tree: Option<Shared<TypedExpr>>) -> TypedForm
    ensures { result ≡ made t.Condition tree }
{
    match tree {
        Some(tree) => TypedForm::Condition(tree),
        None => TypedForm::Unknown,
    }
}

/// The name of a value, if that has a tree.
pub fn value_form(tree: Option<Shared<TypedExpr>>) -> TypedForm
    ensures { result ≡ made t.Value tree }
{
    match tree {
        Some(tree) => TypedForm::Value(tree),
        None => TypedForm::Unknown,
    }
}

/// Options, if each has a tree.
pub fn options_form(trees: Option<TypedOptions>) -> TypedForm
    ensures { result ≡ made t.Options trees }
{
    match trees {
        Some(trees) => TypedForm::Options(trees),
        None => TypedForm::Unknown,
    }
}

/// Results, if each has a tree.
pub fn results_form(trees: Option<Items<Shared<TypedExpr>>>) -> TypedForm
    ensures { result ≡ made t.Results trees }
{
    match trees {
        Some(trees) => TypedForm::Results(trees),
        None => TypedForm::Unknown,
    }
}

/// A name for an element, if that has a tree.
pub fn abbreviation_form(tree: Option<TypedElement>) -> TypedForm
    ensures { result ≡ made t.Abbreviation tree }
{
    match tree {
        Some(tree) => TypedForm::Abbreviation(tree),
        None => TypedForm::Unknown,
    }
}

/// A name for an element as of another type, if the element has a tree.
pub fn retyped_form(tree: Option<TypedElement>) -> TypedForm
    ensures { result ≡ made t.Retyped tree }
{
    match tree {
        Some(tree) => TypedForm::Retyped(tree),
        None => TypedForm::Unknown,
    }
}

/// A name for a value as of another type, if the value has a tree.
pub fn retyped_value_form(tree: Option<Shared<TypedExpr>>) -> TypedForm
    ensures { result ≡ made t.RetypedValue tree }
{
    match tree {
        Some(tree) => TypedForm::RetypedValue(tree),
        None => TypedForm::Unknown,
    }
}
