//! Lines of constructs: SEQ, PAR, IF, ALT, WHILE, CASE, with their replicators, and what they ask of the lines under
//! them.
ghost use Rattle.occ_expr.specs.Trees.{element_tree, int_tree};
ghost use Rattle.occ_typing_lines.specs.Constructs.{block_of as spec_block_of, choosing as spec_choosing, constructing as spec_constructing, replicable as spec_replicable, replicating_of as spec_replicating_of, role_of as spec_role_of};
ghost use Rattle.occ_typing_statements.specs.Inputs.{case_faults};
ghost use Rattle.occ_typing_statements.specs.Variants.{begun};
ghost use Rattle.occ_typing_lines.specs.Lines.{made};
ghost use Rattle.occ_typing_lines.specs.declared.parent.Role.TheVariants as role;
ghost use Rattle.occ_typing_lines.specs.declared.tree.TypedForm.TheVariants as t;
ghost use Rattle.occ_typing_statements.specs.Statements.{selector as spec_selector};
ghost use Rattle.std.specs.Prelude.{◌≡◌, ◌++◌, IfOk, OnOk};

use super::form::{case_input_form, replicated_form, selection_form, while_form};
use super::line::{main, over, plain, with_role};
use super::parent::{Choosing, Line, Parent, Role};
use super::tree::{BlockKind, TypedForm};
use occ_base::{Boxed, Fault, Items};
use occ_forms::{Construct, ConstructKind, Replicator};
use occ_forms_expressions::{Element, Expr};
use occ_scope::Scope;
use occ_typing_operands::Kind;
use occ_typing_rules::OptionNumbers;
use occ_typing_statements::{
    Replicating, ReplicatorLine, case_input, condition, replicator, selector,
};
use std::alloc::{AllocError, Global};

/// What a construct says of the lines under it.
fn role_of(word: ConstructKind) -> Role
    ensures { result ≡ spec_role_of word }
{
    match word {
        ConstructKind::Sequence => Role::Process,
        ConstructKind::Parallel => Role::Process,
        ConstructKind::PriParallel => Role::Process,
        ConstructKind::Conditional => Role::Conditional,
        ConstructKind::Alternation => Role::Alternation,
        ConstructKind::PriAlternation => Role::Alternation,
    }
}

/// What a construct does with the lines under it.
fn block_of(word: ConstructKind) -> BlockKind
    ensures { result ≡ spec_block_of word }
{
    match word {
        ConstructKind::Sequence => BlockKind::Sequence,
        ConstructKind::Parallel => BlockKind::Parallel,
        ConstructKind::PriParallel => BlockKind::Parallel,
        ConstructKind::Conditional => BlockKind::Conditional,
        ConstructKind::Alternation => BlockKind::Alternation,
        ConstructKind::PriAlternation => BlockKind::Alternation,
    }
}

/// What a construct asks of its replicator.
fn replicating_of(word: ConstructKind) -> Replicating
    ensures { result ≡ spec_replicating_of word }
{
    match word {
        ConstructKind::Sequence => Replicating::Other,
        ConstructKind::Parallel => Replicating::Parallel,
        ConstructKind::PriParallel => Replicating::Parallel,
        ConstructKind::Conditional => Replicating::Other,
        ConstructKind::Alternation => Replicating::Other,
        ConstructKind::PriAlternation => Replicating::Other,
    }
}

/// A construct of a word or two, and perhaps a replicator.
fn replicable(
    alloc: Global,
    word: ConstructKind,
    written: &Option<Replicator>,
    scope: &Scope,
    next: Parent,
    faults: &mut Items<Fault>,
) -> Result<Line, AllocError>
    ensures line { IfOk result (λ line. line ≡ (spec_replicable scope.now word written.now next).line) }
    ensures faults { OnOk result (faults.new ≡ faults.old ++ (spec_replicable scope.now word written.now next).faults) }
{
    match written {
        None => {
            let under = with_role(role_of(word), &next);
            plain(alloc, under, TypedForm::Block(block_of(word), None), next)
        }
        Some(written) => {
            let construct = replicating_of(word);
            let ReplicatorLine {
                enters,
                rounds,
                tree,
            } = replicator(alloc, written, construct, next.rounds, scope, faults)?;
            let under = Parent {
                role: role_of(word),
                rounds,
            };
            let form = replicated_form(block_of(word), tree);
            over(alloc, under, enters, form, next)
        }
    }
}

/// A `CASE` with this selector, before its first option.
fn choosing(alloc: Global, selector: Kind) -> Result<Role, AllocError>
    ensures { IfOk result (λ role. role ≡ spec_choosing selector) }
{
    let choosing = Choosing {
        selector,
        numbers: OptionNumbers::new(alloc),
        otherwise: false,
    };
    Ok(Role::Selection(Boxed::new(alloc, choosing)?))
}

/// What a `CASE` says of the lines under it, and what it is.
fn selection(
    alloc: Global,
    expr: &Expr,
    scope: &Scope,
    faults: &mut Items<Fault>,
) -> Result<(Role, TypedForm), AllocError>
    ensures role { IfOk result (λ r. r.0 ≡ spec_choosing (spec_selector scope.now expr.now).kind) }
    ensures form { IfOk result (λ r. r.1 ≡ made t.Selection (int_tree scope.now expr.now)) }
    ensures faults { OnOk result (faults.new ≡ faults.old ++ (spec_selector scope.now expr.now).faults) }
{
    let (kind, tree) = selector(alloc, expr, scope, faults)?;
    let role = choosing(alloc, kind)?;
    Ok((role, selection_form(tree)))
}

/// What the first line of a case input says of the lines under it, and what it is.
fn variants(
    alloc: Global,
    channel: &Element,
    scope: &Scope,
    faults: &mut Items<Fault>,
) -> Result<(Role, TypedForm), AllocError>
    ensures role { IfOk result (λ r. r.0 ≡ role.Variants (begun scope.now channel.now)) }
    ensures form { IfOk result (λ r. r.1 ≡ made t.CaseInput (element_tree scope.now channel.now)) }
    ensures faults { OnOk result (faults.new ≡ faults.old ++ case_faults scope.now channel.now) }
{
    let (input, tree) = case_input(alloc, channel, scope, faults)?;
    let input = Boxed::new(alloc, input)?;
    Ok((Role::Variants(input), case_input_form(tree)))
}

/// The line of a construct.
pub fn construct(
    alloc: Global,
    construct: &Construct,
    scope: &Scope,
    next: Parent,
    faults: &mut Items<Fault>,
) -> Result<Line, AllocError>
    ensures line { IfOk result (λ line. line ≡ (spec_constructing scope.now construct.now next).line) }
    ensures faults { OnOk result (faults.new ≡ faults.old ++ (spec_constructing scope.now construct.now next).faults) }
{
    match construct {
        Construct::Replicable(word, replicator) => {
            replicable(alloc, *word, replicator, scope, next, faults)
        }
        Construct::While(expr) => {
            let tree = condition(alloc, expr, scope, faults)?;
            main(alloc, while_form(tree), next)
        }
        Construct::Case(expr) => {
            let (role, form) = selection(alloc, expr, scope, faults)?;
            plain(alloc, with_role(role, &next), form, next)
        }
        Construct::CaseInput(channel) => {
            let (role, form) = variants(alloc, channel, scope, faults)?;
            plain(alloc, with_role(role, &next), form, next)
        }
    }
}
