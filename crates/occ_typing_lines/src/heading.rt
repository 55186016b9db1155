//! Heads of PROCs, FUNCTIONs, records and protocols, with what the lines under them add.
#![tactic(auto, using(crate::proofs::Trees::tree_rules))]

ghost use Rattle.occ_tree.specs.Forest.{forest_of};
ghost use Rattle.occ_typing_lines.specs.Protocols.{protocol_of as spec_protocol_of};
ghost use Rattle.occ_typing_lines.specs.Records.{record_of as spec_record_of};
ghost use Rattle.occ_typing_lines.specs.Specifying.{heading as spec_heading, named as spec_named, protocol_head as spec_protocol_head, record_head as spec_record_head};
ghost use Rattle.std.specs.Prelude.{◌≡◌, ◌++◌, [], Some, IfOk, OnOk};

use super::line::{body_of, with_role};
use super::parent::{Line, Parent, Role};
use super::protocol::protocol_of;
use super::record::record_of;
use super::tree::TypedForm;
use occ_base::{Boxed, Diag, Fault, Items, Name};
use occ_forms::Head;
use occ_scope::{Meaning, Scope, ScopeEntry, one_entry};
use occ_tree::Node;
use occ_typing_specifications::{function_head, procedure_head, record, tagged_protocol};
use std::alloc::{AllocError, Global};

/// The head of a specification with this name, after whose lines it stands for this.
fn headed(
    alloc: Global,
    name: &Name,
    meaning: Meaning,
    under: Parent,
    enters: Items<ScopeEntry>,
    form: TypedForm,
    next: Parent,
) -> Result<Line, AllocError>
    ensures { IfOk result (λ line. line ≡ record { parent = under; enters = enters; next = next; adds = Some (spec_named name.now meaning); form = form }) }
{
    let form = Boxed::new(alloc, form)?;
    let adds = one_entry(alloc, name, meaning)?;
    Ok(Line {
        parent: under,
        enters,
        next,
        adds: Some(adds),
        form,
    })
}

/// The head of a record, with what the lines of its fields report.
fn record_head(
    alloc: Global,
    name: &Name,
    nodes: &[Node],
    scope: &Scope,
    next: Parent,
    found: &mut Items<Diag>,
    faults: &mut Items<Fault>,
) -> Result<Line, AllocError>
    ensures line { IfOk result (λ line. line ≡ (spec_record_head name.now (spec_record_of scope.now (forest_of nodes.now)) next).line) }
    ensures found { OnOk result (found.new ≡ found.old ++ (spec_record_head name.now (spec_record_of scope.now (forest_of nodes.now)) next).beneath) }
    ensures faults { OnOk result (faults.new ≡ faults.old ++ (spec_record_head name.now (spec_record_of scope.now (forest_of nodes.now)) next).faults) }
{
    let (packing, fields) = record_of(alloc, nodes, scope, found)?;
    let meaning = record(alloc, name, packing, fields, faults)?;
    let under = with_role(Role::Members, &next);
    headed(
        alloc,
        name,
        meaning,
        under,
        Items::new(alloc),
        TypedForm::RecordHead,
        next,
    )
}

/// The head of a protocol, with what the lines of its tags report.
fn protocol_head(
    alloc: Global,
    name: &Name,
    nodes: &[Node],
    scope: &Scope,
    next: Parent,
    found: &mut Items<Diag>,
    faults: &mut Items<Fault>,
) -> Result<Line, AllocError>
    ensures line { IfOk result (λ line. line ≡ (spec_protocol_head name.now (spec_protocol_of scope.now (forest_of nodes.now)) next).line) }
    ensures found { OnOk result (found.new ≡ found.old ++ (spec_protocol_head name.now (spec_protocol_of scope.now (forest_of nodes.now)) next).beneath) }
    ensures faults { OnOk result (faults.new ≡ faults.old ++ (spec_protocol_head name.now (spec_protocol_of scope.now (forest_of nodes.now)) next).faults) }
{
    let tags = protocol_of(alloc, nodes, scope, found)?;
    let meaning = tagged_protocol(alloc, name, tags, faults)?;
    let under = with_role(Role::Members, &next);
    headed(
        alloc,
        name,
        meaning,
        under,
        Items::new(alloc),
        TypedForm::ProtocolHead,
        next,
    )
}

/// The line of a head, under which these nodes stand, with what lines of fields and of tags among them report.
pub fn heading(
    alloc: Global,
    head: &Head,
    nodes: &[Node],
    scope: &Scope,
    next: Parent,
    found: &mut Items<Diag>,
    faults: &mut Items<Fault>,
) -> Result<Line, AllocError>
    ensures line { IfOk result (λ line. line ≡ (spec_heading scope.now head.now (forest_of nodes.now) next).line) }
    ensures found { OnOk result (found.new ≡ found.old ++ (spec_heading scope.now head.now (forest_of nodes.now) next).beneath) }
    ensures faults { OnOk result (faults.new ≡ faults.old ++ (spec_heading scope.now head.now (forest_of nodes.now) next).faults) }
{
    match head {
        Head::Procedure(_, name, formals) => {
            let known = procedure_head(alloc, formals.as_slice(), scope, faults)?;
            headed(
                alloc,
                name,
                known.meaning,
                body_of(Role::Process),
                known.formals,
                TypedForm::ProcedureHead,
                next,
            )
        }
        Head::Function(head) => {
            let known = function_head(alloc, head, scope, faults)?;
            let under = body_of(Role::Function(Boxed::new(alloc, known.results)?));
            headed(
                alloc,
                &head.name,
                known.meaning,
                under,
                known.formals,
                TypedForm::FunctionHead,
                next,
            )
        }
        Head::Protocol(name) => protocol_head(alloc, name, nodes, scope, next, found, faults),
        Head::DataType(name) => record_head(alloc, name, nodes, scope, next, found, faults),
    }
}
