//! Parses a whole line that specifies names, or the head of a specification. `docs/LANGUAGE.md, Forms`.
ghost use Rattle.occ_forms.specs.SpecificationSpelling.{specified_tokens};
ghost use Rattle.occ_forms.specs.declared.specification_tree.Specified.{Specified as ASpecified};
ghost use Rattle.std.specs.Prelude.{IfOk, IfSome, Some, ◌≡◌};

use super::definition::{data_type, procedure, protocol};
use super::specification_tree;
use super::start::{Start, starts};
use super::typed::named_or_typed;
use super::value::value;
use occ_lines::Token;
use std::alloc::{AllocError, Global};

/// What the tokens of a line specify or begin to specify, where they do: the one tree that spells them.
pub fn specified(
    alloc: Global,
    tokens: &[Token],
) -> Result<Option<specification_tree::Specified>, AllocError>
    ensures found { IfOk result (λ r. IfSome r (λ x. tokens.now ≡ specified_tokens x)) }
    ensures only { IfOk result (λ r. (x : ASpecified) → tokens.now ≡ specified_tokens x → r ≡ Some x) }
{
    match starts(tokens) {
        Start::Procedure => procedure(alloc, tokens),
        Start::Protocol => protocol(alloc, tokens),
        Start::DataType => data_type(alloc, tokens),
        Start::Value => value(alloc, tokens),
        Start::Other => named_or_typed(alloc, tokens),
    }
}
