//! The form of a line, or why it has none: too deep (S3) comes before no form (S1).
ghost use Rattle.occ_forms_expressions.specs.Depth.{most_open};
ghost use Rattle.occ_forms.specs.Depth.{HasForm, HasNoForm, IsTooDeep};
ghost use Rattle.occ_forms.specs.Spelling.{form_tokens};
ghost use Rattle.occ_forms.specs.declared.tree.Form.{Form as AForm};
ghost use Rattle.occ_forms.specs.declared.parse.LineFault.TheVariants.{Memory};
ghost use Rattle.std.specs.Prelude.{IfOk, IsErrOf, ◌≡◌, ◌<◌};

use super::line::line;
use super::tree::Form;
use occ_forms_expressions::{Measured, opens_too_many};
use occ_lines::Token;
use std::alloc::{AllocError, Global};
use thiserror::Error;

/// Why the tokens of a line have no form.
#[derive(Clone, Copy, Debug, Error)]
pub enum LineFault {
    /// No form spells the tokens, and no more than 64 brackets are open at once.
    #[error("no form")]
    NoForm,
    /// Over 64 brackets are open at once, or a type in the form has over 64 dimensions.
    #[error("too deep")]
    TooDeep,
    /// Memory was refused.
    #[error("out of memory")]
    Memory,
}

impl From<AllocError> for LineFault {
    ghost from_gives = { λ _ e. e ≡ Memory };

    fn from(_e: AllocError) -> LineFault {
        LineFault::Memory
    }
}

/// The form of a line, which its tokens spell. Where over 64 brackets are open at once no memory is taken.
pub fn form(alloc: Global, tokens: &[Token]) -> Result<Form, LineFault>
    ensures found { IfOk result (λ form. HasForm tokens.now form) }
    ensures only { IfOk result (λ found. (f : AForm) → tokens.now ≡ form_tokens f → found ≡ f) }
    ensures none { IsErrOf result LineFault.NoForm → HasNoForm tokens.now }
    ensures deep { IsErrOf result LineFault.TooDeep → IsTooDeep tokens.now }
    ensures deeper { IsErrOf result LineFault.TooDeep → (f : AForm) → HasForm tokens.now f → ⊥ }
    ensures brackets { 64 < most_open 0 tokens.now → IsErrOf result LineFault.TooDeep }
{
    if opens_too_many(tokens) {
        return Err(LineFault::TooDeep);
    }
    let Some(form) = line(alloc, tokens)? else {
        return Err(LineFault::NoForm);
    };
    if form.has_many_dimensions() {
        return Err(LineFault::TooDeep);
    }
    Ok(form)
}
