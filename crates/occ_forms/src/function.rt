//! Parses heads of functions, `t, .. FUNCTION n (formals)`, perhaps with INLINE.
ghost use Rattle.occ_forms_expressions.specs.Reading.{IsNotWord, Reads};
ghost use Rattle.occ_forms_expressions.specs.Spelling.{many, type_form_then};
ghost use Rattle.occ_lines.specs.declared.token.Symbol.TheVariants as s;
ghost use Rattle.occ_lines.specs.declared.token.Token.{Token as AToken};
ghost use Rattle.occ_lines.specs.declared.token.Word.TheVariants as w;
ghost use Rattle.occ_forms.specs.SpecificationSpelling.{function_head_then, function_then, inlined_then, next};
ghost use Rattle.occ_forms.specs.declared.specification_tree.FunctionHead.{FunctionHead as AFunctionHead};
ghost use Rattle.occ_forms.specs.declared.specification_tree.Inlined.{Inlined as SomeInlined};
ghost use Rattle.std.specs.Prelude.{IfOk, IfSome, List, length, ◌≡◌, ◌≤◌, ◌<◌};

use super::formals::value_formals;
use super::from_tokens::more;
use super::specification_tree::{FunctionHead, Inlined};
use occ_forms_expressions::{TypeForm, after_word, name};
use occ_lines::{Symbol, Token, Word};
use std::alloc::{AllocError, Global};

/// Whether `INLINE` stands first, and what follows it.
pub fn perhaps_inline(tokens: &[Token]) -> (Inlined, &[Token])
    ensures found { tokens.now ≡ inlined_then result.0 result.1.now }
    ensures shorter { length result.1.now ≤ length tokens.now }
    ensures only { (i : SomeInlined) (k : List AToken) → IsNotWord w.Inline k → tokens.now ≡ inlined_then i k → (result.0 ≡ i) × (result.1.now ≡ k) }
{
    match after_word(tokens, Word::Inline) {
        Some(rest) => (Inlined::Yes, rest),
        None => (Inlined::No, tokens),
    }
}

/// The head of a function, of which the type of the first result is read.
pub fn function_head(
    alloc: Global,
    first: TypeForm,
    tokens: &[Token],
) -> Result<Option<(FunctionHead, &[Token])>, AllocError>
    ensures found { IfOk result (λ r. IfSome r (λ x. type_form_then first tokens.now ≡ function_head_then x.0 x.1.now)) }
    ensures shorter { IfOk result (λ r. IfSome r (λ x. length x.1.now < length tokens.now)) }
    ensures only { IfOk result (λ r. (head : AFunctionHead) (k : List AToken) → first ≡ head.first → tokens.now ≡ many (next s.Comma type_form_then) head.more (function_then head k) → Reads r head k) }
{
    let Some((more, rest)) = more::<TypeForm>(alloc, tokens, Symbol::Comma)? else {
        return Ok(None);
    };
    let (inlined, rest) = perhaps_inline(rest);
    let Some(rest) = after_word(rest, Word::Function) else {
        return Ok(None);
    };
    let Some((name, rest)) = name(alloc, rest)? else {
        return Ok(None);
    };
    let Some((formals, rest)) = value_formals(alloc, rest)? else {
        return Ok(None);
    };
    let head = FunctionHead {
        first,
        more,
        inlined,
        name,
        formals,
    };
    Ok(Some((head, rest)))
}
