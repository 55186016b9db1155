//! Parses the items that a protocol carries: data types and `t::[]u`.
ghost use Rattle.occ_forms_expressions.specs.Reading.{IsNotCounted};
ghost use Rattle.occ_forms.specs.SpecificationSpelling.{item_then};

use super::from_tokens::FromTokens;
use super::specification_tree::ItemForm;
use occ_forms_expressions::{after_counted, data_form};
use occ_lines::Token;
use std::alloc::{AllocError, Global};

impl FromTokens for ItemForm {
    ghost spells = { item_then };

    ghost ends = { IsNotCounted };

    fn read(alloc: Global, tokens: &[Token]) -> Result<Option<(ItemForm, &[Token])>, AllocError> {
        let Some((form, rest)) = data_form(alloc, tokens)? else {
            return Ok(None);
        };
        let Some(rest) = after_counted(rest) else {
            return Ok(Some((ItemForm::Plain(form), rest)));
        };
        let Some((counted, rest)) = data_form(alloc, rest)? else {
            return Ok(None);
        };
        Ok(Some((ItemForm::Counted(form, counted), rest)))
    }
}
