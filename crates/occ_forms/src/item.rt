//! Parses what inputs and outputs have between semicolons: `e`, `e::e`, `el` and `el::el`.
ghost use Rattle.occ_forms.specs.Reading.{IsItemEnd};
ghost use Rattle.occ_forms.specs.Spelling.{input_item_then, output_item_then};

use super::from_tokens::FromTokens;
use super::tree::{InputItem, OutputItem};
use occ_base::Boxed;
use occ_forms_expressions::{after, element, expression};
use occ_lines::{Symbol, Token};
use std::alloc::{AllocError, Global};

impl FromTokens for InputItem {
    ghost spells = { input_item_then };

    ghost ends = { IsItemEnd };

    fn read(alloc: Global, tokens: &[Token]) -> Result<Option<(InputItem, &[Token])>, AllocError> {
        let Some((first, rest)) = element(alloc, tokens)? else {
            return Ok(None);
        };
        let Some(begun) = after(rest, Symbol::Counted) else {
            return Ok(Some((InputItem::Plain(first), rest)));
        };
        let count = Boxed::new(alloc, first)?;
        let Some((array, rest)) = element(alloc, begun)? else {
            return Ok(None);
        };
        let array = Boxed::new(alloc, array)?;
        Ok(Some((InputItem::Counted(count, array), rest)))
    }
}

impl FromTokens for OutputItem {
    ghost spells = { output_item_then };

    ghost ends = { IsItemEnd };

    fn read(alloc: Global, tokens: &[Token]) -> Result<Option<(OutputItem, &[Token])>, AllocError> {
        let Some((first, rest)) = expression(alloc, tokens)? else {
            return Ok(None);
        };
        let Some(begun) = after(rest, Symbol::Counted) else {
            return Ok(Some((OutputItem::Plain(first), rest)));
        };
        let count = Boxed::new(alloc, first)?;
        let Some((array, rest)) = expression(alloc, begun)? else {
            return Ok(None);
        };
        let array = Boxed::new(alloc, array)?;
        Ok(Some((OutputItem::Counted(count, array), rest)))
    }
}
