//! Logical lines and what they hold: tokens, a directive or one fault; and why a text has none.
ghost use Rattle.std.specs.Prelude.{◌≡◌};
ghost use Rattle.occ_lines.specs.declared.text.TextFault.TheVariants.{Memory};

use super::token::Token;
use occ_base::{Boxed, Code, FileName, Items, Shared};
use std::alloc::AllocError;
use thiserror::Error;

/// What a logical line holds. Names of files lie in blocks of their own: else every line would have room for two.
#[derive(Drop)]
pub enum Body {
    /// The tokens of a statement, at least one.
    Tokens(Items<Token>),
    /// The lines of this file stand here.
    Include(Boxed<FileName>),
    /// The exports of this unit are visible from here on; expansions share its name. Of a library there is also the name of its
    /// list: where that file is open, the units that it lists are used in place of this one.
    Uses(Shared<FileName>, Option<Boxed<FileName>>),
    /// The one fault of the line: `L1`, `L2`, `L3` or `L4`.
    Fault(Code),
}

/// A logical line: a statement of the text.
#[derive(Drop)]
pub struct Logical {
    /// The line of the text on which it begins, from 1.
    pub line: u32,
    /// The column of its first byte that is no blank, divided by 2.
    pub depth: u32,
    pub body: Body,
}

/// Why a text has no logical lines. The first of this order is reported.
#[derive(Clone, Copy, Debug, Error)]
pub enum TextFault {
    /// Over 262,144 bytes.
    #[error("a text has 262,144 bytes at most")]
    TooLarge,
    /// Over 16,384 lines.
    #[error("a text has 16,384 lines at most")]
    TooManyLines,
    /// Memory was refused.
    #[error("out of memory")]
    Memory,
}

impl From<AllocError> for TextFault {
    ghost from_gives = { λ _ fault. fault ≡ Memory };

    fn from(_error: AllocError) -> TextFault {
        TextFault::Memory
    }
}
