//! A script that was read whole. Contracts see it as what it says.
ghost use Rattle.occheck_commands.specs.Ended.{IsEnded};
ghost use Rattle.occheck_commands.specs.Left.{IsRest, script_left};
ghost use Rattle.occheck_commands.specs.Lines.{cut_lines, script_limit};
ghost use Rattle.occheck_commands.specs.Script.{script_from};
ghost use Rattle.std.specs.Prelude.{◌≡◌, ◌≤◌, ◌+◌, length};

use occheck_commands::{Rest, ScriptText};
use std::marker::Model;

/// A script that was read whole. Contracts see it as what it says.
#[derive(Drop)]
pub struct SessionScript {
    text: ScriptText,
}

impl Model for SessionScript {
    ghost use Rattle.occheck_commands.specs.Ended.{IsEnded};
    ghost use Rattle.occheck_commands.specs.Lines.{cut_lines, script_limit};
    ghost use Rattle.occheck_commands.specs.Script.{Script, script_from};
    ghost use Rattle.std.specs.Prelude.{◌≤◌, ◌+◌, length};

    ghost Value = { Script };

    ghost view = { λ s. script_from s.text.over 1 (cut_lines s.text.bytes.items) };

    ghost invariant = { λ s. IsEnded s.text.bytes.items × (length s.text.bytes.items ≤ script_limit + 1) };
}

impl SessionScript {
    pub fn of(text: ScriptText) -> SessionScript
        requires ended { IsEnded text.bytes.items }
        requires short { length text.bytes.items ≤ script_limit + 1 }
        ensures { result ≡ script_from text.over 1 (cut_lines text.bytes.items) }
    {
        SessionScript { text }
    }

    /// All that it says is left.
    pub fn begin(&self) -> Rest<'_>
        ensures rest { IsRest result }
        ensures says { script_left result ≡ self.now }
        ensures short { length result.bytes.now ≤ script_limit + 1 }
    {
        Rest {
            bytes: self.text.bytes.as_slice(),
            line: 1,
            over: self.text.over,
        }
    }
}
