//! Messages as commands of GitHub's actions, which shows them beside their lines.
use occ_base::Grade;
use occ_messages::Message;
use std::alloc::{AllocError, Global};

/// Messages, each as a command.
pub fn github_text(alloc: Global, messages: &[Message]) -> Result<String, AllocError> {
    let mut text = String::new(alloc);
    for message in messages {
        text.push_str(command(alloc, message)?.as_str())?;
    }
    Ok(text)
}

/// A message as a command.
fn command(alloc: Global, message: &Message) -> Result<String, AllocError> {
    let level = match message.grade {
        Grade::Error => "error",
        Grade::Check => "warning",
    };
    let path = escaped(alloc, message.path.as_str())?;
    let line = message.line;
    let code = message.code.as_str();
    let words = escaped(alloc, message.words.as_str())?;
    format!(in alloc; "::{level} file={path},line={line},title={code}::{words}\n")
}

/// A text in a command: what would end it there is written by hexadecimal digits.
fn escaped(alloc: Global, text: &str) -> Result<String, AllocError> {
    let mut escaped = String::new(alloc);
    for c in text.chars() {
        match c {
            '%' => escaped.push_str("%25")?,
            '\r' => escaped.push_str("%0D")?,
            '\n' => escaped.push_str("%0A")?,
            ':' => escaped.push_str("%3A")?,
            ',' => escaped.push_str("%2C")?,
            _ => escaped.push(c)?,
        }
    }
    Ok(escaped)
}
