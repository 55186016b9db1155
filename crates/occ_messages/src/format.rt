//! How diagnostics are written.

/// How diagnostics are written.
#[derive(Clone, Copy, Debug, PartialEq, Eq)]
pub enum Format {
    /// Each with its line of the text, reasons and hints.
    Text,
    /// Each on one line.
    Short,
    /// One JSON list.
    Json,
    /// SARIF 2.1.0, which code hosts read.
    Sarif,
    /// Commands of GitHub's actions, a line each.
    Github,
}
