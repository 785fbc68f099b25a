// The help of a line.

/// The help of a line of a script.
pub struct LineHelp {
    /// Its first word.
    pub name: &'static str,
    /// Its words.
    pub usage: &'static str,
    /// A description of its effect.
    pub does: &'static str,
    /// The text of its reply before `ok`.
    pub reply: &'static str,
    /// Its words as an example.
    pub example: &'static str,
    /// The reasons for which it is refused, apart from BadLine.
    pub reasons: &'static str,
}
