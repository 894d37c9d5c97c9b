/// What follows a session's text.
#[derive(Clone, Copy, Debug, PartialEq, Eq)]
pub enum SessionUse {
    /// The input ends with the session.
    Alone,
    /// A report follows the line `end`.
    BeforeReport,
}
