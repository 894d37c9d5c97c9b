/// How a plane's samples are spelled.
#[derive(Clone, Copy, Debug, PartialEq, Eq)]
pub enum Spelling {
    /// `P5`: a sample is one byte or two.
    Raw,
    /// `P2`: a sample is decimal digits.
    Plain,
}
