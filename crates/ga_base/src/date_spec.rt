/// How finely VISITORS tells when lines were logged.
#[derive(Clone, Copy, Debug, PartialEq, Eq)]
pub enum DateSpec {
    /// By days.
    Date,
    /// By hours of a day.
    Hour,
    /// By minutes of a day.
    Minute,
}
