/// How finely VISIT_TIMES tells the time of the day.
#[derive(Clone, Copy, Debug, PartialEq, Eq)]
pub enum HourSpec {
    /// By hours.
    Hour,
    /// By tens of minutes.
    Tens,
}
