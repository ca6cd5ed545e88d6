/// What a run makes of the database.
#[derive(Clone, Copy, Debug, PartialEq, Eq)]
pub enum Mode {
    /// The run alone is stored.
    Overwrite,
    /// The run is added to what is stored.
    Append,
}
