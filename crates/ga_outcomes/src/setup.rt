use ga_line::LineSetup;
use ga_panels::PanelSetup;

/// How the lines of logs are read and counted: what is made once and serves every line.
#[derive(Debug, Drop)]
pub struct Setup {
    /// How a line is read to a record.
    pub line: LineSetup,
    /// Under which keys a record is counted, and whether it is.
    pub panels: PanelSetup,
}
