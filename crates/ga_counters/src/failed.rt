/// A call of the outside failed. Its count of faults tells that it did.
#[derive(Clone, Copy, Debug, PartialEq, Eq)]
pub struct Failed;
