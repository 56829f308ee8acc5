//! The result of loading a cell.

use kern_post::content::Ending;

/// The result of loading the cell of an execution.
#[derive(Clone, Copy)]
pub enum Loading {
    /// A run is to start at this address.
    Starts(u16),
    /// The execution ends at once, since the cell names no start or can't be loaded.
    Ends(Ending),
}
