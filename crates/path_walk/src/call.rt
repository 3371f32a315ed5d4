use inode_tree::Fresh;
use namespace_model::{Caller, Request};
use path_text::Path;

/// What is asked of an evaluator.
#[derive(Clone, Copy)]
pub struct Call<'a> {
    /// What is asked for.
    pub request: &'a Request,
    /// Who asks.
    pub caller: &'a Caller,
    /// The path that the operation names: of a rename the destination, of a listing the directory.
    pub path: &'a Path,
    /// The moment, in milliseconds since 1970.
    pub moment: u64,
    /// The ids that may be given to new nodes.
    pub fresh: Fresh,
}
