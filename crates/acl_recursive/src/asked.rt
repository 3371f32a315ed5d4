use namespace_model::BatchChange;
use path_text::Path;

// What of a subtree is asked for.
#[derive(Clone, Copy)]
pub(crate) struct Asked<'a> {
    // What the lists of each directory become.
    pub(crate) change: &'a BatchChange,
    // What those of each file become: the entries of the access scope alone.
    pub(crate) for_files: &'a BatchChange,
    // The path behind which the batch begins.
    pub(crate) token: &'a Option<Path>,
    // The most nodes that the batch may have.
    pub(crate) max: u32,
    // Whether the batch goes on behind a node that fails.
    pub(crate) force: bool,
}
