use namespace_model::Request;

/// What is asked: a request, with the number of its connection and its place there.
#[derive(Drop)]
pub struct Asked {
    pub conn: u32,
    /// Counted from 0.
    pub index: u32,
    pub request: Request,
}
