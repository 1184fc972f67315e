// Where the log's message at a place lies in an image.
#[derive(Clone, Copy)]
pub struct Located {
    pub offset: usize,
    pub size: usize,
}
