/// A file to stand on a shelf.
#[derive(Debug, Drop)]
pub struct ShelfFile {
    pub name: String,
    pub bytes: Vec<u8>,
}
