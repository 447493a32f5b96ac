/// The calls of a files object.
#[derive(Clone, Copy, Debug, PartialEq, Eq)]
pub enum Call {
    OpenInput,
    Read,
    Create,
    Write,
    Close,
}

/// A call of a shelf that is to fail: the one of its kind with this number, counted from 0.
#[derive(Clone, Copy, Debug, PartialEq, Eq)]
pub struct Fail {
    pub call: Call,
    pub nth: u32,
}
