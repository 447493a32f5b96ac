/// The names of the files that an operation reads, in the order in which it reads them.
#[derive(Clone, Copy, Debug, PartialEq, Eq)]
pub enum Inputs<'a> {
    Nothing,
    One(&'a str),
    Two(&'a str, &'a str),
}
