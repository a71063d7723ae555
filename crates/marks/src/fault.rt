// What can be wrong with the marks of a text.
#[derive(Clone, Copy, Debug, PartialEq, Eq)]
pub enum MarkFault {
    // What stands at this byte is no mark.
    Strange(usize),
}
