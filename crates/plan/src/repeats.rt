// A REPEAT whose END was not read yet: its entry among the statements, and what the lines up to
// it need.
// Stays (6): a rule of the project: the statements stand in a table that is made once, each known by its number.
#[derive(Clone, Copy, Default)]
pub struct OpenRepeat {
    pub statement: usize,
    pub need: u32,
}
