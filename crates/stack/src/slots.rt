ghost use Rattle.std.specs.Prelude.{◌≤◌, length};

// A stack over borrowed slots, for any kind of element: the first `len` slots are in use, the
// oldest element first.
// Stays (6): a rule of the project: the stack is to stand over borrowed slots, so its length stands beside them.
#[derive(Drop)]
pub struct Stack<'a, T> {
    pub(super) slots: &'a mut [T],
    pub(super) len: usize,
    ghost within: { len ≤ length slots.now },
}
