//! Trees of programs: what a text of the grammar says, with lists of any length and numbers of at most nine digits.

/// What a command computes with: `nil` or a program variable.
#[derive(Clone, Copy)]
pub enum OperandTree<V> {
    Nil,
    Variable(V),
}

/// What a command does that begins with a variable.
#[derive(Clone, Copy)]
pub enum ChangeTree<V> {
    /// Sets it to a new cell of so many fields.
    New(u32),
    /// Sets it to a value.
    Assign(OperandTree<V>),
    /// Sets it to the field with this number of the cell at the operand.
    Load(OperandTree<V>, u32),
    /// Sets the field with this number of the cell at the variable.
    Store(u32, OperandTree<V>),
}

/// A command of a program over the heap (Brotherston, Bornat and Calcagno 2008).
#[derive(Clone, Copy)]
pub enum CommandTree<V> {
    Stop,
    Goto(u32),
    Free(OperandTree<V>),
    /// Goes to a line if the operands are equal, where the flag is set, or if they differ.
    If(OperandTree<V>, bool, OperandTree<V>, u32),
    /// Goes to a line or to the next one, whichever is picked.
    IfAny(u32),
    /// Sets the field with this number of the cell at `nil`.
    StoreAtNil(u32, OperandTree<V>),
    Change(V, ChangeTree<V>),
}

/// A line of a program, with the number that is written before it.
#[derive(Clone, Copy)]
pub struct LineTree<V> {
    pub number: u32,
    pub command: CommandTree<V>,
}
