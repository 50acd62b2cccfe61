// What is asked of a session. The two numbers of a narrow are what a caller says, and need be no ends of any domain.
#[derive(Clone, Copy, PartialEq, Eq, Debug)]
pub enum Call {
    // an order: variable x loses the value v
    Strike { x: usize, v: i32 },
    // an order: variable x keeps the values from lo to hi
    Narrow { x: usize, lo: i32, hi: i32 },
    // runs the waiting rules until none waits
    Settle,
    // saves the table
    Save,
    // goes back to the session's last save
    Restore,
}
