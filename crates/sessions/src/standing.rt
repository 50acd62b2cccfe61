// Where a session stands.
#[derive(Clone, Copy, PartialEq, Eq, Debug)]
pub enum Standing {
    // an order was given, or nothing was settled yet
    Stirred,
    // no rule removes more
    Settled,
    // no table is left
    Failed,
}
