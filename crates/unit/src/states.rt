// The states of a sealed unit, and the kinds of orders that it is given.

#[derive(Clone, Copy, PartialEq, Eq, Debug)]
pub enum State {
    // No blocks are awaited: newly sealed, or released.
    Parked,
    // Blocks were named, and not all of them are taken.
    Loading,
    // All blocks that were named are taken.
    Ready,
    // An engage order was granted.
    Steering,
}

// A plain kind, with the number and the block beside it and not inside: so the rules of the unit give an order.
#[derive(Clone, Copy, PartialEq, Eq, Debug)]
pub enum Kind {
    // Opens the unit for a number of blocks.
    Open,
    // Hands in the block of a number, counted from 0.
    Block,
    // Asks for the steering.
    Engage,
    // Gives the steering back.
    Release,
}
