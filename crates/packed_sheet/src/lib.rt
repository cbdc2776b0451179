// The packed sheet of documents 01 and 02: its editions, its layout, what line a sheet means, and which sheet a line has. There are no
// functions here.
#![tactic(auto)]

// What sets one edition of the sheet apart from another.
#[derive(Clone, Copy)]
pub struct Edition {
    pub number: u32,
    // The width of the start, in bits.
    pub width: usize,
    // The greatest start, in mm.
    pub greatest: u32,
}

// The head's fields.
#[derive(Clone, Copy)]
pub struct Head {
    pub edition: u32,
    pub count: usize,
    pub speed: u32,
    pub crossfall: u32,
    pub start: u32,
}
