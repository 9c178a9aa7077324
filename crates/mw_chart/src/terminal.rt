// The tokens of a text.

/// What a token spells as a whole tree by itself: a state of whole texts, and a number of the caller's.
#[derive(Clone, Copy)]
pub struct Leaf {
    pub state: usize,
    pub value: u32,
}

/// A token of a text, and what it spells by itself.
#[derive(Drop)]
pub struct Terminal {
    pub token: u32,
    pub leaves: Vec<Leaf>,
}
