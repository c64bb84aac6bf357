// Where the records of each kind stand.

// The head's byte that counts the records, where the first begins, and the size of each.
#[derive(Clone, Copy)]
pub struct Region {
    pub counter: usize,
    pub base: usize,
    pub size: usize,
}

pub const NODES: Region = Region {
    counter: 1,
    base: 16,
    size: 16,
};

pub const OPS: Region = Region {
    counter: 2,
    base: 1040,
    size: 32,
};

pub const RESULTS: Region = Region {
    counter: 3,
    base: 3088,
    size: 16,
};
