// A row of twelve coefficients.

// In parts of 2 ^ -63, the constant first.
#[derive(Clone, Copy)]
pub struct Row(
    pub u64,
    pub u64,
    pub u64,
    pub u64,
    pub u64,
    pub u64,
    pub u64,
    pub u64,
    pub u64,
    pub u64,
    pub u64,
    pub u64,
);
