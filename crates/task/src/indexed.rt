// What is asked of: an accepted file with its index, and the same at a horizon. Whoever holds one of these need not judge again.
ghost use Rattle.std.specs.Prelude.{◌≤◌};
ghost use Rattle.rules.specs.Limits.{max_horizon};
ghost use Rattle.task.specs.Index.{Indexed};

// An accepted file with its index.
#[derive(Clone, Copy)]
pub struct IndexedFile<'a> {
    pub file: &'a [u8],
    pub index: &'a [u16],
    ghost indexed: { Indexed file.now index.now },
}

// The same at a horizon up to 64.
#[derive(Clone, Copy)]
pub struct Asked<'a> {
    pub task: IndexedFile<'a>,
    pub horizon: usize,
    ghost within: { horizon ≤ max_horizon },
}
