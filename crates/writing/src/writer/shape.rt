// What the lines of a sheet have in common.
ghost use Rattle.std.specs.Prelude.{◌≤◌, nat_abs};
ghost use Rattle.rules.specs.Limits.{block_bound, block_count};

// The highest block of a sheet, its columns, and how many of a row's blocks are in use.
#[derive(Clone, Copy, Debug, PartialEq, Eq)]
pub(crate) struct Shape {
    pub l: i64,
    pub m: usize,
    pub blocks: usize,
    ghost low: { nat_abs l ≤ block_bound },
    ghost few: { blocks ≤ block_count },
}
