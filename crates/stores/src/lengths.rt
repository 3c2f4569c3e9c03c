// The lengths of rows, relations and their stores: `column_count`, `most_equations`, `block_count`, `polynomial_count`, `block_length`, `entries_length`,
// `row_length` and `relation_length` of `rules`, the largest row store and the relation store (SCOPE 3.2, 3.4, 3.11).
use polynomials::lengths::COEFFICIENTS;

// The columns of a block, for the largest number of unknowns (SCOPE 1.1).
pub const COLUMNS: usize = 4;

// The blocks of a row, for the largest D (SCOPE 1.2).
pub const BLOCKS: usize = 5;

// The polynomials of a row's left part.
pub const POLYNOMIALS: usize = BLOCKS * COLUMNS;

// The numbers of a block.
pub const BLOCK: usize = COLUMNS * COEFFICIENTS;

// The numbers of a row's left part.
pub const ENTRIES: usize = BLOCKS * BLOCK;

// The numbers of a row: the right side stands behind the left part.
pub const ROW: usize = ENTRIES + COEFFICIENTS;

// n0 and then a row.
pub const RELATION: usize = 1 + ROW;

// The largest number of equations (SCOPE 1.1).
pub const EQUATIONS: usize = 6;

// The largest row store.
pub const ROWS: usize = EQUATIONS * ROW;

// The relation store: sixteen relations.
pub const RELATIONS: usize = 16 * RELATION;
