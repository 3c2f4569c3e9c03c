// The lengths of the list and of the matrix: `list_columns` and `most_rows` of the specs (SCOPE 14.61).

// 16 indices of four unknowns: the numbers of a listed sequence and of a constant row, and the most sequences.
pub const LIST_COLUMNS: usize = 64;

// The most constant rows.
pub const MATRIX_ROWS: usize = 136;
