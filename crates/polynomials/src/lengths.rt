// The length of a polynomial: `coefficient_count` of `rules`.

// The coefficients of a polynomial, for degrees up to 15 (SCOPE 1.4).
pub const COEFFICIENTS: usize = 16;
