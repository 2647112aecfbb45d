//! First lines of texts.

pub(crate) const GENERAL: &str = "%%MatrixMarket matrix coordinate integer general\n";

pub(crate) const SYMMETRIC: &str = "%%MatrixMarket matrix coordinate integer symmetric\n";

pub(crate) const SKEW: &str = "%%MatrixMarket matrix coordinate integer skew-symmetric\n";

pub(crate) const PATTERN: &str = "%%MatrixMarket matrix coordinate pattern general\n";

pub(crate) const PATTERN_SYMMETRIC: &str = "%%MatrixMarket matrix coordinate pattern symmetric\n";

pub(crate) const ARRAY: &str = "%%MatrixMarket matrix array integer general\n";

pub(crate) const ARRAY_SYMMETRIC: &str = "%%MatrixMarket matrix array integer symmetric\n";

pub(crate) const ARRAY_SKEW: &str = "%%MatrixMarket matrix array integer skew-symmetric\n";

/// The rest of the text has a first line of its own.
pub(crate) const NONE: &str = "";
