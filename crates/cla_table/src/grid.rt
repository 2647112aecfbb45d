//! The shape of a table, and where its cells stand.

ghost use Rattle.std.specs.Prelude.{◌≡◌, ◌+◌, ◌*◌, ◌^◌, ◌<◌, ◌≤◌};
ghost use Rattle.cla_spec.specs.Matrix.{most_cells};
ghost use Rattle.cla_table.specs.Places.{first_of, height_of, place_of};

// A panel has at most 2^8 rows, and at most this many cells if it has more than one row.
const GREATEST_SHIFT: u32 = 8;

const MOST_IN_PANEL: u32 = 1 << 18;

/// The shape of a table, whose rows stand in panels of 2^shift rows. The cells of a panel that is
/// filled column by column, or row by row, lie near one another.
#[derive(Clone, Copy)]
pub(crate) struct Grid {
    pub(crate) rows: u32,
    pub(crate) cols: u32,
    pub(crate) shift: u32,
    ghost a_row: { 1 ≤ rows },
    ghost a_col: { 1 ≤ cols },
    ghost few: { rows * cols ≤ most_cells },
    ghost low: { shift ≤ 8 },
}

impl Grid {
    pub(crate) fn new(rows: u32, cols: u32) -> Grid
        requires a_row { 1 ≤ rows }
        requires a_col { 1 ≤ cols }
        requires few { rows * cols ≤ most_cells }
        ensures rows { result.rows ≡ rows }
        ensures cols { result.cols ≡ cols }
    {
        let mut shift = GREATEST_SHIFT;
        while shift > 0 && cols > MOST_IN_PANEL >> shift {
            shift -= 1;
        }
        Grid { rows, cols, shift }
    }

    /// How many cells there are.
    pub(crate) fn cells(self) -> usize
        ensures { result ≡ self.rows * self.cols }
    {
        self.rows as usize * self.cols as usize
    }

    /// Where a cell stands row by row.
    pub(crate) fn row_by_row(self, row: u32, col: u32) -> u32
        requires row { row < self.rows }
        requires col { col < self.cols }
        ensures place { result ≡ row * self.cols + col }
        ensures within { result < self.rows * self.cols }
    {
        row * self.cols + col
    }

    /// The same shape, with panels of one row each: its cells stand row by row.
    pub(crate) fn by_rows(self) -> Grid
        ensures rows { result.rows ≡ self.rows }
        ensures cols { result.cols ≡ self.cols }
        ensures shift { result.shift ≡ 0 }
    {
        Grid {
            rows: self.rows,
            cols: self.cols,
            shift: 0,
        }
    }

    /// How many rows stand in a panel, but for the last.
    pub(crate) fn panel(self) -> usize
        ensures { result ≡ 2 ^ self.shift }
    {
        1 << self.shift
    }

    /// Where a cell stands among panels.
    #[inline(always)]
    #[tactic(auto, unfolding(crate::specs::Places::place_of), using(crate::proofs::PlaceLaws::place_within))]
    pub(crate) fn place(self, row: u32, col: u32) -> usize
        requires row { row < self.rows }
        requires col { col < self.cols }
        ensures place { result ≡ place_of (2 ^ self.shift) self.rows self.cols row col }
        ensures within { result < self.rows * self.cols }
    {
        let first = self.first(row);
        let height = self.height(first);
        first as usize * self.cols as usize
            + col as usize * height as usize
            + (row - first) as usize
    }

    // The first row of a row's panel.
    #[inline(always)]
    fn first(self, row: u32) -> u32
        requires { row < self.rows }
        ensures { result ≡ first_of (2 ^ self.shift) row }
    {
        row >> self.shift << self.shift
    }

    // How many rows the panel has that begins with this row.
    #[inline(always)]
    fn height(self, first: u32) -> u32
        requires { first < self.rows }
        ensures { result ≡ height_of (2 ^ self.shift) self.rows first }
    {
        (1u32 << self.shift).min(self.rows - first)
    }
}
