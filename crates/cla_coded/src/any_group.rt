//! Groups of any kind.

ghost use Rattle.std.specs.Prelude.{◌≡◌, ◌/◌, ◌*◌, ◌-◌, ◌≤◌, ◌<◌, length, map, IfOk};
ghost use Rattle.cla_layout.specs.Groups.{AreNumbered};
ghost use Rattle.cla_group.specs.Rows.{AreRowsFrom, ArePlaces, projected};
ghost use Rattle.cla_layout.specs.Tuples.{AreCodes, tuples_of};
ghost use Rattle.cla_coded.specs.AnyGroups.{any_columns, any_codes, any_dictionary, any_form, form_cut, IsGroupFrom};
ghost use Rattle.cla_coded.specs.AnyGroups.{least_code_bytes};

use cla_codes::{Codes, RowCodes};
use cla_group::{Group, Kind, Owned, values_in_order};
use cla_num::{Memory, Number, Wide};
use cla_offsets::Offsets;
use cla_plain::Plain;
use cla_runs::Runs;
use std::alloc::Global;

/// A group of any kind (PVLDB 9(12), section 3). One code for each row comes in three widths.
#[derive(Drop)]
pub enum AnyGroup<N: Number> {
    Plain(Plain<N>),
    Codes1(Codes<N, 1>),
    Codes2(Codes<N, 2>),
    Codes4(Codes<N, 4>),
    Offsets(Offsets<N>),
    Runs(Runs<N>),
}

/// How many tuples one byte can name, and two.
const ONE_BYTE: usize = 1 << 8;

const TWO_BYTES: usize = 1 << 16;

macro_rules! each_kind {
    ($any:expr, $group:ident => $call:expr) => {
        match $any {
            AnyGroup::Plain($group) => $call,
            AnyGroup::Codes1($group) => $call,
            AnyGroup::Codes2($group) => $call,
            AnyGroup::Codes4($group) => $call,
            AnyGroup::Offsets($group) => $call,
            AnyGroup::Runs($group) => $call,
        }
    };
}

macro_rules! same_kind {
    ($any:expr, $group:ident => $call:expr) => {
        match $any {
            AnyGroup::Plain($group) => Ok(AnyGroup::Plain($call?)),
            AnyGroup::Codes1($group) => Ok(AnyGroup::Codes1($call?)),
            AnyGroup::Codes2($group) => Ok(AnyGroup::Codes2($call?)),
            AnyGroup::Codes4($group) => Ok(AnyGroup::Codes4($call?)),
            AnyGroup::Offsets($group) => Ok(AnyGroup::Offsets($call?)),
            AnyGroup::Runs($group) => Ok(AnyGroup::Runs($call?)),
        }
    };
}

impl<N: Number> AnyGroup<N> {
    /// The kind of the group.
    pub fn kind(&self) -> Kind
        ensures { result ≡ (any_form self.now).kind }
    {
        match self {
            AnyGroup::Plain(_) => Kind::Plain,
            AnyGroup::Codes1(_) | AnyGroup::Codes2(_) | AnyGroup::Codes4(_) => Kind::Codes,
            AnyGroup::Offsets(_) => Kind::Offsets,
            AnyGroup::Runs(_) => Kind::Runs,
        }
    }

    /// The group of this kind of rows with these codes. Its tuples stand one after the other, with
    /// `width` values each, and each of them is the code of some row. In a plain group row i gets code
    /// i, and the tuple of its code. Codes are kept in the fewest bytes that can name the tuples.
    pub fn from_codes(
        alloc: Global,
        kind: Kind,
        width: u32,
        codes: &[u32],
        values: Vec<N>,
    ) -> Result<AnyGroup<N>, Memory>
        requires { AreCodes width (length values.items / width) codes.now (length values.items) }
        ensures { let tuples = tuples_of width (length values.items / width) (map N.value values.items) in
            IfOk result (λ g. IsGroupFrom kind width codes.now tuples (any_form g) (any_columns g) (any_codes g)
            (any_dictionary g)) }
    {
        match kind {
            Kind::Plain => {
                let rows = values_in_order(alloc, width, codes, &values)?;
                Ok(AnyGroup::Plain(Plain::from_rows(width, rows)))
            }
            Kind::Codes => from_codes_of_rows(alloc, width, codes, values),
            Kind::Offsets => {
                let group = Offsets::from_codes(alloc, width, codes, values)?;
                Ok(AnyGroup::Offsets(group))
            }
            Kind::Runs => {
                let group = Runs::from_codes(alloc, width, codes, values)?;
                Ok(AnyGroup::Runs(group))
            }
        }
    }

    /// The group of one code for each row with these codes, whose bytes it takes over. They are the
    /// fewest that can name the tuples, which are as above.
    pub fn from_row_codes(
        alloc: Global,
        width: u32,
        codes: RowCodes,
        values: Vec<N>,
    ) -> Result<AnyGroup<N>, Memory>
        requires codes { AreCodes width (length values.items / width) codes.codes (length values.items) }
        requires fewest { codes.width ≡ least_code_bytes (length values.items / width) }
        ensures { let tuples = tuples_of width (length values.items / width) (map N.value values.items) in
            IfOk result (λ g. IsGroupFrom Kind.Codes width codes.codes tuples (any_form g) (any_columns g)
            (any_codes g) (any_dictionary g)) }
    {
        match codes.width() {
            1 => Ok(AnyGroup::Codes1(Codes::from_row_codes(alloc, width, codes, values)?)),
            2 => Ok(AnyGroup::Codes2(Codes::from_row_codes(alloc, width, codes, values)?)),
            _ => Ok(AnyGroup::Codes4(Codes::from_row_codes(alloc, width, codes, values)?)),
        }
    }
}

// The group of one code for each row, in the fewest bytes.
fn from_codes_of_rows<N: Number>(
    alloc: Global,
    width: u32,
    codes: &[u32],
    values: Vec<N>,
) -> Result<AnyGroup<N>, Memory>
    requires { AreCodes width (length values.items / width) codes.now (length values.items) }
    ensures { let tuples = tuples_of width (length values.items / width) (map N.value values.items) in
        IfOk result (λ g. IsGroupFrom Kind.Codes width codes.now tuples (any_form g) (any_columns g) (any_codes g)
        (any_dictionary g)) }
{
    let tuples = values.len() / width as usize;
    if tuples <= ONE_BYTE {
        Ok(AnyGroup::Codes1(Codes::from_codes(alloc, width, codes, values)?))
    } else if tuples <= TWO_BYTES {
        Ok(AnyGroup::Codes2(Codes::from_codes(alloc, width, codes, values)?))
    } else {
        Ok(AnyGroup::Codes4(Codes::from_codes(alloc, width, codes, values)?))
    }
}

impl<N: Number> Group<N> for AnyGroup<N> {
    ghost use Rattle.cla_coded.specs.AnyGroups.{any_law};

    ghost columns = { any_columns };

    ghost codes = { any_codes };

    ghost dictionary = { any_dictionary };

    fn rows(&self) -> u32 {
        each_kind!(self, group => group.rows())
    }

    fn width(&self) -> u32 {
        each_kind!(self, group => group.width())
    }

    fn tuples(&self) -> u32 {
        each_kind!(self, group => group.tuples())
    }

    fn value(&self, k: u32, c: u32) -> N {
        each_kind!(self, group => group.value(k, c))
    }

    fn occurrences(&self, k: u32) -> u32 {
        each_kind!(self, group => group.occurrences(k))
    }

    fn first_row(&self, k: u32) -> u32 {
        each_kind!(self, group => group.first_row(k))
    }

    fn code_at(&self, i: u32) -> u32 {
        each_kind!(self, group => group.code_at(i))
    }

    fn read_codes(&self, into: &mut [u32]) {
        each_kind!(self, group => group.read_codes(into))
    }

    fn scatter(&self, parts: &[Wide], into: &mut [Wide]) {
        each_kind!(self, group => group.scatter(parts, into))
    }

    fn scatter_least(&self, parts: &[Wide], into: &mut [Wide]) {
        each_kind!(self, group => group.scatter_least(parts, into))
    }

    fn scatter_greatest(&self, parts: &[Wide], into: &mut [Wide]) {
        each_kind!(self, group => group.scatter_greatest(parts, into))
    }

    fn gather(&self, rows: &[N], into: &mut [Wide]) {
        each_kind!(self, group => group.gather(rows, into))
    }

    ghost laws = { any_law };
}

/// A group that is made of another keeps its kind and the bytes of its codes. With other values or in
/// some columns it keeps the rest; of some rows the rest is found anew.
impl<N: Number> Owned<N> for AnyGroup<N> {
    fn slice_rows(&self, alloc: Global, a: u32, b: u32) -> Result<Self, Memory>
        requires some { a < b }
        requires within { b ≤ length (any_codes self.now) }
        ensures columns { IfOk result (λ g. any_columns g ≡ any_columns self.now) }
        ensures rows { let width = any_columns self.now in
            let codes = any_codes self.now in
            let tuples = any_dictionary self.now in
            IfOk result (λ g. AreRowsFrom a (b - a) width codes tuples (any_codes g) (any_dictionary g)) }
        ensures numbered { IfOk result (λ g. AreNumbered (any_codes g) (length (any_dictionary g))) }
        ensures form { let form = any_form self.now in
            IfOk result (λ g. any_form g ≡ form_cut form (any_codes g) (any_dictionary g)) }
    {
        same_kind!(self, group => group.slice_rows(alloc, a, b))
    }

    fn project(&self, alloc: Global, places: &[u32]) -> Result<Self, Memory>
        requires places { ArePlaces (any_columns self.now) places.now }
        ensures columns { IfOk result (λ g. any_columns g ≡ length places.now) }
        ensures codes { IfOk result (λ g. any_codes g ≡ any_codes self.now) }
        ensures dictionary { let tuples = map (projected places.now) (any_dictionary self.now) in
            IfOk result (λ g. any_dictionary g ≡ tuples) }
        ensures form { IfOk result (λ g. any_form g ≡ any_form self.now) }
    {
        same_kind!(self, group => group.project(alloc, places))
    }

    fn with_values(&self, alloc: Global, values: Vec<N>) -> Result<Self, Memory>
        requires whole { length values.items ≡ length (any_dictionary self.now) * any_columns self.now }
        ensures columns { IfOk result (λ g. any_columns g ≡ any_columns self.now) }
        ensures codes { IfOk result (λ g. any_codes g ≡ any_codes self.now) }
        ensures dictionary { let width = any_columns self.now in
            let tuples = tuples_of width (length (any_dictionary self.now)) (map N.value values.items) in
            IfOk result (λ g. any_dictionary g ≡ tuples) }
        ensures form { IfOk result (λ g. any_form g ≡ any_form self.now) }
    {
        same_kind!(self, group => group.with_values(alloc, values))
    }
}
