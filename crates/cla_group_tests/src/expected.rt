//! What groups are expected to be, by rules of their own.

use cla_checked_tables::{Entry, group_of};
use cla_coded::AnyGroup;
use cla_group::Kind;
use std::alloc::Global;
use std::test::Fail;

/// What a group is expected to be: its width, the code of each row, and its tuples, one after the other.
#[derive(Drop)]
pub(crate) struct Expected {
    pub(crate) width: u32,
    pub(crate) tuples: u32,
    pub(crate) codes: Vec<u32>,
    pub(crate) values: Vec<i64>,
}

impl Expected {
    /// The group of these codes and values, so many tuples of which there are.
    pub(crate) fn of(
        alloc: Global,
        width: u32,
        tuples: u32,
        codes: &[u32],
        values: &[i64],
    ) -> Result<Expected, Fail> {
        Ok(Expected {
            width,
            tuples,
            codes: Vec::from_slice(alloc, codes)?,
            values: Vec::from_slice(alloc, values)?,
        })
    }

    /// So many rows and tuples: row i has the code that [`turn`] gives, and value c of tuple k is
    /// 10 * k + c + `least`.
    pub(crate) fn in_turn(
        alloc: Global,
        width: u32,
        rows: u32,
        run: u32,
        tuples: u32,
        least: i32,
    ) -> Result<Expected, Fail> {
        let mut codes = Vec::with_capacity(alloc, rows as usize)?;
        for i in 0..rows {
            codes.push(turn(i, run, tuples))?;
        }
        let values = values_from(alloc, width, tuples, least)?;
        Ok(Expected {
            width,
            tuples,
            codes,
            values,
        })
    }

    /// The last of so many rows alone has value 5, and the others have value 0.
    pub(crate) fn last_alone(alloc: Global, rows: u32) -> Result<Expected, Fail> {
        if rows < 2 {
            return Expected::of(alloc, 1, 1, &[0], &[5]);
        }
        let mut codes = vec![in alloc; 0; rows as usize - 1]?;
        codes.push(1)?;
        Expected::of(alloc, 1, 2, &codes, &[0, 5])
    }

    /// Value c of tuple k.
    pub(crate) fn value(&self, k: u32, c: u32) -> Result<i64, Fail> {
        let place = k as usize * self.width as usize + c as usize;
        Ok(*self.values.get(place).ok_or("a value")?)
    }

    /// The code of row i.
    pub(crate) fn code(&self, i: u32) -> Result<u32, Fail> {
        Ok(*self.codes.get(i as usize).ok_or("a row")?)
    }

    /// A group of this kind.
    pub(crate) fn group(&self, alloc: Global, kind: Kind) -> Result<AnyGroup<Entry>, Fail> {
        group_of(alloc, kind, self.width, &self.codes, &self.values)
    }

    /// What a group of this kind keeps: a plain one has a tuple of its own for each row.
    pub(crate) fn kept_as(self, alloc: Global, kind: Kind) -> Result<Expected, Fail> {
        if kind != Kind::Plain {
            return Ok(self);
        }
        let rows = u32::try_from(self.codes.len())?;
        let mut codes = Vec::new(alloc);
        let mut values = Vec::new(alloc);
        for i in 0..rows {
            codes.push(i)?;
            self.push_tuple(self.code(i)?, &mut values)?;
        }
        Ok(Expected {
            width: self.width,
            tuples: rows,
            codes,
            values,
        })
    }

    // Appends tuple k.
    fn push_tuple(&self, k: u32, values: &mut Vec<i64>) -> Result<(), Fail> {
        for c in 0..self.width {
            values.push(self.value(k, c)?)?;
        }
        Ok(())
    }

    /// The rows from row a to before row b, whose codes are numbered by first row.
    pub(crate) fn between(&self, alloc: Global, a: u32, b: u32) -> Result<Expected, Fail> {
        let mut names = vec![in alloc; None; self.tuples as usize]?;
        let mut codes = Vec::new(alloc);
        let mut values = Vec::new(alloc);
        let mut tuples = 0u32;
        for i in a..b {
            let old = self.code(i)?;
            if old as usize >= names.len() {
                return Err(Fail::new("no tuple"));
            }
            if names[old as usize].is_none() {
                names[old as usize] = Some(tuples);
                tuples = tuples.saturating_add(1);
                self.push_tuple(old, &mut values)?;
            }
            codes.push(names[old as usize].unwrap_or(0))?;
        }
        Ok(Expected {
            width: self.width,
            tuples,
            codes,
            values,
        })
    }

    /// The same codes; each tuple keeps its value in this place.
    pub(crate) fn in_place(&self, alloc: Global, place: u32) -> Result<Expected, Fail> {
        let mut values = Vec::new(alloc);
        for k in 0..self.tuples {
            values.push(self.value(k, place)?)?;
        }
        Expected::of(alloc, 1, self.tuples, &self.codes, &values)
    }

    /// The same codes; value c of tuple k is 10 * k + c + `least`.
    pub(crate) fn with_values_from(&self, alloc: Global, least: i32) -> Result<Expected, Fail> {
        let values = values_from(alloc, self.width, self.tuples, least)?;
        Expected::of(alloc, self.width, self.tuples, &self.codes, &values)
    }
}

/// The code of row i, where runs of so many rows have the codes in turn.
pub(crate) fn turn(i: u32, run: u32, tuples: u32) -> u32 {
    let number = i.checked_div(run).unwrap_or(0);
    number.checked_rem(tuples).unwrap_or(0)
}

/// Value c of tuple k.
pub(crate) fn value_from(k: u32, c: u32, least: i32) -> i64 {
    10 * i64::from(k) + i64::from(c) + i64::from(least)
}

// The values of so many tuples.
fn values_from(alloc: Global, width: u32, tuples: u32, least: i32) -> Result<Vec<i64>, Fail> {
    let mut values = Vec::new(alloc);
    for k in 0..tuples {
        for c in 0..width {
            values.push(value_from(k, c, least))?;
        }
    }
    Ok(values)
}
