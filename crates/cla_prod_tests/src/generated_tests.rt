//! Each product over generated matrices of up to 5 rows, columns and inner columns, in groups of each kind,
//! plain and flipped, beside a slow product. Some entries are at the ends of the range, so some products
//! aren't in it.

use crate::generated::{Generated, slow_product};
use crate::products::{Due, left_is, product_is, right_is, self_product_is};
use std::alloc::Global;
use std::test::Fail;

// The products of two matrices, of which one or both are tables.
fn products_are(alloc: Global, a: Generated, b: Generated, due: Due) -> Result<(), Fail> {
    right_is(alloc, a.table(alloc)?, b.dense(alloc)?, due)?;
    left_is(alloc, a.dense(alloc)?, b.table(alloc)?, due)?;
    product_is(alloc, a.table(alloc)?, b.table(alloc)?, due)
}

// The same, in groups of each kind.
fn products(alloc: Global, a: Generated, b: Generated) -> Result<(), Fail> {
    let slow = slow_product(alloc, a, b)?;
    for first in 0..4usize {
        let a = Generated { first, ..a };
        let b = Generated {
            first: 3 - first,
            ..b
        };
        products_are(alloc, a, b, slow.due())?;
    }
    Ok(())
}

// The products of matrices of these shapes, each flipped and not.
fn products_of_shape(alloc: Global, rows: u32, inner: u32, cols: u32) -> Result<(), Fail> {
    for flips in 0..4u32 {
        let seed = rows.wrapping_mul(7).wrapping_add(cols).wrapping_add(flips);
        let a = Generated {
            seed,
            rows,
            cols: inner,
            flipped: flips % 2 == 1,
            groups: inner % 3 + 1,
            first: 0,
        };
        let b = Generated {
            seed: seed.wrapping_mul(3).wrapping_add(inner),
            rows: inner,
            cols,
            flipped: flips > 1,
            ..a
        };
        products(alloc, a, b)?;
    }
    Ok(())
}

#[test]
fn products_of_each_shape(rt: HostRuntime) -> Result<(), Fail> {
    for rows in 1..6u32 {
        for inner in 1..6u32 {
            for cols in 1..6u32 {
                products_of_shape(rt.alloc(), rows, inner, cols)?;
            }
        }
    }
    Ok(())
}

// The products of a matrix's transpose and the matrix.
fn squares(alloc: Global, x: Generated) -> Result<(), Fail> {
    let slow = slow_product(alloc, x.transposed(), x)?;
    for first in 0..4usize {
        for groups in 1..4u32 {
            let x = Generated { groups, first, ..x };
            self_product_is(alloc, x.table(alloc)?, slow.due())?;
        }
    }
    Ok(())
}

#[test]
fn squares_of_each_shape(rt: HostRuntime) -> Result<(), Fail> {
    for rows in 1..6u32 {
        for cols in 1..6u32 {
            for seed in 0..6u32 {
                let x = Generated {
                    seed,
                    rows,
                    cols,
                    flipped: false,
                    groups: 1,
                    first: 0,
                };
                squares(rt.alloc(), x)?;
            }
        }
    }
    Ok(())
}
