//! Kept clauses, beside those worked out by hand.
use crate::designs::{AFTER_7, COPIES, HELD_PARITY, RING, RISING};
use crate::wants::Row;
use crate::wants::Want::Keeps;
use net_samples::Ask::{From, Multi, To};
use net_samples::Lits;

const MUCH: u64 = 20_000;

const O: bool = false;

const I: bool = true;

// What holds of two registers that are both 0.
const BOTH_0: &[Lits] = &[
    &[(0, O)],
    &[(1, O)],
    &[(0, O), (1, O)],
    &[(0, O), (1, I)],
    &[(0, I), (1, O)],
];

pub const KEPT: &[Row] = &[
    // At most one register of the ring is 1; each clause needs another.
    Row(
        RING,
        &[&[Multi(2)]],
        Keeps(
            1,
            MUCH,
            &[&[(2, O), (3, O)], &[(2, O), (4, O)], &[(3, O), (4, O)]],
            &[],
        ),
    ),
    Row(RING, &[&[Multi(2)]], Keeps(0, MUCH, &[], &[])),
    // Two registers are 0, each since the other is.
    Row(COPIES, &[&[]], Keeps(1, MUCH, BOTH_0, &[])),
    Row(COPIES, &[&[]], Keeps(2, MUCH, BOTH_0, &[])),
    // That register 1 is 0 holds in the first two live cycles, and not in the third.
    Row(RISING, &[&[]], Keeps(1, MUCH, &[&[(0, I), (1, O)]], &[])),
    Row(RISING, &[&[]], Keeps(2, MUCH, &[&[(0, I), (1, O)]], &[])),
    // That register 2 is 0 takes two cycles before, since a 7 would have none before it.
    Row(
        AFTER_7,
        &[&[From(2), To(2)]],
        Keeps(
            1,
            MUCH,
            &[&[(2, O), (3, O)], &[(2, O), (4, O)], &[(2, O), (5, O)]],
            &[],
        ),
    ),
    Row(
        AFTER_7,
        &[&[From(2), To(2)]],
        Keeps(
            2,
            MUCH,
            &[
                &[(2, O)],
                &[(2, O), (3, O)],
                &[(2, O), (3, I)],
                &[(2, O), (4, O)],
                &[(2, O), (4, I)],
                &[(2, O), (5, O)],
                &[(2, O), (5, I)],
            ],
            &[],
        ),
    ),
    // A parity takes more than one clause. The others need those that are left out.
    Row(HELD_PARITY, &[&[]], Keeps(1, MUCH, BOTH_0, &[])),
    Row(
        HELD_PARITY,
        &[&[]],
        Keeps(
            1,
            1,
            &[],
            &[&[(0, O)], &[(0, O), (1, O)], &[(0, O), (1, I)]],
        ),
    ),
];
