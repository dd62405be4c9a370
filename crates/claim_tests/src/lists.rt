//! Groups and clauses of small designs, worked out by hand.
use crate::designs::{JOINED, LONG};
use crate::wants::Row;
use crate::wants::Want::{Near, Tries};
use net_samples::Ask::{From, In, Multi, Out, To};
use net_samples::TWO;

// Level by level: own registers, those that feed them, those that feed these; within a level by number. Sixteen of eighteen are near.
pub const GROUPS: &[Row] = &[
    Row(JOINED, &[&[]], Near(&[0, 1, 2])),
    Row(JOINED, &[&[From(3), To(0)]], Near(&[0, 3, 1, 2])),
    Row(JOINED, &[&[In(0), To(3)]], Near(&[3, 1, 0, 2])),
    Row(JOINED, &[&[From(2), To(2)]], Near(&[2])),
    Row(JOINED, &[&[In(0), Out(0)]], Near(&[])),
    Row(
        LONG,
        &[&[In(0), To(17)]],
        Near(&[17, 16, 15, 14, 13, 12, 11, 10, 9, 8, 7, 6, 5, 4, 3, 2]),
    ),
];

const O: bool = false;

const I: bool = true;

// A multicycle of 1 judges no capture. The group of a claim from the input begins with register 1, so its values come first.
pub const TRIED: &[Row] = &[
    Row(TWO, &[&[Multi(1)]], Tries(&[])),
    Row(
        TWO,
        &[&[]],
        Tries(&[
            &[(0, O)],
            &[(0, I)],
            &[(1, O)],
            &[(1, I)],
            &[(0, O), (1, O)],
            &[(0, O), (1, I)],
            &[(0, I), (1, O)],
            &[(0, I), (1, I)],
        ]),
    ),
    Row(
        TWO,
        &[&[In(0)]],
        Tries(&[
            &[(1, O)],
            &[(1, I)],
            &[(0, O)],
            &[(0, I)],
            &[(0, O), (1, O)],
            &[(0, I), (1, O)],
            &[(0, O), (1, I)],
            &[(0, I), (1, I)],
        ]),
    ),
    Row(
        TWO,
        &[&[Multi(1)], &[], &[In(0)]],
        Tries(&[
            &[(0, O)],
            &[(0, I)],
            &[(1, O)],
            &[(1, I)],
            &[(0, O), (1, O)],
            &[(0, O), (1, I)],
            &[(0, I), (1, O)],
            &[(0, I), (1, I)],
        ]),
    ),
];
