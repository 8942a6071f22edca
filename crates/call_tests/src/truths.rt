//! Truth values, and sets of them.

use crate::checks::{holds, same};
use filter_tree::{Mask, Test, Tri};
use std::process::Abort;

/// Two truth values, the result of AND, and the result of OR.
const TRUTHS: &[[Tri; 4]] = &[
    [Tri::True, Tri::True, Tri::True, Tri::True],
    [Tri::True, Tri::False, Tri::False, Tri::True],
    [Tri::True, Tri::Null, Tri::Null, Tri::True],
    [Tri::False, Tri::False, Tri::False, Tri::False],
    [Tri::False, Tri::Null, Tri::False, Tri::Null],
    [Tri::Null, Tri::Null, Tri::Null, Tri::Null],
];

/// Checks that AND and OR give these results for two truth values, in either order.
fn expect_joined(rt: &impl Abort, left: Tri, right: Tri, both: Tri, either: Tri) {
    same(rt, [left.and(right), right.and(left)], [both, both]);
    same(rt, [left.or(right), right.or(left)], [either, either]);
}

#[test]
fn connectives_follow_the_truth_tables(rt: HostRuntime) {
    for [left, right, both, either] in TRUTHS {
        expect_joined(&rt, *left, *right, *both, *either);
    }
}

#[test]
fn truth_values_are_turned(rt: HostRuntime) {
    use Tri::{False, Null, True};
    same(
        &rt,
        [True.not(), False.not(), Null.not()],
        [False, True, Null],
    );
    same(&rt, [Tri::from(true), Tri::from(false)], [True, False]);
}

/// The set of the truth values named by its letters.
fn set(letters: &str) -> Mask {
    Mask {
        truth: letters.contains('t'),
        falsity: letters.contains('f'),
        null: letters.contains('n'),
    }
}

/// Two sets, the result of AND, and the result of OR.
const CONNECTED: &[[&str; 4]] = &[
    ["n", "f", "f", "n"],
    ["n", "tf", "nf", "tn"],
    ["tn", "fn", "fn", "tn"],
    ["tf", "tf", "tf", "tf"],
    ["t", "n", "n", "t"],
    ["t", "", "", ""],
];

/// Checks that connecting two sets gives these results, in either order.
fn expect_connected(rt: &impl Abort, left: Mask, right: Mask, both: Mask, either: Mask) {
    same(rt, [left.and(right), right.and(left)], [both, both]);
    same(rt, [left.or(right), right.or(left)], [either, either]);
}

#[test]
fn sets_are_connected_member_by_member(rt: HostRuntime) {
    for [left, right, both, either] in CONNECTED {
        expect_connected(&rt, set(left), set(right), set(both), set(either));
    }
}

#[test]
fn sets_are_turned_member_by_member(rt: HostRuntime) {
    same(&rt, set("tn").not(), set("fn"));
    same(&rt, set("tn").is(Test::False), set("f"));
    same(&rt, set("n").is(Test::Unknown), set("t"));
    same(&rt, Mask::single(Tri::Null), set("n"));
    same(&rt, Mask::single(Tri::True), set("t"));
    holds(&rt, set("n").has(Tri::Null) && !set("n").has(Tri::False));
    same(&rt, Tri::Null.is(Test::Unknown), Tri::True);
}
