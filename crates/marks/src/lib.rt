// The marks of a line over the node table: whether a term is a statement (01, section 5), and whether a clause is unreachable (02, No. 6).
#![tactic(auto)]

ghost use Rattle.std.specs.Prelude.{◌≡◌, List, ℕ, ◌+◌, ◌≤◌, ◌<◌, length};
ghost use Rattle.std.proofs.Math.Seq.{slice};
ghost use Rattle.integer.specs.Integers.{Within};
ghost use Rattle.calculus.specs.Sums.{max_summands};
ghost use Rattle.calculus.specs.Truth.{is_arithmetic, are_arithmetic, is_statement, are_statements};
ghost use Rattle.calculus.specs.Words.{max_numeral};
ghost use Rattle.nodes.specs.Nodes.{plus_kind, kind_at, decode, Node};
ghost use Rattle.matching.specs.Matched.{AllNodes};
ghost use Rattle.matching.specs.Places.{placed};
ghost use Rattle.sums.specs.Lists.{Bounded, max_total};
ghost use Rattle.sums.specs.Places.{left_at, Room, Keyed};
ghost use Rattle.marks.specs.Arguments.{arguments_at};
ghost use Rattle.marks.specs.Values.{GreatestAtIs, GreatestIs, ReachIs, OtherIs, ReachedIs, UnreachableIs};

use matching::{AND, EQ, GE, MAX_SUMMANDS};
use nodes::PLUS_KIND;
use sums::{LEFT, find, lone_constant, read_summand, unwrap_pseudoboolean_inequality};

// ---- arithmetic
// Whether node i, an application, is one of `+ - *` over arithmetic.
#[cycle(are_arithmetic_is_arithmetic)]
fn is_arithmetic(nodes: &[u32], i: u32) -> bool
    requires { Node nodes.now i × (kind_at nodes.now i < plus_kind) }
    ensures { (s : List ℕ) → result ≡ is_arithmetic (decode s nodes.now i) }
{
    let at = nodes::wide(i);
    if nodes::kind_of(nodes, at) >= GE {
        return false;
    }
    let from = nodes::child_base(nodes) + nodes::first_of(nodes, at);
    are_arithmetic(nodes, from, from + nodes::second_of(nodes, at))
}

// Whether each node of the words from..to is arithmetic: a leaf is, and is not asked by a call.
#[cycle(are_arithmetic_is_arithmetic)]
fn are_arithmetic(nodes: &[u32], from: usize, to: usize) -> bool
    requires { (to ≤ length nodes.now) × AllNodes nodes.now (slice from to nodes.now) }
    ensures { (s : List ℕ) → result ≡ are_arithmetic (arguments_at s nodes.now (slice from to nodes.now)) }
{
    for k in from..to {
        let i = nodes[k];
        if nodes::kind_of(nodes, nodes::wide(i)) < PLUS_KIND {
            if !is_arithmetic(nodes, i) {
                return false;
            }
        }
    }
    true
}

// ---- statements
// Whether node i is a two-argument relation of arithmetic, `and` of statements, or `=` of two statements.
#[cycle(are_statements_is_statement)]
pub fn is_statement(nodes: &[u32], i: u32) -> bool
    requires { Node nodes.now i }
    ensures { (s : List ℕ) → result ≡ is_statement (decode s nodes.now i) }
{
    let at = nodes::wide(i);
    let kind = nodes::kind_of(nodes, at);
    if kind < GE {
        return false;
    }
    if kind >= PLUS_KIND {
        return false;
    }
    let args = nodes::children(nodes, at);
    if kind == AND {
        return are_statements(nodes, args);
    }
    if args.len() != 2 {
        return false;
    }
    let from = nodes::child_base(nodes) + nodes::first_of(nodes, at);
    if are_arithmetic(nodes, from, from + 2) {
        return true;
    }
    if kind != EQ {
        return false;
    }
    are_statements(nodes, args)
}

// Whether each of the arguments is a statement.
#[cycle(are_statements_is_statement)]
fn are_statements(nodes: &[u32], args: &[u32]) -> bool
    requires { AllNodes nodes.now args.now }
    ensures { (s : List ℕ) → result ≡ are_statements (arguments_at s nodes.now args.now) }
{
    for arg in args {
        if !is_statement(nodes, *arg) {
            return false;
        }
    }
    true
}

// ---- the greatest value of a sum
// What entry i adds to it: the larger of its coefficient and that of the opposite literal, 0 where there is none; of two it is counted at the plain one.
fn greatest_at(
    nodes: &[u32],
    coeffs: &[i64],
    keys: &[u32],
    slots: &[u16],
    at: usize,
    n: usize,
    i: usize,
) -> i64
    requires keyed { Keyed nodes.now at keys.now slots.now n × (at + n ≤ length coeffs.now) × (i < n) }
    requires bounded { Bounded max_total (placed at coeffs.now) n }
    ensures { GreatestAtIs nodes.now (placed at coeffs.now) (placed at keys.now) n i result }
{
    let key = keys[at + i];
    let a = coeffs[at + i];
    let j = find(nodes, keys, slots, at, n, matching::opposite(key));
    if j >= n {
        return integer::larger(a, 0);
    }
    if matching::negated_of(key) {
        return 0;
    }
    let b = coeffs[at + j];
    integer::larger(a, b)
}

// The greatest value, over all 0-1 assignments, of the n entries at a place.
fn greatest(nodes: &[u32], coeffs: &[i64], keys: &[u32], slots: &[u16], at: usize, n: usize) -> i64
    requires keyed { Keyed nodes.now at keys.now slots.now n × (at + n ≤ length coeffs.now) × (n ≤ max_summands) }
    requires bounded { Bounded max_total (placed at coeffs.now) n }
    ensures { GreatestIs nodes.now (placed at coeffs.now) (placed at keys.now) n result }
{
    let mut value = 0;
    for i in 0..n {
        value = integer::add(value, greatest_at(nodes, coeffs, keys, slots, at, n, i));
    }
    value
}

// ---- lines within reach
// The values of a sum where each name is 1, and where each is 0.
#[derive(Clone, Copy)]
pub struct Ends {
    pub ones: i64,
    pub zeros: i64,
}

// Whether the terms ts, no lone numeral, are no sum, or one that is at least the constant where each name is 1, or where each is 0.
fn reach(nodes: &[u32], ts: &[u32], constant: i64) -> bool
    requires all_nodes { AllNodes nodes.now ts.now × (length ts.now ≤ max_summands) }
    requires within { Within max_numeral constant }
    ensures { ReachIs nodes.now ts.now constant result }
{
    let mut ends = Ends { ones: 0, zeros: 0 };
    for t in ts {
        let Ok((key, c)) = read_summand(nodes, *t) else {
            return true;
        };
        if matching::negated_of(key) {
            ends.zeros = integer::add(ends.zeros, c);
        } else {
            ends.ones = integer::add(ends.ones, c);
        }
    }
    if integer::at_most(constant, ends.ones) {
        return true;
    }
    integer::at_most(constant, ends.zeros)
}

// Whether the terms ts, no lone numeral, are no sum over names: a sum over other terms is not made, since their keys are found by walking.
fn other_terms(nodes: &[u32], ts: &[u32]) -> bool
    requires { AllNodes nodes.now ts.now }
    ensures { OtherIs nodes.now ts.now result }
{
    for t in ts {
        let Ok((key, _)) = read_summand(nodes, *t) else {
            return true;
        };
        if !matching::is_name(nodes, matching::variable_of(key)) {
            return true;
        }
    }
    false
}

// Whether node i is no inequality over names, or one that is true where each name is 1, or where each is 0: most lines are, and no sum has to be made of them.
fn reached(nodes: &[u32], i: u32) -> bool
    requires { Node nodes.now i }
    ensures { ReachedIs nodes.now i result }
{
    let Some((pbsum, constant)) = matching::binary(nodes, GE, i) else {
        return true;
    };
    let Some(z) = matching::as_constant(nodes, constant) else {
        return true;
    };
    let one = [pbsum; 1];
    let ts = matching::split_summation(nodes, &one, pbsum);
    if ts.len() > MAX_SUMMANDS {
        return true;
    }
    match lone_constant(nodes, ts) {
        Some(_) => false,
        None => reach(nodes, ts, z) || other_terms(nodes, ts),
    }
}

// ---- unreachable clauses
// Whether a clause is one inequality over names with greatest value below its constant.
pub fn unreachable(
    nodes: &[u32],
    clause: &[u32],
    coeffs: &mut [i64],
    keys: &mut [u32],
    slots: &mut [u16],
) -> bool
    requires all_nodes { AllNodes nodes.now clause.now }
    requires room { Room nodes.now left_at coeffs.old keys.old slots.old }
    ensures { UnreachableIs nodes.now clause.now result }
{
    if clause.len() != 1 {
        return false;
    }
    let i = clause[0];
    if reached(nodes, i) {
        return false;
    }
    let Ok(read) = unwrap_pseudoboolean_inequality(nodes, i, coeffs, keys, slots, LEFT) else {
        return false;
    };
    if !matching::all_names(nodes, keys, LEFT, read.count) {
        return false;
    }
    let value = greatest(nodes, coeffs, keys, slots, LEFT, read.count);
    integer::less(value, read.constant)
}
