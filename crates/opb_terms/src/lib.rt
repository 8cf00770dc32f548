// The makers of an OPB constraint's nodes: the assumption that it becomes, in the node table (02, No. 1).
#![tactic(auto)]

ghost use Rattle.std.specs.Prelude.{◌≡◌, [], ◌∷◌, ◌+◌, ◌≤◌, ◌<◌, length};
ghost use Rattle.std.proofs.Math.Seq.{slice, paste};
ghost use Rattle.integer.specs.Integers.{signed};
ghost use Rattle.calculus.specs.OpbWriting.{times};
ghost use Rattle.nodes.specs.Nodes.{capacity, max_capacity, child_base};
ghost use Rattle.opb.specs.Counts.{negations, sum_nodes, inequality_nodes};
ghost use Rattle.opb.specs.Summands.{max_summands, summand_words, literal_over, summand_at, summands_of, SummandIn};
ghost use Rattle.opb_terms.specs.Making.{turned_summand, Numeral, SignIs, literal_nodes, summand_nodes, negated_at, product_nodes, NameIn, Ready, Making, binary, TermPut, words_behind, literal_term, summand_term, ProductsPut, SumPut, InequalityPut};

use matching::{ADD, GE, MUL, SUB};
use nodes::{child_base, put_children, put_node, wide};
use terms::{put_numeral, put_variable};

// Writes node i as child word c, where child words begin at word base.
fn put_child(nodes: &mut [u32], c: usize, i: usize, base: usize)
    requires { (capacity nodes.old ≤ max_capacity) × (c < capacity nodes.old) × (i < capacity nodes.old) × (base ≡ child_base nodes.old) }
    ensures { nodes.new ≡ paste nodes.old (child_base nodes.old + c) (i ∷ []) 1 }
{
    nodes[base + c] = i as u32;
}

// Writes node m, the operator over the nodes a and b, which become child words d and d + 1.
fn put_binary(nodes: &mut [u32], m: usize, d: usize, operator: u32, a: usize, b: usize, base: usize)
    requires { (capacity nodes.old ≤ max_capacity) × (m < capacity nodes.old) × (d + 2 ≤ capacity nodes.old) × (a < capacity nodes.old) × (b < capacity nodes.old) × (base ≡ child_base nodes.old) }
    ensures { nodes.new ≡ binary nodes.old m d operator a b }
{
    let k = base + d;
    nodes[k] = a as u32;
    nodes[k + 1] = b as u32;
    put_node(nodes, m, operator, d as u32, 2);
}

// Writes a literal over the variable from..to: its node, or where negated `(- 1 v)`; the nodes in use then.
fn put_literal(
    text: &[u8],
    nodes: &mut [u32],
    names: &mut [u16],
    n: usize,
    c: usize,
    negated: bool,
    from: usize,
    to: usize,
    base: usize,
) -> usize
    requires { Ready text.now nodes.old names.old n c (literal_nodes negated) × NameIn text.now from to × (base ≡ child_base nodes.old) }
    ensures { (result ≡ n + literal_nodes negated) × TermPut text.now nodes.old nodes.new names.new n c result (words_behind n c result) (literal_term (literal_over negated (slice from to text.now))) }
{
    if negated {
        put_numeral(nodes, n, false, 1);
        put_variable(text, nodes, names, n + 1, from, to);
        put_binary(nodes, n + 2, c, SUB, n, n + 1, base);
        return n + 3;
    }
    put_variable(text, nodes, names, n, from, to);
    n + 1
}

// Writes `(* k v)`; the nodes in use then.
fn put_summand(
    text: &[u8],
    nodes: &mut [u32],
    names: &mut [u16],
    n: usize,
    c: usize,
    negative: bool,
    magnitude: u32,
    negated: bool,
    from: usize,
    to: usize,
    base: usize,
) -> usize
    requires { Ready text.now nodes.old names.old n c (summand_nodes negated) × Numeral negative magnitude × NameIn text.now from to × (base ≡ child_base nodes.old) }
    ensures { (result ≡ n + summand_nodes negated) × TermPut text.now nodes.old nodes.new names.new n c result (words_behind n c result) (summand_term (times (signed negative magnitude) (literal_over negated (slice from to text.now)))) }
{
    put_numeral(nodes, n, negative, magnitude);
    let m = put_literal(text, nodes, names, n + 1, c, negated, from, to, base);
    put_binary(nodes, m, c + (m - n) - 2, MUL, n, m - 1, base);
    m + 1
}

// The sign of a numeral, turned where asked: 0 stays plus.
fn sign(turned: bool, negative: bool, magnitude: u32) -> bool
    requires { Numeral negative magnitude }
    ensures { SignIs turned negative magnitude result }
{
    if turned {
        if negative {
            return false;
        }
        return magnitude != 0;
    }
    negative
}

// Writes summand i of the words, its sign turned where asked; the nodes in use then.
fn put_product(
    text: &[u8],
    summands: &[u32],
    i: usize,
    turned: bool,
    nodes: &mut [u32],
    names: &mut [u16],
    n: usize,
    c: usize,
    base: usize,
) -> usize
    requires { (summand_words ≤ length summands.now) × (i < max_summands) × SummandIn text.now summands.now i × Ready text.now nodes.old names.old n c (summand_nodes (negated_at summands.now i)) × (base ≡ child_base nodes.old) }
    ensures { (result ≡ n + summand_nodes (negated_at summands.now i)) × TermPut text.now nodes.old nodes.new names.new n c result (words_behind n c result) (summand_term (turned_summand turned (summand_at text.now summands.now i))) }
{
    let k = 5 * i;
    let magnitude = summands[k + 1];
    let negative = sign(turned, summands[k] == 1, magnitude);
    let negated = summands[k + 2] == 1;
    let from = wide(summands[k + 3]);
    let to = wide(summands[k + 4]);
    put_summand(
        text, nodes, names, n, c, negative, magnitude, negated, from, to, base,
    )
}

// Writes the summands one by one; their nodes are pending. The nodes in use then.
fn put_products(
    text: &[u8],
    summands: &[u32],
    count: usize,
    turned: bool,
    nodes: &mut [u32],
    pending: &mut [u16],
    names: &mut [u16],
    n: usize,
    c: usize,
) -> usize
    requires { Making text.now summands.now nodes.old pending.old names.old count n c (product_nodes text.now summands.now count) }
    ensures { ProductsPut text.now summands.now nodes.old nodes.new pending.new names.new turned count n c result }
{
    let base = child_base(nodes);
    let mut m = n;
    for i in 0..count {
        m = put_product(
            text,
            summands,
            i,
            turned,
            nodes,
            names,
            m,
            c + (m - n) - i,
            base,
        );
        pending[i] = (m - 1) as u16;
    }
    m
}

// Writes the sum: of several summands `(+ ..)`, of one the bare `(* k v)`, of none 0. The nodes in use then.
fn put_sum(
    text: &[u8],
    summands: &[u32],
    count: usize,
    turned: bool,
    nodes: &mut [u32],
    pending: &mut [u16],
    names: &mut [u16],
    n: usize,
    c: usize,
) -> usize
    requires { Making text.now summands.now nodes.old pending.old names.old count n c (sum_nodes count (negations (summands_of text.now summands.now count))) }
    ensures { SumPut text.now summands.now nodes.old nodes.new names.new turned count n c result }
{
    if count == 0 {
        put_numeral(nodes, n, false, 0);
        return n + 1;
    }
    let m = put_products(text, summands, count, turned, nodes, pending, names, n, c);
    if count == 1 {
        return m;
    }
    let d = c + (m - n) - count;
    put_children(nodes, pending, 0, count, d);
    put_node(nodes, m, ADD, d as u32, count as u32);
    m + 1
}

// Writes the assumption of the summands and their constant, all signs turned where asked, and its node as a child word; the nodes in use then.
pub fn put_inequality(
    text: &[u8],
    summands: &[u32],
    count: usize,
    turned: bool,
    negative: bool,
    magnitude: u32,
    nodes: &mut [u32],
    pending: &mut [u16],
    names: &mut [u16],
    n: usize,
    c: usize,
) -> usize
    requires { Making text.now summands.now nodes.old pending.old names.old count n c (inequality_nodes count (negations (summands_of text.now summands.now count))) × Numeral negative magnitude }
    ensures { InequalityPut text.now summands.now nodes.old nodes.new names.new turned count (signed negative magnitude) n c result }
{
    let m = put_sum(text, summands, count, turned, nodes, pending, names, n, c);
    let d = c + (m - n) - 1;
    let minus = sign(turned, negative, magnitude);
    let base = child_base(nodes);
    put_numeral(nodes, m, minus, magnitude);
    put_binary(nodes, m + 1, d, GE, m - 1, m, base);
    put_child(nodes, d + 2, m + 1, base);
    m + 2
}
