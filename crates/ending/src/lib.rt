// The end of a pol line (02, No. 2): of the one entry of its stack zeros are left out, names are put in byte order, and what is left becomes the words
// of summands. The entries are put together at the beginning of the arrays, where the first premise of a rule stands.
#![tactic(auto)]

ghost use Rattle.std.specs.Prelude.{◌≡◌, ◌+◌, ◌^◌, ◌≤◌, ◌<◌, pos, nat_abs, length};
ghost use Rattle.std.proofs.Math.Seq.{slice};
ghost use Rattle.integer.specs.Integers.{Within};
ghost use Rattle.calculus.specs.Pol.{max_literals, name_before, lit_before};
ghost use Rattle.calculus.specs.Words.{max_numeral};
ghost use Rattle.nodes.specs.Nodes.{decode};
ghost use Rattle.matching.specs.Matched.{lit_at};
ghost use Rattle.opb.specs.Summands.{summand_words};
ghost use Rattle.pol.specs.Stack.{stack_words, window, count_of, Stack};
ghost use Rattle.ending.specs.Ending.{Spelled, Gathered, InText, Near, EntryIn, PutIs, Behind, Nonzeros, Swapped, InPlace, Ordered, words_put, Written, Finished};

use pol::{LITERALS, STACK};

// ---- the order
// Whether the bytes of a text from a to b stand before those from c to d in byte order.
fn name_before(text: &[u8], a: usize, b: usize, c: usize, d: usize) -> bool
    requires { (a ≤ b) × (b ≤ length text.now) × (c ≤ d) × (d ≤ length text.now) }
    ensures { result ≡ name_before (slice a b text.now) (slice c d text.now) }
{
    let mut i = a;
    for j in c..d {
        if i == b {
            return true;
        }
        let x = text[i];
        let y = text[j];
        if x != y {
            return x < y;
        }
        i += 1;
    }
    false
}

// Whether the literal of key k stands before that of key l: names in byte order, plain before negated.
fn lit_before(text: &[u8], nodes: &[u32], k: u32, l: u32) -> bool
    requires { Spelled text.now nodes.now k l }
    ensures { result ≡ lit_before (lit_at (decode text.now nodes.now) k) (lit_at (decode text.now nodes.now) l) }
{
    let v = nodes::wide(matching::variable_of(k));
    let w = nodes::wide(matching::variable_of(l));
    if v == w {
        return k < l;
    }
    let a = nodes::first_of(nodes, v);
    let b = nodes::second_of(nodes, v);
    let c = nodes::first_of(nodes, w);
    let d = nodes::second_of(nodes, w);
    name_before(text, a, b, c, d)
}

// ---- zeros
// Makes entry r the one with this coefficient and this key, unless the coefficient is 0; how many entries there are then.
fn keep_nonzero(coeffs: &mut [i64], keys: &mut [u32], r: usize, c: i64, key: u32) -> usize
    requires { (r < max_literals) × (stack_words ≤ length coeffs.old) × (stack_words ≤ length keys.old) }
    ensures { PutIs coeffs.old keys.old r c key coeffs.new keys.new result }
{
    if integer::is_zero(c) {
        return r;
    }
    coeffs[r] = c;
    keys[r] = key;
    r + 1
}

// Copies what is not 0 of the stack's one entry to the beginning of the arrays; how many entries there are.
fn nonzero(coeffs: &mut [i64], keys: &mut [u32]) -> usize
    requires { (count_of (window 0 keys.old) ≤ max_literals) × (stack_words ≤ length coeffs.old) × (stack_words ≤ length keys.old) }
    ensures { Nonzeros (window 0 coeffs.old) (window 0 keys.old) coeffs.new keys.new result × Behind max_literals coeffs.old keys.old coeffs.new keys.new }
{
    let n = nodes::wide(keys[STACK + LITERALS]);
    let mut r = 0;
    for i in 0..n {
        let c = coeffs[STACK + i];
        let key = keys[STACK + i];
        r = keep_nonzero(coeffs, keys, r, c, key);
    }
    r
}

// ---- in order
// Exchanges entry j and the next one.
fn swap(coeffs: &mut [i64], keys: &mut [u32], j: usize)
    requires { (j < max_literals) × (stack_words ≤ length coeffs.old) × (stack_words ≤ length keys.old) }
    ensures { Swapped (pos 0) coeffs.old coeffs.new j × Swapped 0 keys.old keys.new j }
{
    let c = coeffs[j];
    let d = coeffs[j + 1];
    let k = keys[j];
    let l = keys[j + 1];
    coeffs[j] = d;
    coeffs[j + 1] = c;
    keys[j] = l;
    keys[j + 1] = k;
}

// Puts entry i into its place among the entries i + 1 to r, which are in order.
fn put_in_order(
    text: &[u8],
    nodes: &[u32],
    coeffs: &mut [i64],
    keys: &mut [u32],
    i: usize,
    r: usize,
)
    requires { Gathered nodes.now coeffs.old keys.old r × InText text.now nodes.now keys.old r × (i < r) }
    ensures { InPlace text.now nodes.now coeffs.old keys.old i r coeffs.new keys.new }
{
    for j in i..r - 1 {
        let k = keys[j];
        let l = keys[j + 1];
        if lit_before(text, nodes, k, l) {
            return;
        }
        swap(coeffs, keys, j);
    }
}

// Puts the first r entries in order, from the last on.
fn order(text: &[u8], nodes: &[u32], coeffs: &mut [i64], keys: &mut [u32], r: usize)
    requires { Gathered nodes.now coeffs.old keys.old r × InText text.now nodes.now keys.old r }
    ensures { Ordered text.now nodes.now coeffs.old keys.old r coeffs.new keys.new }
{
    for i in (0..r).rev() {
        put_in_order(text, nodes, coeffs, keys, i, r);
    }
}

// ---- the words of summands
// The magnitude of a numeral.
pub fn magnitude(z: i64) -> u32
    requires { Within max_numeral z }
    ensures { result ≡ nat_abs z }
{
    if z < 0 { (-z) as u32 } else { z as u32 }
}

// Writes entry q as summand q.
fn put_summand(nodes: &[u32], coeffs: &[i64], keys: &[u32], summands: &mut [u32], q: usize)
    requires { Gathered nodes.now coeffs.now keys.now (q + 1) × Near nodes.now keys.now (q + 1) × (summand_words ≤ length summands.old) }
    ensures { summands.new ≡ words_put nodes.now coeffs.now keys.now q summands.old }
{
    let c = coeffs[q];
    let key = keys[q];
    let v = nodes::wide(matching::variable_of(key));
    let minus = integer::less(c, 0);
    let size = magnitude(c);
    let bar = matching::negated_of(key);
    let a = nodes::first_of(nodes, v);
    let b = nodes::second_of(nodes, v);
    opb::store_summand(summands, q, minus, size, bar, a, b);
}

// Writes the first r entries as summands.
fn put_words(nodes: &[u32], coeffs: &[i64], keys: &[u32], summands: &mut [u32], r: usize)
    requires { Gathered nodes.now coeffs.now keys.now r × Near nodes.now keys.now r × (summand_words ≤ length summands.old) }
    ensures { Written nodes.now coeffs.now keys.now r summands.new }
{
    for q in 0..r {
        put_summand(nodes, coeffs, keys, summands, q);
    }
}

// Writes the one entry of the stack, without zeros and in order, as summands; how many they are.
pub fn finish(
    text: &[u8],
    nodes: &[u32],
    coeffs: &mut [i64],
    keys: &mut [u32],
    summands: &mut [u32],
) -> usize
    requires { Stack nodes.now coeffs.old keys.old 1 × EntryIn text.now nodes.now keys.old × (length text.now < 2 ^ 32) × (summand_words ≤ length summands.old) }
    ensures { Finished text.now nodes.now coeffs.old keys.old coeffs.new summands.new result }
{
    let r = nonzero(coeffs, keys);
    order(text, nodes, coeffs, keys, r);
    put_words(nodes, coeffs, keys, summands, r);
    r
}
