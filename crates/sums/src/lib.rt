// Sums: entry lists at places of three lent arrays, written in place. A sum is its coefficients and its keys in order of first appearance, from its place on, with a count;
// its slots hold for each key over a name where it stands: trusted only where that is below the count and this very key, so they are never cleared.
#![tactic(auto)]

ghost use Rattle.std.specs.Prelude.{◌≡◌, List, [], map, ℕ, suc, ◌+◌, ◌*◌, ◌≤◌, ◌<◌, length, get_or, pos, ◌+ℤ◌};
ghost use Rattle.integer.specs.Integers.{Within};
ghost use Rattle.calculus.specs.Sums.{pb_sum, summands, keep, max_summands};
ghost use Rattle.calculus.specs.Terms.{listed};
ghost use Rattle.nodes.specs.Nodes.{decode, Node};
ghost use Rattle.matching.specs.Entries.{Literals};
ghost use Rattle.matching.specs.Matched.{variable_of, Variable};
ghost use Rattle.matching.specs.Places.{max_entries, max_place, placed, Put1, Apart, Others};
ghost use Rattle.sums.specs.Lists.{OverName, Fine, Bounded, max_total, max_added, max_coefficient};
ghost use Rattle.sums.specs.Places.{key_room, slots_of, slotted, Room, Listed, Keyed};
ghost use Rattle.sums.specs.Found.{SameIs, PlaceIs, FindIs, AppendedAt, FollowedAt, PutAt, SummandIs, Nodes, LoneIs, ReadAt, InequalityAt, KeptIs, SubsetIs, SameKeysIs, AddAt, CancelIs, ReduceIs};

use matching::{GE, MAX_SUMMANDS, MUL, Refusal};
use nodes::NAME_KIND;

// Where the sums of a rule stand: the first premise's, the second's, the conclusion's.
pub const LEFT: usize = 0;

pub const RIGHT: usize = 1024;

pub const CONCLUSION: usize = 2048;

// The entries that the three have room for, 1,024 each.
pub const ENTRIES: usize = 3072;

// The slots of two sums over the nodes of a file, a word for each key: the second premise and the conclusion have the same.
pub const SLOTS: usize = 16384;

// ---- keys
// Whether two keys are the same literal.
fn same_literal(nodes: &[u32], key: u32, other: u32) -> bool
    requires node { Node nodes.now (variable_of key) }
    requires node_2 { Node nodes.now (variable_of other) }
    ensures { SameIs nodes.now key other result }
{
    if matching::negated_of(key) != matching::negated_of(other) {
        return false;
    }
    nodes::equal(
        nodes,
        nodes::wide(matching::variable_of(key)),
        nodes::wide(matching::variable_of(other)),
    )
}

// Where a key stands, by walking; the count where it is none.
fn walk(nodes: &[u32], keys: &[u32], at: usize, n: usize, key: u32) -> usize
    requires variable { Variable nodes.now (variable_of key) }
    requires literals { Literals nodes.now (placed at keys.now) n × (at + n ≤ length keys.now) × (at ≤ max_place) × (n ≤ max_entries) }
    ensures { PlaceIs nodes.now (placed at keys.now) n key result × (result ≤ n) }
{
    for i in 0..n {
        if same_literal(nodes, key, keys[at + i]) {
            return i;
        }
    }
    n
}

// Where the slots of a place begin: the first premise has its own, the second the conclusion's, which is read behind it.
fn slots_of(slots: &[u16], at: usize) -> usize
    ensures { (result ≡ slots_of (key_room slots.now) at) × (result ≤ key_room slots.now) }
{
    if at == LEFT {
        return 0;
    }
    slots.len() / 2
}

// The slot of a key of the sum at a place.
fn slot_of(slots: &[u16], at: usize, key: u32) -> usize
    requires { key < key_room slots.now }
    ensures { (result ≡ slots_of (key_room slots.now) at + key) × (result < 2 * key_room slots.now) }
{
    slots_of(slots, at) + nodes::wide(key)
}

// Where a key stands: of a name at once, of any other term by walking; the count where it is none.
pub fn find(nodes: &[u32], keys: &[u32], slots: &[u16], at: usize, n: usize, key: u32) -> usize
    requires variable { Variable nodes.now (variable_of key) }
    requires keyed { Keyed nodes.now at keys.now slots.now n }
    ensures { FindIs nodes.now (placed at keys.now) n key result }
{
    if nodes::kind_of(nodes, nodes::wide(matching::variable_of(key))) < NAME_KIND {
        return walk(nodes, keys, at, n, key);
    }
    let slot = slot_of(slots, at, key);
    let place = nodes::wide_short(slots[slot]);
    if place < n {
        if keys[at + place] == key {
            return place;
        }
    }
    n
}

// Adds c to coefficient i of a place.
fn add_to(coeffs: &mut [i64], at: usize, i: usize, c: i64)
    requires max_entries_in_bounds { (at + max_entries ≤ length coeffs.old) × (at ≤ max_place) × (i < max_entries) }
    requires within { Within max_coefficient (get_or (placed at coeffs.old) i (pos 0)) }
    requires within_2 { Within max_coefficient c }
    ensures { Put1 (pos 0) (placed at coeffs.old) i (get_or (placed at coeffs.old) i (pos 0) +ℤ c) (placed at coeffs.new) × Others at coeffs.old coeffs.new }
{
    let sum = integer::add(coeffs[at + i], c);
    coeffs[at + i] = sum;
}

// One entry more, and its place in its key's slot.
fn append(
    coeffs: &mut [i64],
    keys: &mut [u32],
    slots: &mut [u16],
    at: usize,
    n: usize,
    key: u32,
    c: i64,
) -> usize
    requires at_le_max_place { (at ≤ max_place) × (at + max_entries ≤ length coeffs.old) × (at + max_entries ≤ length keys.old) }
    requires n_lt_max_entries { (n < max_entries) × (key < key_room slots.old) }
    ensures { AppendedAt at coeffs.old keys.old slots.old n key c coeffs.new keys.new slots.new result }
{
    coeffs[at + n] = c;
    keys[at + n] = key;
    let slot = slot_of(slots, at, key);
    slots[slot] = n as u16;
    n + 1
}

// One entry more behind n, whatever stands before it; a key that stands there already keeps its slot.
pub fn follow(
    nodes: &[u32],
    coeffs: &mut [i64],
    keys: &mut [u32],
    slots: &mut [u16],
    at: usize,
    n: usize,
    key: u32,
    c: i64,
) -> usize
    requires variable { Variable nodes.now (variable_of key) × OverName nodes.now key }
    requires room { Room nodes.now at coeffs.old keys.old slots.old }
    requires fine { Fine nodes.now (placed at keys.old) (slotted at slots.old) n × (n < max_entries) }
    ensures { FollowedAt nodes.now at coeffs.old keys.old slots.old n key c coeffs.new keys.new slots.new result }
{
    let i = find(nodes, keys, slots, at, n, key);
    if i < n {
        coeffs[at + n] = c;
        keys[at + n] = key;
        return n + 1;
    }
    append(coeffs, keys, slots, at, n, key, c)
}

// Adds c to the coefficient of a key, or makes it a new key: repeated literals have their coefficients added together.
pub fn put(
    nodes: &[u32],
    coeffs: &mut [i64],
    keys: &mut [u32],
    slots: &mut [u16],
    at: usize,
    n: usize,
    key: u32,
    c: i64,
) -> usize
    requires variable { Variable nodes.now (variable_of key) }
    requires room { Room nodes.now at coeffs.old keys.old slots.old }
    requires fine { Fine nodes.now (placed at keys.old) (slotted at slots.old) n × (n < max_entries) }
    requires bounded { Bounded max_coefficient (placed at coeffs.old) n }
    requires within { Within max_coefficient c }
    ensures { PutAt nodes.now at coeffs.old keys.old slots.old n key c coeffs.new keys.new slots.new result }
{
    let i = find(nodes, keys, slots, at, n, key);
    if i < n {
        add_to(coeffs, at, i, c);
        return n;
    }
    append(coeffs, keys, slots, at, n, key, c)
}

// ---- reading
// The key and the coefficient of a summand: negated literal (* c (- 1 x)), plain literal (* c x).
pub fn read_summand(nodes: &[u32], t: u32) -> Result<(u32, i64), Refusal>
    requires { Node nodes.now t }
    ensures { SummandIs nodes.now t result }
{
    let (c, v) = matching::binary(nodes, MUL, t).ok_or(Refusal::NeitherPlainNorNegated)?;
    let z = matching::as_constant(nodes, c).ok_or(Refusal::ExpectedAnyInteger)?;
    Ok((matching::literal_key(nodes, v), z))
}

// The sum of the summands ts, each a node before top: how many entries it has.
fn read_summands(
    nodes: &[u32],
    ts: &[u32],
    top: usize,
    coeffs: &mut [i64],
    keys: &mut [u32],
    slots: &mut [u16],
    at: usize,
) -> Result<usize, Refusal>
    requires nodes { Nodes nodes.now ts.now top × (length ts.now ≤ max_summands) }
    requires room { Room nodes.now at coeffs.old keys.old slots.old }
    ensures { ReadAt nodes.now top (λ (s : List ℕ). summands (listed (map (decode s nodes.now) ts.now)) []) at coeffs.old keys.old slots.old coeffs.new keys.new slots.new result }
{
    let mut n = 0;
    for t in ts {
        let (key, c) = read_summand(nodes, *t)?;
        n = put(nodes, coeffs, keys, slots, at, n, key, c);
    }
    Ok(n)
}

// The number of one summand alone, where it is a numeral.
pub fn lone_constant(nodes: &[u32], ts: &[u32]) -> Option<i64>
    requires { (i : ℕ) → i < length ts.now → Node nodes.now (get_or ts.now i 0) }
    ensures { LoneIs nodes.now ts.now result }
{
    if ts.len() == 1 {
        matching::as_constant(nodes, ts[0])
    } else {
        None
    }
}

// The sum of node i: 40, then a lone constant, then its summands from left to right.
pub fn get_pb_hashmap(
    nodes: &[u32],
    i: u32,
    coeffs: &mut [i64],
    keys: &mut [u32],
    slots: &mut [u16],
    at: usize,
) -> Result<usize, Refusal>
    requires node { Node nodes.now i }
    requires room { Room nodes.now at coeffs.old keys.old slots.old }
    ensures { ReadAt nodes.now (suc i) (λ (s : List ℕ). pb_sum (decode s nodes.now i)) at coeffs.old keys.old slots.old coeffs.new keys.new slots.new result }
{
    let one = [i; 1];
    let pbsum = matching::split_summation(nodes, &one, i);
    if pbsum.len() > MAX_SUMMANDS {
        return Err(Refusal::TooManySummands);
    }
    match lone_constant(nodes, pbsum) {
        // Special case: single 0
        Some(constant) if integer::is_zero(constant) => Ok(0),
        Some(_) => Err(Refusal::LoneConstant),
        None => read_summands(nodes, pbsum, nodes::wide(i) + 1, coeffs, keys, slots, at),
    }
}

// An inequality: its constant, and how many entries its sum has.
#[derive(Clone, Copy)]
pub struct Inequality {
    pub constant: i64,
    pub count: usize,
}

// The inequality that node i is: (>= pbsum constant).
pub fn unwrap_pseudoboolean_inequality(
    nodes: &[u32],
    i: u32,
    coeffs: &mut [i64],
    keys: &mut [u32],
    slots: &mut [u16],
    at: usize,
) -> Result<Inequality, Refusal>
    requires node { Node nodes.now i }
    requires room { Room nodes.now at coeffs.old keys.old slots.old }
    ensures { InequalityAt nodes.now i at coeffs.old keys.old slots.old coeffs.new keys.new slots.new result }
{
    let (pbsum, constant) = matching::binary(nodes, GE, i).ok_or(Refusal::TermOfWrongForm)?;
    let constant = matching::as_constant(nodes, constant).ok_or(Refusal::ExpectedAnyInteger)?;
    let count = get_pb_hashmap(nodes, pbsum, coeffs, keys, slots, at)?;
    Ok(Inequality { constant, count })
}

// ---- keys of two sums
// Whether entry i has coefficient 0, or its key is one of the sum at another place; its coefficient stands at the place `from`, its key at `at`.
fn key_kept(
    nodes: &[u32],
    coeffs: &[i64],
    keys: &[u32],
    slots: &[u16],
    from: usize,
    at: usize,
    i: usize,
    at2: usize,
    m: usize,
) -> bool
    requires i_lt_max_entries { (i < max_entries) × (from ≤ max_place) × (at ≤ max_place) × (from + i < length coeffs.now) × (at + i < length keys.now) × Variable nodes.now (variable_of (get_or (placed at keys.now) i 0)) }
    requires keyed { Keyed nodes.now at2 keys.now slots.now m }
    ensures { KeptIs nodes.now (placed from coeffs.now) (placed at keys.now) i (placed at2 keys.now) m result }
{
    // Zero coefficient is ignored.
    if integer::is_zero(coeffs[from + i]) {
        return true;
    }
    find(nodes, keys, slots, at2, m, keys[at + i]) < m
}

// Whether every key with a nonzero coefficient is one of the others: a ⊆ b.
pub fn assert_pbsum_subset_keys(
    nodes: &[u32],
    coeffs: &[i64],
    keys: &[u32],
    slots: &[u16],
    from: usize,
    at: usize,
    n: usize,
    at2: usize,
    m: usize,
) -> bool
    requires listed { Listed nodes.now from at coeffs.now keys.now n }
    requires keyed { Keyed nodes.now at2 keys.now slots.now m }
    ensures { SubsetIs nodes.now (placed from coeffs.now) (placed at keys.now) n (placed at2 keys.now) m result }
{
    for i in 0..n {
        if !key_kept(nodes, coeffs, keys, slots, from, at, i, at2, m) {
            return false;
        }
    }
    true
}

// Whether two sums have the same keys, those with coefficient 0 apart. The first one's coefficients stand at the place `from`, its keys at `at`.
pub fn assert_pbsum_same_keys(
    nodes: &[u32],
    coeffs: &[i64],
    keys: &[u32],
    slots: &[u16],
    from: usize,
    at: usize,
    n: usize,
    at2: usize,
    m: usize,
) -> bool
    requires keyed { Keyed nodes.now at keys.now slots.now n × (from + n ≤ length coeffs.now) × (from ≤ max_place) }
    requires keyed_2 { Keyed nodes.now at2 keys.now slots.now m × (at2 + m ≤ length coeffs.now) }
    ensures { SameKeysIs nodes.now (placed from coeffs.now) (placed at keys.now) n (placed at2 coeffs.now) (placed at2 keys.now) m result }
{
    // All keys in A are in B
    if !assert_pbsum_subset_keys(nodes, coeffs, keys, slots, from, at, n, at2, m) {
        return false;
    }

    // All keys in B are in A
    assert_pbsum_subset_keys(nodes, coeffs, keys, slots, at2, at2, m, at, n)
}

// ---- adding and reducing
// Adds the m entries at another place to the n of this one.
pub fn add_pbsums(
    nodes: &[u32],
    coeffs: &mut [i64],
    keys: &mut [u32],
    slots: &mut [u16],
    at: usize,
    n: usize,
    at2: usize,
    m: usize,
) -> usize
    requires room { Room nodes.now at coeffs.old keys.old slots.old × Apart at at2 }
    requires fine { Fine nodes.now (placed at keys.old) (slotted at slots.old) n × (n ≤ max_summands) × Bounded max_total (placed at coeffs.old) n }
    requires listed { Listed nodes.now at2 at2 coeffs.old keys.old m × (m ≤ max_summands) × Bounded max_total (placed at2 coeffs.old) m }
    ensures { AddAt nodes.now at coeffs.old keys.old slots.old n at2 m coeffs.new keys.new slots.new result }
{
    let mut k = n;
    for i in 0..m {
        let key = keys[at2 + i];
        let c = coeffs[at2 + i];
        k = put(nodes, coeffs, keys, slots, at, k, key, c);
    }
    k
}

// What the side with a keeps against b: the difference where it is the larger, else 0.
fn keep_of(a: i64, b: i64) -> i64
    requires within { Within max_added a }
    requires within_2 { Within max_added b }
    ensures { result ≡ keep a b }
{
    if integer::less(b, a) {
        integer::subtract(a, b)
    } else {
        0
    }
}

// What an entry keeps of its coefficient, and what it adds to the slack.
#[derive(Clone, Copy)]
pub struct Cancelled {
    pub kept: i64,
    pub slack: i64,
}

// Entry i against the entry of the opposite literal, if there is one; the slack is counted at the plain literal.
fn cancel(
    nodes: &[u32],
    coeffs: &[i64],
    keys: &[u32],
    slots: &[u16],
    at: usize,
    n: usize,
    i: usize,
) -> Cancelled
    requires keyed { Keyed nodes.now at keys.now slots.now n × (at + n ≤ length coeffs.now) × (i < n) }
    requires bounded { Bounded max_added (placed at coeffs.now) n }
    ensures { CancelIs nodes.now (placed at coeffs.now) (placed at keys.now) n i result.kept result.slack }
{
    let key = keys[at + i];
    let a = coeffs[at + i];
    let j = find(nodes, keys, slots, at, n, matching::opposite(key));
    if j >= n {
        return Cancelled { kept: a, slack: 0 };
    }
    let b = coeffs[at + j];
    let kept = keep_of(a, b);
    if matching::negated_of(key) {
        return Cancelled { kept, slack: 0 };
    }
    Cancelled {
        kept,
        slack: integer::smaller(a, b),
    }
}

// Cancels out opposite coefficients: every new coefficient, to the place `into`, and the slack from the sum as it was.
pub fn reduce_pbsum(
    nodes: &[u32],
    coeffs: &mut [i64],
    keys: &[u32],
    slots: &[u16],
    at: usize,
    n: usize,
    into: usize,
) -> i64
    requires keyed { Keyed nodes.now at keys.now slots.now n × (at + n ≤ length coeffs.old) × Bounded max_added (placed at coeffs.old) n }
    requires max_entries_in_bounds { (into + max_entries ≤ length coeffs.old) × (into ≤ max_place) × Apart into at }
    ensures { ReduceIs nodes.now (placed at coeffs.old) (placed at keys.now) n (placed into coeffs.new) result × Others into coeffs.old coeffs.new }
{
    let mut slack = 0;
    for i in 0..n {
        let one = cancel(nodes, coeffs, keys, slots, at, n, i);
        coeffs[into + i] = one.kept;
        slack = integer::add(slack, one.slack);
    }
    slack
}
