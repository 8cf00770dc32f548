// Pol lines (02, No. 2): a stack machine over sums. The stack stands behind the three sums of a rule, in the same lent arrays.
#![tactic(auto)]

ghost use Rattle.std.specs.Prelude.{◌≡◌, ◌+◌, ◌-◌, ◌*◌, ◌≤◌, ◌<◌, length};
ghost use Rattle.std.proofs.Math.Seq.{slice};
ghost use Rattle.integer.specs.Integers.{Within, signed};
ghost use Rattle.calculus.specs.Pol.{max_stack, max_literals, in_range, multiplied, divided, saturated, on_top, on_two};
ghost use Rattle.calculus.specs.Words.{max_numeral, max_name};
ghost use Rattle.nodes.specs.Nodes.{capacity, max_capacity};
ghost use Rattle.terms.specs.Names.{Names};
ghost use Rattle.terms.specs.Spans.{max_joined};
ghost use Rattle.reader.specs.Commands.{clause_word, part_at};
ghost use Rattle.links.specs.Steps.{Clause};
ghost use Rattle.matching.specs.Places.{max_entries, max_place, placed};
ghost use Rattle.rules.specs.Checked.{map_of, ByIs};
ghost use Rattle.sums.specs.Lists.{Bounded};
ghost use Rattle.sums.specs.Places.{conclusion_at, Room, Rooms};
ghost use Rattle.pol.specs.Stack.{stack_words, window, constant_of, count_of, Standing, Stack, Stored, LoadedAt, RangeIs, FitsIs, KeptIs, SummedAt, WorkedIs, Stacked, MappedAt, maps_to, TopIs};
ghost use Rattle.pol.specs.Pushing.{LinePushed, NumberedAs, AxiomPut};

use lexer::MAX_NUMERAL;
use links::{CLAUSE_WORD, part_of};
use matching::{BEYOND, MISCOUNTED, UNFIT};
use nodes::NAME_KIND;
use rules::By;
use sums::{ENTRIES, LEFT, RIGHT};

// Where the stack begins, and the words of an entry: up to 64 literals, and behind them its constant and their number.
pub const STACK: usize = ENTRIES;

const ENTRY: usize = LITERALS + 1;

// The most literals of an entry.
pub const LITERALS: usize = 64;

// Copies n entries, their coefficients at the place `from` and their keys at the place `at`, to entry d of the stack, with a constant.
fn store(
    coeffs: &mut [i64],
    keys: &mut [u32],
    from: usize,
    at: usize,
    n: usize,
    constant: i64,
    d: usize,
)
    requires { (from ≤ conclusion_at) × (at ≤ conclusion_at) × (n ≤ max_literals) × (d < max_stack) × (stack_words ≤ length coeffs.old) × (stack_words ≤ length keys.old) }
    ensures { Stored coeffs.old keys.old from at n constant d coeffs.new keys.new }
{
    let b = STACK + ENTRY * d;
    for i in 0..n {
        let c = coeffs[from + i];
        let key = keys[at + i];
        coeffs[b + i] = c;
        keys[b + i] = key;
    }
    coeffs[b + LITERALS] = constant;
    keys[b + LITERALS] = n as u32;
}

// Reads entry e of the stack as the sum at a place; how many entries it has.
fn load(
    nodes: &[u32],
    coeffs: &mut [i64],
    keys: &mut [u32],
    slots: &mut [u16],
    e: usize,
    at: usize,
) -> usize
    requires standing { Standing nodes.now (window e coeffs.old) (window e keys.old) × (e < max_stack) × (stack_words ≤ length coeffs.old) × (stack_words ≤ length keys.old) × (at ≤ conclusion_at) }
    requires room { Room nodes.now at coeffs.old keys.old slots.old }
    ensures { LoadedAt nodes.now e at coeffs.old keys.old slots.old coeffs.new keys.new slots.new result }
{
    let b = STACK + ENTRY * e;
    let n = nodes::wide(keys[b + LITERALS]);
    let mut i = 0;
    // while: each step is what `follow` answers
    while i < n {
        let key = keys[b + i];
        let c = coeffs[b + i];
        i = sums::follow(nodes, coeffs, keys, slots, at, i, key, c);
    }
    n
}

// The ends of the numeral range.
const LEAST: i64 = -GREATEST;

const GREATEST: i64 = MAX_NUMERAL as i64;

// Whether a number is not beyond the numeral range.
fn in_range(z: i64) -> bool
    ensures { result ≡ in_range z }
{
    if integer::less(z, LEAST) {
        return false;
    }
    integer::at_most(z, GREATEST)
}

// Whether the n coefficients at a place are all in range.
fn all_in_range(coeffs: &[i64], from: usize, n: usize) -> bool
    requires { (from ≤ max_place) × (n ≤ max_entries) × (from + n ≤ length coeffs.now) }
    ensures { RangeIs (placed from coeffs.now) n result }
{
    for i in 0..n {
        if !in_range(coeffs[from + i]) {
            return false;
        }
    }
    true
}

// Whether the n entries at a place, with a constant, are an entry: at most 64 literals, zeros counted, and all numbers in range.
fn fits_entry(coeffs: &[i64], from: usize, n: usize, constant: i64) -> bool
    requires { (from ≤ max_place) × (n ≤ max_entries) × (from + n ≤ length coeffs.now) }
    ensures { FitsIs (placed from coeffs.now) n constant result }
{
    if n > LITERALS {
        return false;
    }
    if !in_range(constant) {
        return false;
    }
    all_in_range(coeffs, from, n)
}

// The n entries at the two places, with a constant, as entry d of the stack: 0, or 53 where that is too large an entry.
fn keep(
    coeffs: &mut [i64],
    keys: &mut [u32],
    from: usize,
    at: usize,
    n: usize,
    constant: i64,
    d: usize,
) -> u8
    requires { (from ≤ conclusion_at) × (at ≤ conclusion_at) × (n ≤ max_entries) × (d < max_stack) × (stack_words ≤ length coeffs.old) × (stack_words ≤ length keys.old) }
    ensures { KeptIs coeffs.old keys.old from at n constant d coeffs.new keys.new result }
{
    if !fits_entry(coeffs, from, n, constant) {
        return BEYOND;
    }
    store(coeffs, keys, from, at, n, constant, d);
    0
}

// The constant of entry e.
pub fn constant_of(coeffs: &[i64], e: usize) -> i64
    requires { (e < max_stack) × (stack_words ≤ length coeffs.now) }
    ensures { result ≡ constant_of (window e coeffs.now) }
{
    let at = STACK + ENTRY * e + LITERALS;
    coeffs[at]
}

// The number of literals of entry e.
fn count_of(keys: &[u32], e: usize) -> usize
    requires { (e < max_stack) × (stack_words ≤ length keys.now) }
    ensures { result ≡ count_of (window e keys.now) }
{
    let at = STACK + ENTRY * e + LITERALS;
    nodes::wide(keys[at])
}

// A sum that was made: how many entries it has, and the constant of its inequality.
#[derive(Drop)]
pub struct Total {
    pub count: usize,
    pub constant: i64,
}

// The two top entries of d, the top added to the other where the first premise of a rule stands, and reduced: the keys stand there, the coefficients where the second does.
fn sum_of_two(
    nodes: &[u32],
    coeffs: &mut [i64],
    keys: &mut [u32],
    slots: &mut [u16],
    d: usize,
) -> Total
    requires stack { Stack nodes.now coeffs.old keys.old d × (2 ≤ d) }
    requires rooms { Rooms nodes.now coeffs.old keys.old slots.old }
    ensures { SummedAt nodes.now coeffs.old keys.old d coeffs.new keys.new result }
{
    let total = integer::add(constant_of(coeffs, d - 2), constant_of(coeffs, d - 1));
    let n = load(nodes, coeffs, keys, slots, d - 2, LEFT);
    let m = count_of(keys, d - 1);
    let top = STACK + ENTRY * (d - 1);

    // Add both sides regardless of negation
    let both = sums::add_pbsums(nodes, coeffs, keys, slots, LEFT, n, top, m);

    // Apply reduction to cancel out opposite coefficients
    let slack = sums::reduce_pbsum(nodes, coeffs, keys, slots, LEFT, both, RIGHT);
    Total {
        count: both,
        constant: integer::subtract(total, slack),
    }
}

// `+` on a stack of d entries: the two top ones become one. 0, or the number of what is wrong.
pub fn add_top(
    nodes: &[u32],
    coeffs: &mut [i64],
    keys: &mut [u32],
    slots: &mut [u16],
    d: usize,
) -> u8
    requires stack { Stack nodes.now coeffs.old keys.old d }
    requires rooms { Rooms nodes.now coeffs.old keys.old slots.old }
    ensures { WorkedIs nodes.now on_two coeffs.old keys.old d coeffs.new keys.new (d - 1) result }
{
    if d < 2 {
        return MISCOUNTED;
    }
    let sum = sum_of_two(nodes, coeffs, keys, slots, d);
    keep(coeffs, keys, RIGHT, LEFT, sum.count, sum.constant, d - 2)
}

// ---- words on the top
// What a rule makes of each number of entry e, which has n literals.
fn map_entry(coeffs: &mut [i64], by: By, e: usize, n: usize)
    requires by_is { ByIs by }
    requires e_lt_max_stack { (e < max_stack) × (n ≤ max_literals) × (stack_words ≤ length coeffs.old) × Bounded max_numeral (window e coeffs.old) n × Within max_numeral (constant_of (window e coeffs.old)) }
    ensures { MappedAt (map_of by) coeffs.old e n coeffs.new }
{
    let b = STACK + ENTRY * e;
    for i in 0..n {
        let a = rules::apply(by, coeffs[b + i]);
        coeffs[b + i] = a;
    }
    let constant = rules::apply(by, coeffs[b + LITERALS]);
    coeffs[b + LITERALS] = constant;
}

// What a rule makes of the top of d entries: 0, or 53 where that is too large an entry.
fn map_top(coeffs: &mut [i64], keys: &[u32], by: By, d: usize) -> u8
    requires by_is { ByIs by }
    requires stacked { Stacked coeffs.old keys.now d × (1 ≤ d) }
    ensures { TopIs (on_top (maps_to (map_of by))) coeffs.old keys.now d coeffs.new result }
{
    let e = d - 1;
    let n = count_of(keys, e);
    map_entry(coeffs, by, e, n);
    let constant = constant_of(coeffs, e);
    if !fits_entry(coeffs, STACK + ENTRY * e, n, constant) {
        return BEYOND;
    }
    0
}

// A numeral and `*` on a stack of d entries. 0, or the number of what is wrong.
pub fn times_top(coeffs: &mut [i64], keys: &[u32], d: usize, negative: bool, magnitude: u32) -> u8
    requires { Stacked coeffs.old keys.now d × (magnitude ≤ max_numeral) }
    ensures { TopIs (on_top (multiplied (signed negative magnitude))) coeffs.old keys.now d coeffs.new result }
{
    if d < 1 {
        return MISCOUNTED;
    }
    let scalar = integer::with_sign(negative, magnitude);

    // Multiplying by a negative scalar would flip the inequality
    if integer::less(scalar, 0) {
        return UNFIT;
    }
    map_top(coeffs, keys, By::Times(scalar), d)
}

// A numeral and `d` on a stack of d entries. 0, or the number of what is wrong.
pub fn over_top(coeffs: &mut [i64], keys: &[u32], d: usize, negative: bool, magnitude: u32) -> u8
    requires { Stacked coeffs.old keys.now d × (magnitude ≤ max_numeral) }
    ensures { TopIs (on_top (divided (signed negative magnitude))) coeffs.old keys.now d coeffs.new result }
{
    if d < 1 {
        return MISCOUNTED;
    }
    let divisor = integer::with_sign(negative, magnitude);
    if integer::less(divisor, 0) {
        return UNFIT;
    }

    // a zero divisor
    if integer::is_zero(divisor) {
        return UNFIT;
    }
    map_top(coeffs, keys, By::Over(divisor), d)
}

// `s` on a stack of d entries. 0, or the number of what is wrong.
pub fn saturate_top(coeffs: &mut [i64], keys: &[u32], d: usize) -> u8
    requires { Stacked coeffs.old keys.now d }
    ensures { TopIs (on_top saturated) coeffs.old keys.now d coeffs.new result }
{
    if d < 1 {
        return MISCOUNTED;
    }
    let e = d - 1;
    let constant = constant_of(coeffs, e);
    if integer::less(constant, 0) {
        return UNFIT;
    }
    let n = count_of(keys, e);
    if !rules::nonnegative(coeffs, STACK + ENTRY * e, n) {
        return UNFIT;
    }
    map_top(coeffs, keys, By::Cap(constant), d)
}

// ---- pushes
// The most entries of the stack.
pub const STACK_ENTRIES: usize = 32;

// The words of the stack and of the sums below it.
pub const STACK_WORDS: usize = STACK + ENTRY * STACK_ENTRIES;

// The clause of command j, an id, as one entry more on d. 0, or the number of what is wrong.
pub fn push_line(
    nodes: &[u32],
    commands: &[u16],
    coeffs: &mut [i64],
    keys: &mut [u32],
    slots: &mut [u16],
    j: usize,
    d: usize,
) -> u8
    requires stack { Stack nodes.now coeffs.old keys.old d × Clause nodes.now commands.now j }
    requires rooms { Rooms nodes.now coeffs.old keys.old slots.old }
    ensures { LinePushed nodes.now (part_at nodes.now commands.now j clause_word) coeffs.old keys.old d coeffs.new keys.new result }
{
    if d >= STACK_ENTRIES {
        return MISCOUNTED;
    }
    let clause = part_of(nodes, commands, j, CLAUSE_WORD);
    if clause.len() != 1 {
        return UNFIT;
    }
    let Ok(line) = sums::unwrap_pseudoboolean_inequality(
        nodes, clause[0], coeffs, keys, slots, LEFT,
    ) else {
        return UNFIT;
    };
    if !matching::all_names(nodes, keys, LEFT, line.count) {
        return UNFIT;
    }
    keep(coeffs, keys, LEFT, LEFT, line.count, line.constant, d)
}

// A name's number, and the nodes in use then: one more where no node had it.
#[derive(Drop)]
pub struct Numbered {
    pub number: usize,
    pub nodes: usize,
}

// The number of the name from..to among n nodes; where none has it, it becomes the next node.
pub fn number_of(
    text: &[u8],
    nodes: &mut [u32],
    names: &mut [u16],
    n: usize,
    from: usize,
    to: usize,
) -> Numbered
    requires { (capacity nodes.old ≤ max_capacity) × (n < capacity nodes.old) × Names text.now nodes.old names.old n × (length text.now ≤ max_joined) × (from < to) × (to ≤ length text.now) × (to ≤ from + max_name) }
    ensures { NumberedAs text.now nodes.old nodes.new names.new n (slice from to text.now) result.number result.nodes }
{
    terms::put_variable(text, nodes, names, n, from, to);
    let v = nodes::wide(nodes::kind_of(nodes, n) - NAME_KIND);
    if v == n {
        return Numbered {
            number: v,
            nodes: n + 1,
        };
    }
    Numbered {
        number: v,
        nodes: n,
    }
}

// The axiom of the literal over node v as entry d.
pub fn push_axiom(coeffs: &mut [i64], keys: &mut [u32], v: usize, negated: bool, d: usize)
    requires { (v ≤ max_capacity) × (d < max_stack) × (stack_words ≤ length coeffs.old) × (stack_words ≤ length keys.old) }
    ensures { AxiomPut coeffs.old keys.old v negated d coeffs.new keys.new }
{
    let one: i64 = 1;
    let key = matching::key_of(v as u32, negated);
    coeffs[LEFT] = one;
    keys[LEFT] = key;
    store(coeffs, keys, LEFT, LEFT, 1, 0, d);
}
