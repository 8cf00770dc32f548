// Matching terms of the node table as the Rust's `match_term!` does: numerals, `(op a b)`, `(- 1 v)`, sums; and literals as keys.
#![tactic(auto)]

ghost use Rattle.std.specs.Prelude.{◌≡◌, not, ◌&&◌, List, [], ◌∷◌, ℕ, ◌+◌, ◌*◌, ◌/◌, ◌≤◌, ◌<◌, length};
ghost use Rattle.calculus.specs.Matching.{is_name};
ghost use Rattle.nodes.specs.Nodes.{plus_kind, max_capacity, first_at, decode, Node};
ghost use Rattle.matching.specs.Entries.{Variables, NamesAre};
ghost use Rattle.matching.specs.Matched.{refusal_number, ConstantIs, PairIs, NegationIs, SplitIs, key_of, variable_of, negated_of, LiteralIs, NumberIs, KeyIs};
ghost use Rattle.matching.specs.Places.{max_entries, max_place, placed};

use nodes::{MINUS_KIND, NAME_KIND, PLUS_KIND};

// The operators that the rules match.
pub const ADD: u32 = 0;

pub const SUB: u32 = 1;

pub const MUL: u32 = 2;

pub const GE: u32 = 3;

pub const GT: u32 = 4;

pub const LE: u32 = 5;

pub const LT: u32 = 6;

pub const EQ: u32 = 7;

pub const AND: u32 = 8;

// The most summands of a sum, and leaves of a general relation.
pub const MAX_SUMMANDS: usize = 512;

// What refuses a step, by document 01's number of the answer.
#[derive(Clone, Copy, PartialEq, Eq)]
pub enum Refusal {
    WrongNumberOfPremises = 20,
    WrongLengthOfClause = 21,
    WrongNumberOfArgs = 22,
    TermOfWrongForm = 23,
    ExpectedAnyInteger = 24,
    LoneConstant = 25,
    NeitherPlainNorNegated = 26,
    ExpectedNonnegInteger = 27,
    DivOrModByZero = 28,
    ConstantsDiffer = 29,
    LiteralMissing = 30,
    CoefficientDiffers = 31,
    NegativeInSaturation = 32,
    NotAVariable = 33,
    CoefficientNotOne = 34,
    LiteralDiffers = 35,
    NoLiteralPattern = 36,
    NoSupportedRelation = 37,
    ConstantInNormalizedSum = 38,
    ListsDiffer = 39,
    TooManySummands = 40,
    NoLink = 41,
}

// The number that a report has.
impl From<Refusal> for u8 {
    ghost from_gives = { λ refusal number. number ≡ refusal_number refusal };

    fn from(refusal: Refusal) -> u8 {
        refusal as u8
    }
}

// A pol line whose stack runs short, overflows or, after all words, has not one entry.
pub const MISCOUNTED: u8 = 52;

// A pol line in which, after a word and its reduction, a number is beyond the numeral range or an entry beyond 64 literals.
pub const BEYOND: u8 = 53;

// A pol line that pushes an id whose clause is no inequality over names, or whose word fails a rule's check of signs.
pub const UNFIT: u8 = 54;

// The answer of a step: accepted with the mark plain, or refused.
pub type Answer = Result<bool, Refusal>;

// Whether both hold.
pub fn both(a: bool, b: bool) -> bool
    ensures { result ≡ a && b }
{
    if a { b } else { false }
}

// The first word of node i behind its kind.
fn magnitude_of(nodes: &[u32], i: usize) -> u32
    requires { 3 * i + 2 < length nodes.now }
    ensures { result ≡ first_at nodes.now i }
{
    nodes[3 * i + 1]
}

// The number that node i is, if it is a numeral.
pub fn as_constant(nodes: &[u32], i: u32) -> Option<i64>
    requires { Node nodes.now i }
    ensures { ConstantIs nodes.now i result }
{
    let at = nodes::wide(i);
    let kind = nodes::kind_of(nodes, at);
    if kind == PLUS_KIND {
        return Some(integer::with_sign(false, magnitude_of(nodes, at)));
    }
    if kind == MINUS_KIND {
        return Some(integer::with_sign(true, magnitude_of(nodes, at)));
    }
    None
}

// Whether node i is a name.
pub fn is_name(nodes: &[u32], i: u32) -> bool
    requires { Node nodes.now i }
    ensures { (s : List ℕ) → result ≡ is_name (decode s nodes.now i) }
{
    nodes::kind_of(nodes, nodes::wide(i)) >= NAME_KIND
}

// The arguments of node i, if it is (op a b).
pub fn binary(nodes: &[u32], op: u32, i: u32) -> Option<(u32, u32)>
    requires node { Node nodes.now i }
    requires op_lt_plus_kind { op < plus_kind }
    ensures { PairIs nodes.now op i result }
{
    let at = nodes::wide(i);
    if nodes::kind_of(nodes, at) != op {
        return None;
    }
    let arguments = nodes::children(nodes, at);
    if arguments.len() != 2 {
        return None;
    }
    Some((arguments[0], arguments[1]))
}

// The w of node v, if it is (- 1 w).
pub fn negation_of(nodes: &[u32], v: u32) -> Option<u32>
    requires { Node nodes.now v }
    ensures { NegationIs nodes.now v result }
{
    let (a, w) = binary(nodes, SUB, v)?;
    let z = as_constant(nodes, a)?;
    if integer::equal(z, 1) { Some(w) } else { None }
}

// ---- literals as keys: twice the variable's node, and one more where the literal is negated
// The key of a literal.
pub fn key_of(variable: u32, negated: bool) -> u32
    requires { variable ≤ max_capacity }
    ensures { result ≡ key_of variable negated }
{
    if negated {
        2 * variable + 1
    } else {
        2 * variable
    }
}

// The node of a key's variable.
pub fn variable_of(key: u32) -> u32
    ensures { result ≡ variable_of key }
{
    key / 2
}

// Whether a key's literal is negated.
pub fn negated_of(key: u32) -> bool
    ensures { result ≡ negated_of key }
{
    key % 2 == 1
}

// The key of the opposite literal.
pub fn opposite(key: u32) -> u32
    requires { variable_of key ≤ max_capacity }
    ensures { result ≡ key_of (variable_of key) (not (negated_of key)) }
{
    key_of(variable_of(key), !negated_of(key))
}

// The key of the literal that node v is: (- 1 w) is w negated, any other term is itself.
pub fn literal_of(nodes: &[u32], v: u32) -> u32
    requires { Node nodes.now v }
    ensures { LiteralIs nodes.now v result }
{
    match negation_of(nodes, v) {
        Some(w) => key_of(w, true),
        None => key_of(v, false),
    }
}

// The number of the variable that node v is: of a name the first node that has it, of any other term the node itself.
fn number_of(nodes: &[u32], v: u32) -> u32
    requires { Node nodes.now v }
    ensures { NumberIs nodes.now v result }
{
    let kind = nodes::kind_of(nodes, nodes::wide(v));
    if kind < NAME_KIND {
        return v;
    }
    kind - NAME_KIND
}

// The key of the literal that node v is, by its variable's number: one literal over a name has one key.
pub fn literal_key(nodes: &[u32], v: u32) -> u32
    requires { Node nodes.now v }
    ensures { KeyIs nodes.now v result }
{
    match negation_of(nodes, v) {
        Some(w) => key_of(number_of(nodes, w), true),
        None => key_of(number_of(nodes, v), false),
    }
}

// Whether each variable of the n keys at a place is a name.
pub fn all_names(nodes: &[u32], keys: &[u32], at: usize, n: usize) -> bool
    requires { Variables nodes.now (placed at keys.now) n × (at + n ≤ length keys.now) × (at ≤ max_place) × (n ≤ max_entries) }
    ensures { NamesAre nodes.now (placed at keys.now) n result }
{
    for i in 0..n {
        if !is_name(nodes, variable_of(keys[at + i])) {
            return false;
        }
    }
    true
}

// ---- sums
// The summands of node i: its own children if it is a sum, else the one place that is lent, which holds i.
pub fn split_summation<'a>(nodes: &'a [u32], one: &'a [u32], i: u32) -> &'a [u32]
    requires node { Node nodes.now i }
    requires one_value { one.now ≡ i ∷ [] }
    ensures { SplitIs nodes.now i result.now }
{
    let at = nodes::wide(i);
    if nodes::kind_of(nodes, at) == ADD {
        nodes::children(nodes, at)
    } else {
        one
    }
}
