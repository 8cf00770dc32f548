// The words of an OPB text, and one constraint, judged before it is made: pure functions of the text, but for the summands that the judge stores (02, No. 1).
#![tactic(auto)]

ghost use Rattle.std.specs.Prelude.{◌≡◌, true, false, cond, not, suc, ◌+◌, ◌*◌, ◌^◌, ◌≤◌, ◌<◌, eqb, pos, length, drop, get_or};
ghost use Rattle.std.proofs.Math.Seq.{slice};
ghost use Rattle.calculus.specs.Bytes.{byte, is_digit, class_of, unprintable};
ghost use Rattle.calculus.specs.Words.{ok, bind, ensure, magnitude, negative};
ghost use Rattle.calculus.specs.Tokens.{span};
ghost use Rattle.calculus.specs.Limits.{max_text};
ghost use Rattle.calculus.specs.OpbWords.{number_word, literal-word, is_variable, other_of, opb_word_of, in_opb_word, inside_at, passed, next_place, place_at, gap};
ghost use Rattle.opb.specs.Counts.{resulting, sum_nodes, inequality_nodes};
ghost use Rattle.opb.specs.Judged.{LiteralIs, ItemIs, ClosedIs, ConstantIs, JudgedIs, bit_of, put_summand};
ghost use Rattle.opb.specs.Summands.{literal_over, summand_words};
ghost use Rattle.opb.specs.Tokens.{relation_of, opb_token_of, OpbPlaced, Means, place_of};

use lexer::{
    CLOSES, Fault, MAX_NAME, MAX_NUMERAL, OPENS, Reason, behind_blanks, class, in_word, is_blank,
    is_digit, magnitude, run_end, same,
};

// The words with one meaning.
const AT_LEAST: [u8; 2] = *b">=";

const EQUAL: [u8; 1] = *b"=";

const MIN: [u8; 4] = *b"min:";

const MAX: [u8; 4] = *b"max:";

// The places of a byte outside constraints: the first of its line, where a comment may begin, later in it, and in a comment.
#[derive(Clone, Copy)]
enum Place {
    First,
    Later,
    Comment,
}

// The most summands that are stored, and their words.
const STORED_SUMMANDS: usize = 1364;

pub const SUMMAND_WORDS: usize = 5 * STORED_SUMMANDS;

// The text's end; a number's sign and magnitude; whether a literal is negated, and where its word and its name begin;
// whether a relation is `=`; each with where it begins and, but for `;`, ends.
#[derive(Clone, Copy)]
pub enum OpbToken {
    End(usize),
    Number(bool, u32, usize, usize),
    Literal(bool, usize, usize, usize),
    Relation(bool, usize, usize),
    Semicolon(usize),
}

// ---- tests of one byte
// Whether a word goes on with b: `;` ends one too.
fn in_opb_word(b: u8) -> bool
    ensures { result ≡ in_opb_word b }
{
    if b != b';' {
        return in_word(b);
    }
    false
}

// Whether b may stand in a comment.
fn printable(b: u8) -> bool
    ensures { result ≡ not (eqb (class_of b) unprintable) }
{
    if b < b' ' {
        return is_blank(b);
    }
    b <= b'~'
}

// ---- runs of bytes
// The end of the digits from `at` on.
fn digits_end(text: &[u8], at: usize) -> usize
    requires { at ≤ length text.now }
    ensures { (result ≡ at + span is_digit (drop at text.now)) × (result ≤ length text.now) }
{
    run_end(text, at, |b| is_digit(b))
}

// The end of the word that goes on at `at`.
fn word_end(text: &[u8], at: usize) -> usize
    requires { at ≤ length text.now }
    ensures { (result ≡ at + span in_opb_word (drop at text.now)) × (result ≤ length text.now) }
{
    run_end(text, at, |b| in_opb_word(b))
}

// ---- comments
// The place of byte `at`: the first of its line, or later in it.
fn place_at(text: &[u8], at: usize) -> Place
    requires { at ≤ length text.now }
    ensures { place_of result ≡ place_at text.now at }
{
    if at == 0 {
        return Place::First;
    }
    match text[at - 1] {
        b'\n' => Place::First,
        _ => Place::Later,
    }
}

// Whether b is a blank or a byte of a comment.
fn passes(place: Place, b: u8) -> bool
    ensures { result ≡ passed (place_of place) b }
{
    if let Place::Comment = place {
        return printable(b);
    }
    if is_blank(b) {
        return true;
    }
    if let Place::First = place {
        return b == b'*';
    }
    false
}

// The place behind b.
fn next_place(place: Place, b: u8) -> Place
    ensures { place_of result ≡ next_place (place_of place) b }
{
    if b == b'\n' {
        return Place::First;
    }
    if let Place::First = place {
        if b == b'*' {
            return Place::Comment;
        }
        return Place::Later;
    }
    place
}

// The first byte from `at` on, outside constraints, that is no blank and no byte of a comment, or the text's end.
pub fn behind_comments(text: &[u8], at: usize) -> usize
    requires { at ≤ length text.now }
    ensures { (result ≡ at + gap (place_at text.now at) (drop at text.now)) × (at ≤ result) × (result ≤ length text.now) }
{
    let mut place = place_at(text, at);
    for i in at..text.len() {
        let b = text[i];
        if !passes(place, b) {
            return i;
        }
        place = next_place(place, b);
    }
    text.len()
}

// ---- words
// The number of the digits from `first` on, of a word without `-`.
fn unsigned(text: &[u8], from: usize, first: usize, to: usize) -> Result<OpbToken, Fault>
    requires { (from ≤ first) × (first < to) × (to ≤ length text.now) }
    ensures { Means text.now from to (bind (magnitude (slice first to text.now)) (λ n. ok (number_word (pos n)))) result }
{
    let v = magnitude(text, first, to);
    if MAX_NUMERAL < v {
        return Err(Fault(Reason::BadNumeral, from));
    }
    Ok(OpbToken::Number(false, v, from, to))
}

// The number of a word with `-`.
fn below_zero(text: &[u8], from: usize, to: usize) -> Result<OpbToken, Fault>
    requires { (from < to) × (to ≤ length text.now) }
    ensures { Means text.now from to (bind (bind (magnitude (slice (from + 1) to text.now)) negative) (λ z. ok (number_word z))) result }
{
    let v = magnitude(text, from + 1, to);
    if v == 0 {
        return Err(Fault(Reason::BadNumeral, from));
    }
    if MAX_NUMERAL < v {
        return Err(Fault(Reason::BadNumeral, from));
    }
    Ok(OpbToken::Number(true, v, from, to))
}

// The literal of the variable from `name` on, whose digits end at `digits`.
fn literal(
    text: &[u8],
    negated: bool,
    from: usize,
    name: usize,
    digits: usize,
    to: usize,
) -> Result<OpbToken, Fault>
    requires { (from ≤ name) × (name < to) × (to ≤ length text.now) × (get_or text.now name 0 ≡ byte "x") × (digits ≡ name + 1 + span is_digit (drop (name + 1) text.now)) }
    ensures { Means text.now from to (ensure (is_variable (slice name to text.now)) 5 (ok (literal-word (literal_over negated (slice name to text.now))))) result }
{
    if digits < to {
        return Err(Fault(Reason::BadWord, from));
    }
    if to - name < 2 {
        return Err(Fault(Reason::BadWord, from));
    }
    if MAX_NAME < to - name {
        return Err(Fault(Reason::BadWord, from));
    }
    Ok(OpbToken::Literal(negated, from, name, to))
}

// The word that begins with `~`.
fn negated_literal(text: &[u8], from: usize, to: usize) -> Result<OpbToken, Fault>
    requires { (from < to) × (to ≤ length text.now) × (get_or text.now from 0 ≡ byte "~") }
    ensures { Means text.now from to (other_of (slice from to text.now)) result }
{
    if to - from < 2 {
        return Err(Fault(Reason::BadWord, from));
    }
    if text[from + 1] != b'x' {
        return Err(Fault(Reason::BadWord, from));
    }
    literal(text, true, from, from + 1, digits_end(text, from + 2), to)
}

// The word that is no number and does not begin with `x`.
fn other(text: &[u8], from: usize, to: usize) -> Result<OpbToken, Fault>
    requires { (from < to) × (to ≤ length text.now) × (get_or text.now from 0 ≡ byte "x" → ⊥) }
    ensures { Means text.now from to (other_of (slice from to text.now)) result }
{
    if text[from] == b'~' {
        return negated_literal(text, from, to);
    }
    if same(&AT_LEAST, 0, 2, text, from, to) {
        return Ok(OpbToken::Relation(false, from, to));
    }
    if same(&EQUAL, 0, 1, text, from, to) {
        return Ok(OpbToken::Relation(true, from, to));
    }
    if same(&MIN, 0, 4, text, from, to) {
        return Err(Fault(Reason::Objective, from));
    }
    if same(&MAX, 0, 4, text, from, to) {
        return Err(Fault(Reason::Objective, from));
    }
    Err(Fault(Reason::BadWord, from))
}

// The word from `from` to `to`; the digits behind its first byte end at `digits`.
fn word(text: &[u8], from: usize, digits: usize, to: usize) -> Result<OpbToken, Fault>
    requires { (from < to) × (to ≤ length text.now) × (digits ≡ from + 1 + span is_digit (drop (from + 1) text.now)) × (digits ≤ to) }
    ensures { Means text.now from to (opb_word_of (slice from to text.now)) result }
{
    let b = text[from];
    if b == b'x' {
        return literal(text, false, from, from, digits, to);
    }
    if is_digit(b) {
        return unsigned(text, from, from, to);
    }
    if digits <= from + 1 {
        return other(text, from, to);
    }
    if b == b'+' {
        return unsigned(text, from, from + 1, to);
    }
    if b == b'-' {
        return below_zero(text, from, to);
    }
    other(text, from, to)
}

// The token at or after byte `at`, inside a constraint.
pub fn inside_token(text: &[u8], at: usize) -> Result<OpbToken, Fault>
    requires { at ≤ length text.now }
    ensures { (opb_token_of text.now result ≡ inside_at text.now at) × OpbPlaced text.now at result }
{
    let from = behind_blanks(text, at);
    if text.len() <= from {
        return Ok(OpbToken::End(from));
    }
    let b = text[from];
    if in_opb_word(b) {
        let digits = digits_end(text, from + 1);
        return word(text, from, digits, word_end(text, digits));
    }
    if b == b';' {
        return Ok(OpbToken::Semicolon(from));
    }
    let k = class(b);
    if k == OPENS {
        return Err(Fault(Reason::Format, from));
    }
    if k == CLOSES {
        return Err(Fault(Reason::Format, from));
    }
    Err(Fault(Reason::BadByte, from))
}

// ---- one constraint
// A literal has to stand here: whether it is negated, and where its name begins and ends.
fn literal_at(text: &[u8], at: usize) -> Result<(bool, usize, usize), Fault>
    requires { at ≤ length text.now }
    ensures { LiteralIs text.now at result }
{
    match inside_token(text, at)? {
        OpbToken::Literal(d, _, n, t) => Ok((d, n, t)),
        OpbToken::End(p)
        | OpbToken::Number(_, _, p, _)
        | OpbToken::Relation(_, p, _)
        | OpbToken::Semicolon(p) => Err(Fault(Reason::Format, p)),
    }
}

// What a constraint goes on with: a summand, its coefficient's sign and magnitude, whether its literal is negated, and
// where its name begins and ends; the relation, whether it is `=`, and its end.
#[derive(Clone, Copy)]
pub enum Item {
    Summand(bool, u32, bool, usize, usize),
    Compared(bool, usize),
}

// A summand or a relation has to stand here.
fn item_at(text: &[u8], at: usize) -> Result<Item, Fault>
    requires { at ≤ length text.now }
    ensures { ItemIs text.now at result }
{
    match inside_token(text, at)? {
        OpbToken::Number(m, v, _, t) => {
            let (d, n, u) = literal_at(text, t)?;
            Ok(Item::Summand(m, v, d, n, u))
        }
        OpbToken::Relation(e, _, t) => Ok(Item::Compared(e, t)),
        OpbToken::End(p) | OpbToken::Literal(_, p, _, _) | OpbToken::Semicolon(p) => {
            Err(Fault(Reason::Format, p))
        }
    }
}

// `;` has to stand here: where the text goes on behind it.
fn closed_at(text: &[u8], at: usize) -> Result<usize, Fault>
    requires { at ≤ length text.now }
    ensures { ClosedIs text.now at result }
{
    match inside_token(text, at)? {
        OpbToken::Semicolon(p) => Ok(p + 1),
        OpbToken::End(p)
        | OpbToken::Number(_, _, p, _)
        | OpbToken::Literal(_, p, _, _)
        | OpbToken::Relation(_, p, _) => Err(Fault(Reason::Format, p)),
    }
}

// A constant and `;` have to stand here: its sign and magnitude, and where the text goes on behind the `;`.
fn constant_at(text: &[u8], at: usize) -> Result<(bool, u32, usize), Fault>
    requires { at ≤ length text.now }
    ensures { ConstantIs text.now at result }
{
    match inside_token(text, at)? {
        OpbToken::Number(m, v, _, t) => Ok((m, v, closed_at(text, t)?)),
        OpbToken::End(p)
        | OpbToken::Literal(_, p, _, _)
        | OpbToken::Relation(_, p, _)
        | OpbToken::Semicolon(p) => Err(Fault(Reason::Format, p)),
    }
}

// 1 for yes.
fn bit(b: bool) -> u32
    ensures { result ≡ bit_of b }
{
    if b { 1 } else { 0 }
}

// One more where d holds.
fn counted(g: usize, d: bool) -> usize
    requires { g ≤ max_text }
    ensures { result ≡ cond d (suc g) g }
{
    if d { g + 1 } else { g }
}

// Writes summand q, while there is room.
pub fn store_summand(summands: &mut [u32], q: usize, m: bool, v: u32, d: bool, n: usize, t: usize)
    requires { (summand_words ≤ length summands.old) × (n < 2 ^ 32) × (t < 2 ^ 32) }
    ensures { summands.new ≡ put_summand summands.old q m v d n t }
{
    if STORED_SUMMANDS <= q {
        return;
    }
    let i = 5 * q;
    summands[i] = bit(m);
    summands[i + 1] = v;
    summands[i + 2] = bit(d);
    summands[i + 3] = n as u32;
    summands[i + 4] = t as u32;
}

// A whole constraint: its end, whether its relation is `=`, its constant's sign and magnitude, and how many summands it
// has, and of them negated.
#[derive(Clone, Copy)]
pub struct Judged {
    pub end: usize,
    pub equal: bool,
    pub negative: bool,
    pub magnitude: u32,
    pub count: usize,
    pub negated: usize,
}

// Judges the constraint whose first token stands at or after byte `at`. Its summands are stored while there is room.
pub fn judge(text: &[u8], at: usize, summands: &mut [u32]) -> Result<Judged, Fault>
    requires { (at < length text.now) × (length text.now ≤ max_text) × (summand_words ≤ length summands.old) }
    ensures { JudgedIs text.now at summands.new result × (length summands.new ≡ length summands.old) }
{
    let mut i = at;
    let mut q = 0;
    let mut g = 0;
    loop {
        match item_at(text, i)? {
            Item::Summand(m, v, d, n, t) => {
                store_summand(summands, q, m, v, d, n, t);
                q += 1;
                g = counted(g, d);
                i = t;
            }
            Item::Compared(equal, t) => {
                let (negative, magnitude, end) = constant_at(text, t)?;
                return Ok(Judged {
                    end,
                    equal,
                    negative,
                    magnitude,
                    count: q,
                    negated: g,
                });
            }
        }
    }
}

// ---- what a whole constraint takes
// The nodes of its sum.
fn sum_nodes(count: usize, negated: usize) -> usize
    requires { (count ≤ max_text) × (negated ≤ count) }
    ensures { (result ≡ sum_nodes count negated) × (result ≤ 163841) }
{
    if count == 0 {
        return 1;
    }
    if count == 1 {
        return 3 + 2 * negated;
    }
    1 + (3 * count + 2 * negated)
}

// The nodes of its assumptions.
pub fn needed(equal: bool, count: usize, negated: usize) -> usize
    requires { (count ≤ max_text) × (negated ≤ count) }
    ensures { (result ≡ resulting (relation_of equal) * inequality_nodes count negated) × (result ≤ 327686) }
{
    let n = 2 + sum_nodes(count, negated);
    if equal { 2 * n } else { n }
}
