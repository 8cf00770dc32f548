// Pol lines, run word by word (02, No. 2): what a line leaves becomes nodes behind those of the file.
#![tactic(auto)]

ghost use Rattle.std.specs.Prelude.{◌≡◌, false, ◌+◌, ◌-◌, ◌≤◌, ◌<◌, length};
ghost use Rattle.std.proofs.Math.Seq.{slice};
ghost use Rattle.integer.specs.Integers.{Within};
ghost use Rattle.calculus.specs.Limits.{max_nodes, max_commands};
ghost use Rattle.calculus.specs.Pol.{max_stack};
ghost use Rattle.calculus.specs.Words.{max_numeral, max_name};
ghost use Rattle.nodes.specs.Nodes.{capacity};
ghost use Rattle.heads.specs.declared.PolHead.TheVariants.{Plain};
ghost use Rattle.reader.specs.Commands.{all_words, word_at, kind_word, pol_kind, PolRead};
ghost use Rattle.opb.specs.Counts.{negations, inequality_nodes};
ghost use Rattle.opb.specs.Summands.{summand_words, summands_of};
ghost use Rattle.opb_terms.specs.Making.{Making, InequalityPut};
ghost use Rattle.lines.specs.Running.{Above, Running, Going, WordDone, HeadIn, Runs, LiteralRun, behind_of, behind_word, max_names, WordsRun};
ghost use Rattle.lines.specs.Lines.{LeftIs, LineRun, PartPut, CommandRun, LinesReady, LinesRun};
ghost use Rattle.terms.specs.Spans.{max_short};

use ending::{finish, magnitude};
use heads::{MAX_NODES, PolHead, closes, pol_word};
use lexer::Fault;
use links::{CLAUSE_WORD, KIND_WORD, word_of};
use matching::MISCOUNTED;
use nodes::wide_short;
use opb::SUMMAND_WORDS;
use opb_terms::put_inequality;
use pol::{
    STACK_ENTRIES, add_top, constant_of, number_of, over_top, push_axiom, push_line, saturate_top,
    times_top,
};
use reader::{ID_INDEX, ID_WORDS, POL_LINE};
use terms::place_of;
use wider::leave_names;

// The kind of a pol line among the commands.
pub const POL_KIND: usize = POL_LINE as usize;

// A word was done: its number, the nodes and the entries in use then.
#[derive(Drop)]
pub struct Worked {
    pub number: u8,
    pub nodes: usize,
    pub entries: usize,
}

// A literal over the name from..to: its axiom on d entries.
fn run_literal(
    text: &[u8],
    nodes: &mut [u32],
    names: &mut [u16],
    coeffs: &mut [i64],
    keys: &mut [u32],
    from: usize,
    to: usize,
    negated: bool,
    m: usize,
    d: usize,
) -> Worked
    requires { Runs text.now nodes.old names.old coeffs.old keys.old m d × (d < max_stack → m < capacity nodes.old) × (from < to) × (to ≤ length text.now) × (to ≤ from + max_name) }
    ensures { LiteralRun text.now nodes.old nodes.new names.old names.new negated (slice from to text.now) coeffs.old keys.old m d coeffs.new keys.new result }
{
    if d >= STACK_ENTRIES {
        return Worked {
            number: MISCOUNTED,
            nodes: m,
            entries: d,
        };
    }
    let name = number_of(text, nodes, names, m, from, to);
    push_axiom(coeffs, keys, name.number, negated, d);
    Worked {
        number: 0,
        nodes: name.nodes,
        entries: d + 1,
    }
}

// The name from..to: an id above is pushed, any other name is a literal.
fn run_name(
    text: &[u8],
    nodes: &mut [u32],
    commands: &[u16],
    names: &mut [u16],
    coeffs: &mut [i64],
    keys: &mut [u32],
    slots: &mut [u16],
    from: usize,
    to: usize,
    all: usize,
    k: usize,
    m: usize,
    d: usize,
) -> Worked
    requires { Going text.now nodes.old commands.now names.old coeffs.old keys.old slots.old all k m d × (d < max_stack → m < capacity nodes.old) × (from < to) × (to ≤ length text.now) × (to ≤ from + max_name) }
    ensures { WordDone text.now nodes.old nodes.new commands.now names.new k (Plain from to) coeffs.old keys.old m d coeffs.new keys.new slots.new result }
{
    let j = place_of(text, commands, ID_INDEX, all, from, to);
    if j < k {
        let number = push_line(nodes, commands, coeffs, keys, slots, j, d);
        return Worked {
            number: number,
            nodes: m,
            entries: d + 1,
        };
    }
    run_literal(text, nodes, names, coeffs, keys, from, to, false, m, d)
}

// One entry fewer.
fn fewer(d: usize) -> usize
    ensures { result ≡ d - 1 }
{
    if d == 0 {
        return 0;
    }
    d - 1
}

// A word of a pol line, on d entries over m nodes.
fn run_word(
    text: &[u8],
    nodes: &mut [u32],
    commands: &[u16],
    names: &mut [u16],
    coeffs: &mut [i64],
    keys: &mut [u32],
    slots: &mut [u16],
    head: PolHead,
    all: usize,
    k: usize,
    m: usize,
    d: usize,
) -> Worked
    requires going { Going text.now nodes.old commands.now names.old coeffs.old keys.old slots.old all k m d × (d < max_stack → m < capacity nodes.old) }
    requires head_in { HeadIn text.now head }
    ensures { WordDone text.now nodes.old nodes.new commands.now names.new k head coeffs.old keys.old m d coeffs.new keys.new slots.new result }
{
    match head {
        PolHead::Plain(from, to) => run_name(
            text, nodes, commands, names, coeffs, keys, slots, from, to, all, k, m, d,
        ),
        PolHead::Negated(from, to) => run_literal(
            text, nodes, names, coeffs, keys, from, to, true, m, d,
        ),
        PolHead::Add(_) => {
            let number = add_top(nodes, coeffs, keys, slots, d);
            Worked {
                number: number,
                nodes: m,
                entries: fewer(d),
            }
        }
        PolHead::Saturate(_) => {
            let number = saturate_top(coeffs, keys, d);
            Worked {
                number: number,
                nodes: m,
                entries: d,
            }
        }
        PolHead::Times(negative, magnitude, _) => {
            let number = times_top(coeffs, keys, d, negative, magnitude);
            Worked {
                number: number,
                nodes: m,
                entries: d,
            }
        }
        PolHead::Over(negative, magnitude, _) => {
            let number = over_top(coeffs, keys, d, negative, magnitude);
            Worked {
                number: number,
                nodes: m,
                entries: d,
            }
        }
    }
}

// Where the text goes on behind a head.
fn end_of(head: PolHead) -> usize
    ensures { result ≡ behind_of head }
{
    match head {
        PolHead::Plain(_, t) | PolHead::Negated(_, t) => t,
        PolHead::Add(t) | PolHead::Saturate(t) => t,
        PolHead::Times(_, _, t) | PolHead::Over(_, _, t) => t,
    }
}

// Where the text goes on behind a word; 0 where none stands.
pub fn behind(word: Result<PolHead, Fault>) -> usize
    ensures { result ≡ behind_word word }
{
    match word {
        Ok(head) => end_of(head),
        Err(_) => 0,
    }
}

// The words of the pol line of command k, from byte `from` on, over n nodes: the number of the first that fails, or 52 where not one entry is left.
fn run_words(
    text: &[u8],
    nodes: &mut [u32],
    commands: &[u16],
    names: &mut [u16],
    coeffs: &mut [i64],
    keys: &mut [u32],
    slots: &mut [u16],
    from: usize,
    all: usize,
    k: usize,
    n: usize,
) -> Worked
    requires { Going text.now nodes.old commands.now names.old coeffs.old keys.old slots.old all k n 0 × (n + max_names ≤ capacity nodes.old) × (from ≤ length text.now) }
    ensures { WordsRun text.now nodes.old nodes.new commands.now names.new k from n coeffs.new keys.new result }
{
    let mut i = from;
    let mut m = n;
    let mut d = 0;
    loop {
        let Ok(head) = pol_word(text, i) else {
            return Worked {
                number: MISCOUNTED,
                nodes: m,
                entries: d,
            };
        };
        let word = run_word(
            text, nodes, commands, names, coeffs, keys, slots, head, all, k, m, d,
        );
        m = word.nodes;
        if word.number != 0 {
            return Worked {
                number: word.number,
                nodes: m,
                entries: d,
            };
        }
        d = word.entries;
        i = behind(Ok(head));
        if closes(text, i).is_some() {
            if d != 1 {
                return Worked {
                    number: MISCOUNTED,
                    nodes: m,
                    entries: d,
                };
            }
            return Worked {
                number: 0,
                nodes: m,
                entries: d,
            };
        }
    }
}

// ---- a line
// What the words of a line leave: their number, or how many summands it has and its constant.
#[derive(Drop)]
pub struct Left {
    pub number: u8,
    pub count: usize,
    pub constant: i64,
}

// Runs the words of the pol line of command k and writes what they leave as the words of summands; the names that it brought are out of the index again.
fn leave(
    text: &[u8],
    nodes: &mut [u32],
    commands: &[u16],
    names: &mut [u16],
    coeffs: &mut [i64],
    keys: &mut [u32],
    slots: &mut [u16],
    summands: &mut [u32],
    all: usize,
    k: usize,
    n: usize,
) -> Left
    requires { Going text.now nodes.old commands.now names.old coeffs.old keys.old slots.old all k n 0 × (n + max_names ≤ capacity nodes.old) × (k < all) × PolRead text.now commands.now k × (summand_words ≤ length summands.old) }
    ensures { LeftIs text.now nodes.old nodes.new commands.now names.new summands.new k n result }
{
    let from = text.len() - wide_short(commands[2 * k + 1]);
    let ran = run_words(
        text, nodes, commands, names, coeffs, keys, slots, from, all, k, n,
    );
    if ran.number != 0 {
        leave_names(text, nodes, names, n, ran.nodes);
        return Left {
            number: ran.number,
            count: 0,
            constant: 0,
        };
    }
    let count = finish(text, nodes, coeffs, keys, summands);
    leave_names(text, nodes, names, n, ran.nodes);
    let constant = constant_of(coeffs, 0);
    Left {
        number: 0,
        count: count,
        constant: constant,
    }
}

// Writes the clause of the summands and their constant behind n nodes; the nodes in use then.
fn put_clause(
    text: &[u8],
    summands: &[u32],
    count: usize,
    constant: i64,
    nodes: &mut [u32],
    pending: &mut [u16],
    names: &mut [u16],
    n: usize,
    c: usize,
) -> usize
    requires making { Making text.now summands.now nodes.old pending.old names.old count n c (inequality_nodes count (negations (summands_of text.now summands.now count))) }
    requires within { Within max_numeral constant }
    ensures { InequalityPut text.now summands.now nodes.old nodes.new names.new false count constant n c result }
{
    let negative = integer::less(constant, 0);
    let size = magnitude(constant);
    put_inequality(
        text, summands, count, false, negative, size, nodes, pending, names, n, c,
    )
}

// A line was run: its number, and the nodes and the child words in use then.
#[derive(Drop)]
pub struct Ran {
    pub number: u8,
    pub nodes: usize,
    pub children: usize,
}

// Runs the pol line of command k behind n nodes and c child words; its clause becomes nodes, the last child word.
fn run_line(
    text: &[u8],
    nodes: &mut [u32],
    commands: &[u16],
    names: &mut [u16],
    coeffs: &mut [i64],
    keys: &mut [u32],
    slots: &mut [u16],
    summands: &mut [u32],
    pending: &mut [u16],
    all: usize,
    k: usize,
    n: usize,
    c: usize,
) -> Ran
    requires { Running text.now nodes.old names.old coeffs.old keys.old slots.old n c 0 × Above text.now nodes.old commands.now all k n c × (n + max_names ≤ capacity nodes.old) × (k < all) × PolRead text.now commands.now k × (summand_words ≤ length summands.old) × (max_nodes ≤ length pending.old) }
    ensures { LineRun text.now nodes.old nodes.new commands.now names.new k n c result }
{
    let left = leave(
        text, nodes, commands, names, coeffs, keys, slots, summands, all, k, n,
    );
    if left.number != 0 {
        return Ran {
            number: left.number,
            nodes: n,
            children: c,
        };
    }
    let m = put_clause(
        text,
        summands,
        left.count,
        left.constant,
        nodes,
        pending,
        names,
        n,
        c,
    );
    Ran {
        number: 0,
        nodes: m,
        children: c + (m - n),
    }
}

// ---- all lines
// Writes the clause of command k: count child words from number first on.
fn put_part(commands: &mut [u16], k: usize, first: usize, count: usize)
    requires { (all_words ≤ length commands.old) × (k < max_commands) × (first ≤ max_short) × (count ≤ max_short) }
    ensures { PartPut commands.old commands.new k first count }
{
    let i = ID_WORDS + (7 * k + CLAUSE_WORD);
    commands[i] = first as u16;
    commands[i + 1] = count as u16;
}

// Runs command k where it is a pol line: its number, and its clause behind n nodes and c child words.
fn run_command(
    text: &[u8],
    nodes: &mut [u32],
    commands: &mut [u16],
    names: &mut [u16],
    coeffs: &mut [i64],
    keys: &mut [u32],
    slots: &mut [u16],
    numbers: &mut [u8],
    summands: &mut [u32],
    pending: &mut [u16],
    all: usize,
    k: usize,
    n: usize,
    c: usize,
) -> Ran
    requires { Running text.now nodes.old names.old coeffs.old keys.old slots.old n c 0 × Above text.now nodes.old commands.old all k n c × (n + max_names ≤ capacity nodes.old) × (k < all) × (word_at commands.old k kind_word ≡ pol_kind → PolRead text.now commands.old k) × (summand_words ≤ length summands.old) × (max_nodes ≤ length pending.old) × (all ≤ length numbers.old) }
    ensures { CommandRun text.now nodes.old nodes.new commands.old commands.new names.new numbers.old numbers.new k n c result }
{
    if word_of(commands, k, KIND_WORD) != POL_KIND {
        return Ran {
            number: 0,
            nodes: n,
            children: c,
        };
    }
    let ran = run_line(
        text, nodes, commands, names, coeffs, keys, slots, summands, pending, all, k, n, c,
    );
    numbers[k] = ran.number;
    if ran.number == 0 {
        put_part(commands, k, ran.children - 1, 1);
    } else {
        put_part(commands, k, ran.children, 0);
    }
    ran
}

// Runs the pol lines among all commands, with the arrays that a line's summands and nodes are made in.
fn run_commands(
    text: &[u8],
    nodes: &mut [u32],
    commands: &mut [u16],
    names: &mut [u16],
    coeffs: &mut [i64],
    keys: &mut [u32],
    slots: &mut [u16],
    numbers: &mut [u8],
    summands: &mut [u32],
    pending: &mut [u16],
    all: usize,
    n: usize,
    c: usize,
)
    requires { LinesReady text.now nodes.old commands.old names.old coeffs.old keys.old slots.old numbers.old all n c × (summand_words ≤ length summands.old) × (max_nodes ≤ length pending.old) }
    ensures { LinesRun text.now nodes.old nodes.new commands.old commands.new numbers.new all }
{
    let mut m = n;
    let mut d = c;
    for k in 0..all {
        let ran = run_command(
            text, nodes, commands, names, coeffs, keys, slots, numbers, summands, pending, all, k,
            m, d,
        );
        m = ran.nodes;
        d = ran.children;
    }
}

// Runs the pol lines among all commands, behind n nodes and c child words: their clauses become nodes, their numbers stand among the numbers.
pub fn run_lines(
    text: &[u8],
    nodes: &mut [u32],
    commands: &mut [u16],
    names: &mut [u16],
    coeffs: &mut [i64],
    keys: &mut [u32],
    slots: &mut [u16],
    numbers: &mut [u8],
    all: usize,
    n: usize,
    c: usize,
)
    requires { LinesReady text.now nodes.old commands.old names.old coeffs.old keys.old slots.old numbers.old all n c }
    ensures { LinesRun text.now nodes.old nodes.new commands.old commands.new numbers.new all }
{
    let mut summands = [0u32; SUMMAND_WORDS];
    let mut pending = [0u16; MAX_NODES];
    run_commands(
        text,
        nodes,
        commands,
        names,
        coeffs,
        keys,
        slots,
        numbers,
        &mut summands,
        &mut pending,
        all,
        n,
        c,
    );
}
