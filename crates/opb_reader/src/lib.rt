// An OPB text and the proof text behind it into the tables (02, No. 1). Both stand in one string, with the ids of assumptions between them, so that names
// are found across both texts.
#![tactic(auto)]

ghost use Rattle.std.specs.Prelude.{◌≡◌, ◌≤◌};
ghost use Rattle.integer.specs.Integers.{signed};
ghost use Rattle.calculus.specs.Limits.{max_commands};
ghost use Rattle.reader.specs.Reading.{whole_of};
ghost use Rattle.opb.specs.Counts.{resulting};
ghost use Rattle.opb.specs.Tokens.{relation_of};
ghost use Rattle.opb_reader.specs.Ids.{id_start};
ghost use Rattle.opb_reader.specs.Standing.{AssumptionPut, ConstraintPut};
ghost use Rattle.opb_reader.specs.Reading.{Assuming, OpbReady, OpbIs, BothReady, BothIs};

use heads::{MAX_COMMANDS, MAX_NODES};
use lexer::{Fault, Reason};
use opb::{SUMMAND_WORDS, behind_comments, judge, needed};
use opb_terms::put_inequality;
use reader::{ASSUMPTION, MAX_TEXT, Whole, put_command, read_commands};
use terms::NAME_WORDS;

// Where the id behind k others begins among the ids: nine have one digit, ninety have two, the others have three.
fn id_start(k: usize) -> usize
    requires { k ≤ max_commands }
    ensures { result ≡ id_start k }
{
    if k <= 9 {
        return 2 * k;
    }
    if k <= 99 {
        return 3 * k - 9;
    }
    4 * k - 108
}

// Writes assumption k, that of the summands and the constant, all signs turned where asked, behind n nodes; the nodes in use then. The ids begin at byte ids.
fn put_assumption(
    string: &[u8],
    ids: usize,
    summands: &[u32],
    count: usize,
    turned: bool,
    negative: bool,
    magnitude: u32,
    nodes: &mut [u32],
    commands: &mut [u16],
    pending: &mut [u16],
    names: &mut [u16],
    k: usize,
    n: usize,
) -> usize
    requires { Assuming string.now summands.now nodes.old commands.old pending.old names.old ids count negative magnitude k n 1 }
    ensures { AssumptionPut string.now summands.now nodes.old nodes.new commands.old commands.new pending.new names.new turned count (signed negative magnitude) k n result }
{
    let m = put_inequality(
        string, summands, count, turned, negative, magnitude, nodes, pending, names, n, n,
    );
    let from = ids + id_start(k);
    let to = ids + id_start(k + 1);
    put_command(
        string,
        commands,
        k,
        from,
        to,
        ASSUMPTION,
        m - 1,
        1,
        0,
        0,
        0,
        0,
    );
    m
}

// How many assumptions a constraint becomes.
fn resulting(equal: bool) -> usize
    ensures { (result ≡ resulting (relation_of equal)) × (result ≤ 2) }
{
    if equal { 2 } else { 1 }
}

// Writes the assumptions of a constraint: of `=` two, the second with all signs turned. Both are written from one place, so that the compiler makes no call of `put_assumption`.
fn put_constraint(
    string: &[u8],
    ids: usize,
    summands: &[u32],
    count: usize,
    equal: bool,
    negative: bool,
    magnitude: u32,
    nodes: &mut [u32],
    commands: &mut [u16],
    pending: &mut [u16],
    names: &mut [u16],
    k: usize,
    n: usize,
) -> usize
    requires { Assuming string.now summands.now nodes.old commands.old pending.old names.old ids count negative magnitude k n (resulting (relation_of equal)) }
    ensures { ConstraintPut string.now summands.now nodes.old nodes.new commands.old commands.new pending.new names.new equal count (signed negative magnitude) k n result }
{
    let mut m = n;
    for j in 0..resulting(equal) {
        m = put_assumption(
            string,
            ids,
            summands,
            count,
            j == 1,
            negative,
            magnitude,
            nodes,
            commands,
            pending,
            names,
            k + j,
            m,
        );
    }
    m
}

// Reads an OPB text, which stands at the front of the string: its constraints one by one, each judged before its assumptions are made. Answers how many assumptions there are, and their nodes.
fn read_opb(
    opb: &[u8],
    string: &[u8],
    nodes: &mut [u32],
    commands: &mut [u16],
    pending: &mut [u16],
    names: &mut [u16],
) -> Result<(usize, usize), Fault>
    requires { OpbReady opb.now string.now nodes.old commands.old pending.old names.old }
    ensures { OpbIs opb.now string.now nodes.new commands.new pending.new names.new result }
{
    let mut summands = [0u32; SUMMAND_WORDS];
    let mut at = 0;
    let mut k = 0;
    let mut n = 0;
    loop {
        let p = behind_comments(opb, at);
        if p == opb.len() {
            return Ok((k, n));
        }
        let judged = judge(opb, p, &mut summands)?;
        let more = resulting(judged.equal);
        if MAX_NODES < n + needed(judged.equal, judged.count, judged.negated) {
            return Err(Fault(Reason::TooMany, p));
        }
        if MAX_COMMANDS < k + more {
            return Err(Fault(Reason::TooMany, p));
        }
        n = put_constraint(
            string,
            opb.len(),
            &summands,
            judged.count,
            judged.equal,
            judged.negative,
            judged.magnitude,
            nodes,
            commands,
            pending,
            names,
            k,
            n,
        );
        k += more;
        at = judged.end;
    }
}

// Reads an OPB text and the proof text behind it into the lent tables, from the string in which both stand; a refusal's byte counts in its own text.
pub fn read_both(
    opb: &[u8],
    text: &[u8],
    string: &[u8],
    nodes: &mut [u32],
    commands: &mut [u16],
) -> Result<Whole, Fault>
    requires { BothReady opb.now text.now string.now nodes.old commands.old }
    ensures { BothIs opb.now text.now string.now nodes.new commands.new (whole_of result) }
{
    let mut pending = [0u16; MAX_NODES];
    let mut names = [0u16; NAME_WORDS];
    let (k, n) = read_opb(opb, string, nodes, commands, &mut pending, &mut names)?;
    if MAX_TEXT < text.len() {
        return Err(Fault(Reason::TooLong, MAX_TEXT));
    }
    let start = string.len() - text.len();
    match read_commands(
        string,
        start,
        nodes,
        commands,
        &mut pending,
        &mut names,
        k,
        n,
        n,
    ) {
        Ok(whole) => Ok(whole),
        Err(Fault(reason, byte)) => Err(Fault(reason, byte - start)),
    }
}
