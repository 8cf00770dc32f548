// The checker: reads a text, answers its steps, marks its lines, and writes the report.
#![tactic(auto)]

ghost use Rattle.std.specs.Prelude.{◌≡◌, ◌≤◌, ◌<◌, length, set, take, drop};
ghost use Rattle.calculus.specs.Clauses.{Sound, SoundBoth};
ghost use Rattle.calculus.specs.Marks.{number_of, plain_of};
ghost use Rattle.calculus.specs.OpbReport.{report_both, written_both};
ghost use Rattle.calculus.specs.Report.{min_report, min_table, report_lines, report_of, written};
ghost use Rattle.calculus.specs.Limits.{max_text, max_nodes};
ghost use Rattle.nodes.specs.Nodes.{capacity};
ghost use Rattle.matching.specs.Matched.{answer_of};
ghost use Rattle.opb_reader.specs.Ids.{joined};
ghost use Rattle.opb_reader.specs.Reading.{BothReady};
ghost use Rattle.reader.specs.Commands.{all_words, PolRead};
ghost use Rattle.reader.specs.Reading.{Ids};
ghost use Rattle.report.specs.Written.{Wrote};
ghost use Rattle.sums.specs.Places.{Rooms};
ghost use Rattle.terms.specs.Spans.{max_joined};
ghost use Rattle.checker.specs.Runs.{TakenSome, File, Filed, command_lines, NoPols, AnsweredBy, all_marked, PushIs, PushesAre, AnswerIs, AnswersAre, HoldsIs, MarksAre, RefutesIs, RefutedIs, Cited};
ghost use Rattle.lines.specs.Running.{HeadIn};

use heads::{MAX_COMMANDS, MAX_NODES, PolHead, closes, pol_word};
use lexer::{Fault, Reason};
use lines::{POL_KIND, behind, run_lines};
use links::{CLAUSE_WORD, KIND_WORD, PREMISES_WORD, part_of, word_of};
use marks::{is_statement, unreachable};
use matching::Answer;
use nodes::{wide, wide_short};
use opb_reader::read_both;
use pol::STACK_WORDS;
use reader::{COMMAND_WORDS, ID_INDEX, MAX_POLS, MAX_TEXT, NODE_WORDS, Unread, read_file};
use report::{append, write_refusal, write_report};
use steps::check_step;
use sums::{ENTRIES, SLOTS};
use terms::{HASHES, place_of};
use wider::{index_names, widen};

// The least report that a call has to be lent; of the node table the least is reader::NODE_WORDS.
pub const REPORT_BYTES: usize = 65536;

// The nodes of the table of a file with pol lines: those of the file, 323 of each of 64 clauses, and 2,048 names.
const WIDE_NODES: usize = MAX_NODES + 323 * MAX_POLS + 2048;

// The words of that table.
const TABLE_WORDS: usize = 4 * WIDE_NODES;

// The words of the index of its names.
const NAME_WORDS: usize = HASHES + WIDE_NODES;

// The slots of its keys, two of each node in each of two sums.
const SLOT_WORDS: usize = 4 * WIDE_NODES;

// The bytes of an OPB text, the ids of 512 assumptions and a proof text.
const JOINED_BYTES: usize = 67476;

// The ids of 512 assumptions, one after the other.
const IDS: [u8; 1940] = *b"\
    c1c2c3c4c5c6c7c8c9c10c11c12c13c14c15c16c17c18c19c20c21c22c23c24c25c26c27c28c29c30c31c32c33c34c35c36\
    c37c38c39c40c41c42c43c44c45c46c47c48c49c50c51c52c53c54c55c56c57c58c59c60c61c62c63c64c65c66c67c68c69\
    c70c71c72c73c74c75c76c77c78c79c80c81c82c83c84c85c86c87c88c89c90c91c92c93c94c95c96c97c98c99c100c101\
    c102c103c104c105c106c107c108c109c110c111c112c113c114c115c116c117c118c119c120c121c122c123c124c125c126\
    c127c128c129c130c131c132c133c134c135c136c137c138c139c140c141c142c143c144c145c146c147c148c149c150c151\
    c152c153c154c155c156c157c158c159c160c161c162c163c164c165c166c167c168c169c170c171c172c173c174c175c176\
    c177c178c179c180c181c182c183c184c185c186c187c188c189c190c191c192c193c194c195c196c197c198c199c200c201\
    c202c203c204c205c206c207c208c209c210c211c212c213c214c215c216c217c218c219c220c221c222c223c224c225c226\
    c227c228c229c230c231c232c233c234c235c236c237c238c239c240c241c242c243c244c245c246c247c248c249c250c251\
    c252c253c254c255c256c257c258c259c260c261c262c263c264c265c266c267c268c269c270c271c272c273c274c275c276\
    c277c278c279c280c281c282c283c284c285c286c287c288c289c290c291c292c293c294c295c296c297c298c299c300c301\
    c302c303c304c305c306c307c308c309c310c311c312c313c314c315c316c317c318c319c320c321c322c323c324c325c326\
    c327c328c329c330c331c332c333c334c335c336c337c338c339c340c341c342c343c344c345c346c347c348c349c350c351\
    c352c353c354c355c356c357c358c359c360c361c362c363c364c365c366c367c368c369c370c371c372c373c374c375c376\
    c377c378c379c380c381c382c383c384c385c386c387c388c389c390c391c392c393c394c395c396c397c398c399c400c401\
    c402c403c404c405c406c407c408c409c410c411c412c413c414c415c416c417c418c419c420c421c422c423c424c425c426\
    c427c428c429c430c431c432c433c434c435c436c437c438c439c440c441c442c443c444c445c446c447c448c449c450c451\
    c452c453c454c455c456c457c458c459c460c461c462c463c464c465c466c467c468c469c470c471c472c473c474c475c476\
    c477c478c479c480c481c482c483c484c485c486c487c488c489c490c491c492c493c494c495c496c497c498c499c500c501\
    c502c503c504c505c506c507c508c509c510c511c512";

// ---- answers
// The answer of command k, which is no pol line: an assumption is accepted, a step is answered by its rule.
fn answer_of(
    nodes: &[u32],
    commands: &[u16],
    n: usize,
    k: usize,
    coeffs: &mut [i64],
    keys: &mut [u32],
    slots: &mut [u16],
) -> Answer
    requires filed { Filed nodes.now commands.now n × (k < n) }
    requires rooms { Rooms nodes.now coeffs.old keys.old slots.old }
    ensures { AnswerIs nodes.now commands.now n k result }
{
    if word_of(commands, k, KIND_WORD) == 0 {
        return Ok(true);
    }
    check_step(nodes, commands, k, coeffs, keys, slots)
}

// Stores an answer as that of command k.
#[tactic(auto, unfolding(calculus::specs::Marks::number_of, calculus::specs::Marks::plain_of))]
fn put_answer(numbers: &mut [u8], plains: &mut [bool], k: usize, answer: Answer)
    requires { (k < length numbers.old) × (k < length plains.old) }
    ensures numbers_after { numbers.new ≡ set numbers.old k (number_of (answer_of answer)) }
    ensures plains_after { plains.new ≡ set plains.old k (plain_of (answer_of answer)) }
{
    match answer {
        Ok(plain) => {
            numbers[k] = 0;
            plains[k] = plain;
        }
        Err(refusal) => {
            numbers[k] = u8::from(refusal);
            plains[k] = false;
        }
    }
}

// The answers of all n commands, with the arrays that sums are made in; the numbers of pol lines stand there before, and those that succeed are plain.
fn answer_all(
    nodes: &[u32],
    commands: &[u16],
    n: usize,
    numbers: &mut [u8],
    plains: &mut [bool],
    coeffs: &mut [i64],
    keys: &mut [u32],
    slots: &mut [u16],
)
    requires filed { Filed nodes.now commands.now n }
    requires n_in_bounds { (n ≤ length numbers.old) × (n ≤ length plains.old) }
    requires rooms { Rooms nodes.now coeffs.old keys.old slots.old }
    ensures { AnswersAre nodes.now commands.now n n numbers.old numbers.new plains.new }
{
    for k in 0..n {
        if word_of(commands, k, KIND_WORD) == POL_KIND {
            plains[k] = numbers[k] == 0;
        } else {
            let answer = answer_of(nodes, commands, n, k, coeffs, keys, slots);
            put_answer(numbers, plains, k, answer);
        }
    }
}

// ---- marks
// Whether each of the cited premises is marked.
fn all_hold(marks: &[bool], premises: &[u32]) -> bool
    requires { Cited marks.now premises.now }
    ensures { result ≡ all_marked marks.now premises.now }
{
    for premise in premises {
        let p = wide(*premise);
        if !marks[p] {
            return false;
        }
    }
    true
}

// Whether what a word of pol line k pushes is marked, where it is the id of a command above it.
fn push_holds(
    text: &[u8],
    commands: &[u16],
    all: usize,
    k: usize,
    head: PolHead,
    marks: &[bool],
) -> bool
    requires { Ids text.now commands.now all × (k ≤ all) × (k ≤ length marks.now) × HeadIn text.now head }
    ensures { PushIs text.now commands.now k head marks.now result }
{
    match head {
        PolHead::Plain(from, to) => {
            let j = place_of(text, commands, ID_INDEX, all, from, to);
            if j < k {
                return marks[j];
            }
            true
        }
        PolHead::Negated(_, _) => true,
        PolHead::Add(_) => true,
        PolHead::Saturate(_) => true,
        PolHead::Times(_, _, _) => true,
        PolHead::Over(_, _, _) => true,
    }
}

// Whether each id that pol line k pushes is marked: its words are read again, from behind its id on.
fn pushes_hold(text: &[u8], commands: &[u16], all: usize, k: usize, marks: &[bool]) -> bool
    requires { Ids text.now commands.now all × (k < all) × (k ≤ length marks.now) × PolRead text.now commands.now k }
    ensures { PushesAre text.now commands.now k marks.now result }
{
    let mut i = text.len() - wide_short(commands[2 * k + 1]);
    loop {
        let Ok(head) = pol_word(text, i) else {
            // no word stands here: the reader found one
            return true;
        };
        if !push_holds(text, commands, all, k, head, marks) {
            return false;
        }
        i = behind(Ok(head));
        if closes(text, i).is_some() {
            return true;
        }
    }
}

// Whether command k holds: an assumption when it is a statement; a step when accepted, plain and each cited premise holds; a pol line when it
// succeeds and each id that it pushes holds.
fn holds(
    text: &[u8],
    nodes: &[u32],
    commands: &[u16],
    n: usize,
    k: usize,
    plain: bool,
    marks: &[bool],
) -> bool
    requires { File text.now nodes.now commands.now n × (k < n) × (k ≤ length marks.now) }
    ensures { HoldsIs text.now nodes.now commands.now k plain marks.now result }
{
    let kind = word_of(commands, k, KIND_WORD);
    if kind == 0 {
        let clause = part_of(nodes, commands, k, CLAUSE_WORD);
        return is_statement(nodes, clause[0]);
    }
    if !plain {
        return false;
    }
    if kind == POL_KIND {
        return pushes_hold(text, commands, n, k, marks);
    }
    all_hold(marks, part_of(nodes, commands, k, PREMISES_WORD))
}

// The marks of all n commands, from above to below.
fn mark_commands(
    text: &[u8],
    nodes: &[u32],
    commands: &[u16],
    n: usize,
    plains: &[bool],
    marks: &mut [bool],
)
    requires file { File text.now nodes.now commands.now n }
    requires n_in_bounds { (n ≤ length plains.now) × (n ≤ length marks.old) }
    ensures { MarksAre text.now nodes.now commands.now n n plains.now marks.new }
{
    for k in 0..n {
        let held = holds(text, nodes, commands, n, k, plains[k], marks);
        marks[k] = held;
    }
}

// ---- refutation
// Whether command k is marked and its clause is unreachable.
fn refutes(
    nodes: &[u32],
    commands: &[u16],
    n: usize,
    marks: &[bool],
    k: usize,
    coeffs: &mut [i64],
    keys: &mut [u32],
    slots: &mut [u16],
) -> bool
    requires filed { Filed nodes.now commands.now n × (k < n) × (n ≤ length marks.now) }
    requires rooms { Rooms nodes.now coeffs.old keys.old slots.old }
    ensures { RefutesIs nodes.now commands.now n marks.now k result }
{
    if !marks[k] {
        return false;
    }
    let clause = part_of(nodes, commands, k, CLAUSE_WORD);
    unreachable(nodes, clause, coeffs, keys, slots)
}

// Whether one of the n commands does.
fn refuted_by(
    nodes: &[u32],
    commands: &[u16],
    n: usize,
    marks: &[bool],
    coeffs: &mut [i64],
    keys: &mut [u32],
    slots: &mut [u16],
) -> bool
    requires filed { Filed nodes.now commands.now n × (n ≤ length marks.now) }
    requires rooms { Rooms nodes.now coeffs.old keys.old slots.old }
    ensures { RefutedIs nodes.now commands.now n marks.now n result }
{
    for k in 0..n {
        if refutes(nodes, commands, n, marks, k, coeffs, keys, slots) {
            return true;
        }
    }
    false
}

// ---- the report
// Writes the report of a file that is answered: marks, whether it is refuted, with the arrays that sums are made in, then the lines.
fn report_answered(
    text: &[u8],
    nodes: &[u32],
    commands: &[u16],
    n: usize,
    numbers: &[u8],
    plains: &[bool],
    coeffs: &mut [i64],
    keys: &mut [u32],
    slots: &mut [u16],
    report: &mut [u8],
) -> usize
    requires file { File text.now nodes.now commands.now n × (min_report ≤ length report.old) }
    requires rooms { Rooms nodes.now coeffs.old keys.old slots.old }
    requires n_in_bounds { (n ≤ length numbers.now) × (n ≤ length plains.now) }
    requires answered_by { AnsweredBy text.now nodes.now commands.now n numbers.now plains.now }
    ensures { Wrote report.old 0 (report_lines (command_lines text.now nodes.now commands.now n)) report.new result }
{
    let mut marks = [false; MAX_COMMANDS];
    mark_commands(text, nodes, commands, n, plains, &mut marks);
    let refuted = refuted_by(nodes, commands, n, &marks, coeffs, keys, slots);
    write_report(report, text, commands, n, numbers, plains, &marks, refuted)
}

// Writes the report of a file in the tables that has no pol line: answers, then the rest.
fn report_plain(text: &[u8], nodes: &[u32], commands: &[u16], n: usize, report: &mut [u8]) -> usize
    requires { File text.now nodes.now commands.now n × NoPols commands.now n × (min_report ≤ length report.old) × (capacity nodes.now ≤ max_nodes) }
    ensures { Wrote report.old 0 (report_lines (command_lines text.now nodes.now commands.now n)) report.new result }
{
    let mut numbers = [0u8; MAX_COMMANDS];
    let mut plains = [false; MAX_COMMANDS];
    let mut coeffs = [0i64; ENTRIES];
    let mut keys = [0u32; ENTRIES];
    let mut slots = [0u16; SLOTS];
    answer_all(
        nodes,
        commands,
        n,
        &mut numbers,
        &mut plains,
        &mut coeffs,
        &mut keys,
        &mut slots,
    );
    report_answered(
        text,
        nodes,
        commands,
        n,
        &numbers,
        &plains,
        &mut coeffs,
        &mut keys,
        &mut slots,
        report,
    )
}

// Writes the report of what the reader made of a text with pol lines: they are run over a copy of the nodes in a larger table, where their clauses
// stand behind those of the file; then answers and the rest over that table. Called from two places, it is no part of a frame of a text without them.
fn report_pols(
    text: &[u8],
    nodes: &[u32],
    commands: &mut [u16],
    n: usize,
    used: usize,
    children: usize,
    report: &mut [u8],
) -> usize
    requires { TakenSome text.now nodes.now commands.old n used children × (min_report ≤ length report.old) × (capacity nodes.now ≤ max_nodes) }
    ensures { Wrote report.old 0 (report_lines (command_lines text.now nodes.now commands.old n)) report.new result }
{
    let mut table = [0u32; TABLE_WORDS];
    let mut names = [0u16; NAME_WORDS];
    let mut coeffs = [0i64; STACK_WORDS];
    let mut keys = [0u32; STACK_WORDS];
    let mut slots = [0u16; SLOT_WORDS];
    let mut numbers = [0u8; MAX_COMMANDS];
    let mut plains = [false; MAX_COMMANDS];
    widen(nodes, &mut table, used, children);
    index_names(text, &table, &mut names, used);
    run_lines(
        text,
        &mut table,
        commands,
        &mut names,
        &mut coeffs,
        &mut keys,
        &mut slots,
        &mut numbers,
        n,
        used,
        children,
    );
    answer_all(
        &table,
        commands,
        n,
        &mut numbers,
        &mut plains,
        &mut coeffs,
        &mut keys,
        &mut slots,
    );
    report_answered(
        text,
        &table,
        commands,
        n,
        &numbers,
        &plains,
        &mut coeffs,
        &mut keys,
        &mut slots,
        report,
    )
}

// Reads a text and writes its report.
fn report_text(text: &[u8], nodes: &mut [u32], commands: &mut [u16], report: &mut [u8]) -> usize
    requires { (min_report ≤ length report.old) × (length nodes.old ≡ min_table) × (all_words ≤ length commands.old) }
    ensures { Wrote report.old 0 (report_of text.now) report.new result }
{
    match read_file(text, nodes, commands) {
        Ok(read) => {
            if read.pols == 0 {
                return report_plain(text, nodes, commands, read.commands, report);
            }
            report_pols(
                text,
                nodes,
                commands,
                read.commands,
                read.nodes,
                read.children,
                report,
            )
        }
        Err(Unread::Refused(Fault(reason, byte))) => write_refusal(report, u8::from(reason), byte),
        Err(Unread::Small) => 0,
    }
}

// Checks a text: writes its report into the first bytes of `report` and answers their number. Under refusal 1, where fewer than 65,536
// bytes of report or 16,384 words of nodes are lent, it writes nothing and answers 0. What stands in the tables before is not read.
// No assignment that satisfies the text's assumptions falsifies a line that the report marks (demand 3).
pub fn cutting_planes_check(text: &[u8], nodes: &mut [u32], report: &mut [u8]) -> usize
    ensures value { result ≡ length (written (length report.old) (length nodes.old) text.now) }
    ensures report_after { take result report.new ≡ written (length report.old) (length nodes.old) text.now }
    ensures report_unchanged { drop result report.new ≡ drop result report.old }
    ensures nodes_unchanged { (min_report ≤ length report.old → min_table ≤ length nodes.old → ⊥) → nodes.new ≡ nodes.old }
    ensures sound { Sound text.now (take result report.new) }
{
    if report.len() < REPORT_BYTES {
        return 0;
    }
    if nodes.len() < NODE_WORDS {
        return 0;
    }
    let mut commands = [0u16; COMMAND_WORDS];
    report_text(text, &mut nodes[0..NODE_WORDS], &mut commands, report)
}

// ---- an OPB text before it
// Writes the OPB text, the ids of 512 assumptions and the proof text one behind the other; a proof text that is too long is left out.
fn join(string: &mut [u8], opb: &[u8], text: &[u8]) -> usize
    requires { (max_joined ≤ length string.old) × (length opb.now ≤ max_text) }
    ensures { Wrote string.old 0 (joined opb.now text.now) string.new result }
{
    let ids = append(string, 0, opb);
    let start = append(string, ids, &IDS);
    if MAX_TEXT < text.len() {
        return start;
    }
    append(string, start, text)
}

// Reads an OPB text and the proof text behind it, of the string in which both stand, and writes their report.
fn report_joined(
    opb: &[u8],
    text: &[u8],
    string: &[u8],
    nodes: &mut [u32],
    commands: &mut [u16],
    report: &mut [u8],
) -> usize
    requires { (min_report ≤ length report.old) × BothReady opb.now text.now string.now nodes.old commands.old }
    ensures { Wrote report.old 0 (report_both opb.now text.now) report.new result }
{
    match read_both(opb, text, string, nodes, commands) {
        Ok(read) => {
            if read.pols == 0 {
                return report_plain(string, nodes, commands, read.commands, report);
            }
            report_pols(
                string,
                nodes,
                commands,
                read.commands,
                read.nodes,
                read.children,
                report,
            )
        }
        Err(Fault(reason, byte)) => write_refusal(report, u8::from(reason), byte),
    }
}

// Joins the texts and writes their report.
fn report_both(
    opb: &[u8],
    text: &[u8],
    nodes: &mut [u32],
    commands: &mut [u16],
    report: &mut [u8],
) -> usize
    requires { (min_report ≤ length report.old) × (length nodes.old ≡ min_table) × (all_words ≤ length commands.old) }
    ensures { Wrote report.old 0 (report_both opb.now text.now) report.new result }
{
    if MAX_TEXT < opb.len() {
        return write_refusal(report, u8::from(Reason::TooLong), MAX_TEXT);
    }
    let mut string = [0u8; JOINED_BYTES];
    let size = join(&mut string, opb, text);
    report_joined(opb, text, &string[0..size], nodes, commands, report)
}

// Checks an OPB text and the proof text behind it, as `cutting_planes_check` checks a text; with an empty OPB text it writes the same bytes.
// No solution of the OPB text that satisfies the proof text's own assumptions that are statements falsifies a line that the report marks (02, No. 1).
pub fn cutting_planes_check_opb(
    opb: &[u8],
    text: &[u8],
    nodes: &mut [u32],
    report: &mut [u8],
) -> usize
    ensures value { result ≡ length (written_both (length report.old) (length nodes.old) opb.now text.now) }
    ensures report_after { take result report.new ≡ written_both (length report.old) (length nodes.old) opb.now text.now }
    ensures report_unchanged { drop result report.new ≡ drop result report.old }
    ensures nodes_unchanged { (min_report ≤ length report.old → min_table ≤ length nodes.old → ⊥) → nodes.new ≡ nodes.old }
    ensures sound_both { SoundBoth opb.now text.now (take result report.new) }
{
    if report.len() < REPORT_BYTES {
        return 0;
    }
    if nodes.len() < NODE_WORDS {
        return 0;
    }
    let mut commands = [0u16; COMMAND_WORDS];
    report_both(opb, text, &mut nodes[0..NODE_WORDS], &mut commands, report)
}
