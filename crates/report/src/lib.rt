// The report: a line for each command and the totals, or the line of a refused file, in the bytes of a lent slice (01, section 6).
#![tactic(auto)]

ghost use Rattle.std.specs.Prelude.{◌≡◌, List, [], ◌∷◌, ◌++◌, ◌+◌, ◌*◌, ◌≤◌, ◌<◌, length};
ghost use Rattle.calculus.specs.Marks.{Line, refused_in, refuted_by};
ghost use Rattle.calculus.specs.Report.{yes_no, line_text, totals_text, refusal_text, report_lines, min_report};
ghost use Rattle.calculus.specs.Words.{decimal};
ghost use Rattle.calculus.specs.Limits.{max_commands};
ghost use Rattle.reader.specs.Commands.{word_at, kind_word, pol_kind};
ghost use Rattle.terms.specs.Spans.{string_at};
ghost use Rattle.report.specs.Written.{Wrote};
ghost use Rattle.report.specs.Lines.{name_of, LineHas, LinesAre, Counted, IdShown, Printable, start_text, marks_text, lines_text, yes_room, rule_room, start_room, marks_room, line_room, totals_room};

use links::{KIND_WORD, word_of};
use nodes::wide_short;

// The digit 0; the others follow it.
const ZERO: usize = 48;

// How many digits there are.
const BASE: usize = 10;

// ---- pieces
// Writes src from byte `at` on, and answers the place behind it. A loop: of copy_from_slice the compiler makes a call of memmove here, and a
// program in C need bring memcpy and memset alone.
pub fn append(report: &mut [u8], at: usize, src: &[u8]) -> usize
    requires { at + length src.now ≤ length report.old }
    ensures { Wrote report.old at src.now report.new result }
{
    for (k, b) in src.iter().enumerate() {
        report[at + k] = *b;
    }
    at + src.len()
}

// Writes one byte.
fn append_byte(report: &mut [u8], at: usize, b: u8) -> usize
    requires { at < length report.old }
    ensures { Wrote report.old at (b ∷ []) report.new result }
{
    report[at] = b;
    at + 1
}

// Writes n in decimal.
fn append_decimal(report: &mut [u8], at: usize, n: usize) -> usize
    requires { at + length (decimal n) ≤ length report.old }
    ensures { Wrote report.old at (decimal n) report.new result }
{
    if n < BASE {
        append_byte(report, at, (ZERO + n) as u8)
    } else {
        let next = append_decimal(report, at, n / BASE);
        append_byte(report, next, (ZERO + n % BASE) as u8)
    }
}

// Writes yes or no.
fn append_yes(report: &mut [u8], at: usize, yes: bool) -> usize
    requires { at + yes_room ≤ length report.old }
    ensures wrote { Wrote report.old at (yes_no yes) report.new result }
    ensures upper_bound { result ≤ at + yes_room }
{
    if yes {
        append(report, at, b"yes")
    } else {
        append(report, at, b"no")
    }
}

// Writes the name of a command's kind.
fn append_rule(report: &mut [u8], at: usize, kind: usize) -> usize
    requires kind_le_pol_kind { kind ≤ pol_kind }
    requires rule_room_in_bounds { at + rule_room ≤ length report.old }
    ensures wrote { Wrote report.old at (name_of kind) report.new result }
    ensures upper_bound { result ≤ at + rule_room }
{
    match kind {
        0 => append(report, at, b"assume"),
        1 => append(report, at, b"cp_addition"),
        2 => append(report, at, b"cp_multiplication"),
        3 => append(report, at, b"cp_division"),
        4 => append(report, at, b"cp_saturation"),
        5 => append(report, at, b"cp_literal"),
        6 => append(report, at, b"cp_normalize"),
        7 => append(report, at, b"cp_transfer"),
        8 => append(report, at, b"cp_part"),
        _ => append(report, at, b"pol"),
    }
}

// ---- lines
// Writes the line of command k up to its rule.
fn write_start(report: &mut [u8], at: usize, text: &[u8], commands: &[u16], k: usize) -> usize
    requires id_shown { IdShown text.now commands.now k }
    requires start_room_in_bounds { at + start_room ≤ length report.old }
    ensures wrote { Wrote report.old at (start_text (string_at text.now commands.now k) (name_of (word_at commands.now k kind_word))) report.new result }
    ensures upper_bound { result ≤ at + start_room }
{
    let from = text.len() - wide_short(commands[2 * k]);
    let to = text.len() - wide_short(commands[2 * k + 1]);
    let kind = word_of(commands, k, KIND_WORD);
    let id_at = append(report, at, b"id=");
    let after_id = append(report, id_at, &text[from..to]);
    let rule_at = append(report, after_id, b" rule=");
    append_rule(report, rule_at, kind)
}

// Writes a line's marks and its line feed.
fn write_marks(report: &mut [u8], at: usize, plain: bool, holds: bool) -> usize
    requires { at + marks_room ≤ length report.old }
    ensures wrote { Wrote report.old at (marks_text plain holds) report.new result }
    ensures upper_bound { result ≤ at + marks_room }
{
    let plain_at = append(report, at, b" plain=");
    let after_plain = append_yes(report, plain_at, plain);
    let holds_at = append(report, after_plain, b" holds=");
    let after_holds = append_yes(report, holds_at, holds);
    append(report, after_holds, b"\n")
}

// Writes the line of command k.
fn write_line(
    report: &mut [u8],
    at: usize,
    text: &[u8],
    commands: &[u16],
    k: usize,
    number: u8,
    plain: bool,
    holds: bool,
) -> usize
    requires id_shown { IdShown text.now commands.now k }
    requires line_room_in_bounds { at + line_room ≤ length report.old }
    ensures wrote { (l : Line) → LineHas l (string_at text.now commands.now k) (word_at commands.now k kind_word) number plain holds → Wrote report.old at (line_text l ++ (10 ∷ [])) report.new result }
    ensures upper_bound { result ≤ at + line_room }
{
    let answer_at = write_start(report, at, text, commands, k);
    let number_at = append(report, answer_at, b" answer=");
    let marks_at = append_decimal(report, number_at, number as usize);
    write_marks(report, marks_at, plain, holds)
}

// Writes the lines of the first n commands.
fn write_lines(
    report: &mut [u8],
    text: &[u8],
    commands: &[u16],
    n: usize,
    numbers: &[u8],
    plains: &[bool],
    marks: &[bool],
) -> usize
    requires printable { Printable text.now commands.now numbers.now plains.now marks.now n }
    requires min_report_in_bounds { min_report ≤ length report.old }
    ensures wrote { (ls : List Line) → LinesAre text.now commands.now numbers.now plains.now marks.now n ls → Wrote report.old 0 (lines_text ls) report.new result }
    ensures upper_bound { result ≤ line_room * n }
{
    let mut at = 0;
    for k in 0..n {
        at = write_line(
            report, at, text, commands, k, numbers[k], plains[k], marks[k],
        );
    }
    at
}

// ---- totals
// How many of the first n answers are not 0.
fn count_refused(numbers: &[u8], n: usize) -> usize
    requires { n ≤ length numbers.now }
    ensures ls_value { (ls : List Line) → Counted numbers.now n ls → refused_in ls ≡ result }
    ensures upper_bound { result ≤ n }
{
    let mut refused = 0;
    for number in &numbers[..n] {
        if *number != 0 {
            refused += 1;
        }
    }
    refused
}

// Writes the totals.
fn write_totals(report: &mut [u8], at: usize, n: usize, refused: usize, refuted: bool) -> usize
    requires n_le_max_commands { n ≤ max_commands }
    requires refused_le_n { refused ≤ n }
    requires totals_room_in_bounds { at + totals_room ≤ length report.old }
    ensures { (ls : List Line) → length ls ≡ n → refused_in ls ≡ refused → refuted_by ls ≡ refuted → Wrote report.old at (totals_text ls ++ (10 ∷ [])) report.new result }
{
    let count_at = append(report, at, b"commands=");
    let after_count = append_decimal(report, count_at, n);
    let refused_at = append(report, after_count, b" refused=");
    let after_refused = append_decimal(report, refused_at, refused);
    let refuted_at = append(report, after_refused, b" refuted=");
    let after_refuted = append_yes(report, refuted_at, refuted);
    append(report, after_refuted, b"\n")
}

// ---- reports
// Writes the report of n commands: their lines, then the totals that are counted from the same answers. Answers its length.
pub fn write_report(
    report: &mut [u8],
    text: &[u8],
    commands: &[u16],
    n: usize,
    numbers: &[u8],
    plains: &[bool],
    marks: &[bool],
    refuted: bool,
) -> usize
    requires printable { Printable text.now commands.now numbers.now plains.now marks.now n }
    requires min_report_in_bounds { min_report ≤ length report.old }
    ensures { (ls : List Line) → LinesAre text.now commands.now numbers.now plains.now marks.now n ls → refuted_by ls ≡ refuted → Wrote report.old 0 (report_lines ls) report.new result }
{
    let totals_at = write_lines(report, text, commands, n, numbers, plains, marks);
    let refused = count_refused(numbers, n);
    write_totals(report, totals_at, n, refused, refuted)
}

// Writes the report of a refused file: the number and the byte. Answers its length.
pub fn write_refusal(report: &mut [u8], number: u8, byte: usize) -> usize
    requires { min_report ≤ length report.old }
    ensures { Wrote report.old 0 (refusal_text number byte) report.new result }
{
    let number_at = append(report, 0, b"refused=");
    let after_number = append_decimal(report, number_at, number as usize);
    let byte_at = append(report, after_number, b" byte=");
    let after_byte = append_decimal(report, byte_at, byte);
    append(report, after_byte, b"\n")
}
