// The program: the report of the text on standard input goes to standard output; with `--opb FILE`, that of the OPB text in the file and the text behind it.
#![tactic(auto)]

ghost use Rattle.std.specs.Prelude.{◌≤◌, length, IfOk};
ghost use Rattle.cutting_planes.specs.Inputs.{Stored, WithinReport};

use checker::{REPORT_BYTES, cutting_planes_check, cutting_planes_check_opb};
use reader::NODE_WORDS;
use std::env::{Env, FillError};
use std::fmt::InlineText;
use std::fs::File;
use std::io;
use std::io::{Error, Print, Read};
use std::os::fd::AsRawFd;
use std::str::from_utf8;

// One byte more than a text may have: a longer one is refused whatever follows.
const TEXT_BYTES: usize = 32769;

// The bytes of one read.
const CHUNK_BYTES: usize = 4096;

// The bytes of the longest path, and of the option.
const PATH_BYTES: usize = 4096;

const OPTION_BYTES: usize = 5;

// Room for the system's text of an error.
const ERROR_BYTES: usize = 96;

// The descriptor of standard input.
const STDIN_FILENO: i32 = 0;

// Stores the bytes of src behind the first `at` of text, as far as there is room, and answers how many are stored then.
fn append(text: &mut [u8], at: usize, src: &[u8]) -> usize
    requires { at ≤ length text.old }
    ensures { Stored text.old at src.now text.new result }
{
    let count = src.len().min(text.len() - at);
    let end = at + count;
    text[at..end].copy_from_slice(&src[..count]);
    end
}

// Reads from an open file until it ends or text is full, and answers how many bytes are stored then. A read that gives fewer bytes is
// followed by another; the error of one that fails is handed on.
fn read_text(file: &mut impl Read, text: &mut [u8]) -> io::Result<usize>
    ensures { IfOk result (λ size. size ≤ length text.old) }
{
    let mut chunk = [0u8; CHUNK_BYTES];
    let mut done = 0;
    while done < text.len() {
        let more = file.read(&mut chunk)?;
        if more == 0 {
            break;
        }
        done = append(text, done, &chunk[..more]);
    }
    Ok(done)
}

// Writes what went wrong to standard error.
fn complain(rt: &HostRuntime, what: &[u8]) {
    let _ = rt.stderr().write_all(what);
}

// Writes the first bytes of a report to standard output.
fn print(rt: &HostRuntime, report: &[u8]) {
    if rt.stdout().write_all(report).is_err() {
        complain(rt, b"cutting_planes: the report cannot be written\n");
    }
}

// Writes the report that a check gives of the text to standard output.
fn put_report<F: FnOnce(&[u8], &mut [u32], &mut [u8]) -> usize>(
    rt: &HostRuntime,
    text: &[u8],
    check: F,
)
    requires callable { F.IsAlwaysCallable check }
    requires within { WithinReport (F.post check) }
{
    let mut nodes = [0u32; NODE_WORDS];
    let mut report = [0u8; REPORT_BYTES];
    let size = check(text, &mut nodes, &mut report);
    print(rt, &report[..size]);
}

// The report that a check gives of the text on standard input.
fn check_input<F: FnOnce(&[u8], &mut [u32], &mut [u8]) -> usize>(rt: &HostRuntime, check: F)
    requires callable { F.IsAlwaysCallable check }
    requires within { WithinReport (F.post check) }
{
    let mut text = [0u8; TEXT_BYTES];
    let Ok(size) = read_text(&mut rt.stdin(), &mut text) else {
        complain(rt, b"cutting_planes: standard input cannot be read\n");
        return;
    };
    put_report(rt, &text[..size], check);
}

// The report of the OPB text in an open file and of the text on standard input.
fn check_file(rt: &HostRuntime, mut file: File) {
    let mut opb = [0u8; TEXT_BYTES];
    let Ok(size) = read_text(&mut file, &mut opb) else {
        complain(rt, b"cutting_planes: the OPB file cannot be read\n");
        return;
    };
    let opb = &opb[..size];
    check_input(
        rt,
        |text, nodes, report| cutting_planes_check_opb(opb, text, nodes, report),
    );
}

// Writes to standard error that the OPB file cannot be opened, and why.
fn complain_of(rt: &HostRuntime, why: &str) {
    complain(rt, b"cutting_planes: the OPB file cannot be opened: ");
    complain(rt, why.as_bytes());
    complain(rt, b"\n");
}

// The same with the system's text of an error, which std has with a number behind it.
fn fail(rt: &HostRuntime, error: Error) {
    let text = InlineText::<ERROR_BYTES>::of(error);
    match text.as_str().split_once(" (os error ") {
        Some((words, _)) => complain_of(rt, words),
        None => complain_of(rt, text.as_str()),
    }
}

// Opens the file that the second argument names. std takes a path only as text.
fn check_opb(rt: &HostRuntime) {
    let mut path = [0u8; PATH_BYTES];
    let size = rt.arg(2, &mut path).unwrap_or(0);
    if size == 0 {
        complain(
            rt,
            b"cutting_planes: the OPB file's name is empty or too long\n",
        );
        return;
    }
    let Ok(name) = from_utf8(&path[..size]) else {
        complain_of(rt, "its name is not UTF-8");
        return;
    };
    match File::open(rt, name) {
        // a file that is opened in the place of standard input: there is none to read the proof from
        Ok(file) if file.as_raw_fd() == STDIN_FILENO => {
            complain(rt, b"cutting_planes: standard input cannot be read\n");
        }
        Ok(file) => check_file(rt, file),
        Err(error) => fail(rt, error),
    }
}

// Whether the first argument is `--opb`.
fn is_option(rt: &HostRuntime) -> bool {
    let mut option = [0u8; OPTION_BYTES];
    let size = rt.arg(1, &mut option).unwrap_or(0);
    &option[..size] == b"--opb".as_slice()
}

// Whether there is an argument in this place, of whatever length.
fn has_argument(rt: &HostRuntime, place: usize) -> bool {
    let mut front = [0u8; 1];
    !matches!(rt.arg(place, &mut front), Err(FillError::NotPresent))
}

fn main(rt: HostRuntime) {
    if !has_argument(&rt, 1) {
        check_input(&rt, cutting_planes_check);
        return;
    }
    if has_argument(&rt, 2) && !has_argument(&rt, 3) && is_option(&rt) {
        check_opb(&rt);
        return;
    }
    complain(&rt, b"usage: cutting_planes [--opb FILE] < PROOF\n");
}
