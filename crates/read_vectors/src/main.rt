// Prints what is read of the text on standard input: its refusal in one line; or the counts, then a line for each command, node and
// child word of the tables.
#![tactic(auto)]

ghost use Rattle.std.specs.Prelude.{◌≤◌, length};
ghost use Rattle.calculus.specs.Limits.{max_commands};
ghost use Rattle.nodes.specs.Nodes.{capacity, max_capacity};
ghost use Rattle.reader.specs.Commands.{all_words};

use lexer::Fault;
use nodes::child_base;
use reader::{COMMAND_WORDS, ID_WORDS, NODE_WORDS, Unread, read_file};
use std::io::Read;

// One byte more than a text may have.
const TEXT_BYTES: usize = 32769;

// Writes bytes. Nobody is told of those that cannot be written, and what stands behind them is tried all the same.
fn put(rt: &impl Print, text: &[u8]) {
    let _ = rt.write_all(text);
}

// Writes a number behind a text.
fn put_number(rt: &impl Print, before: &[u8], n: u64) {
    put(rt, before);
    let _ = rt.print(n);
}

// Writes each word behind a blank.
fn put_words(rt: &impl Print, words: &[u16]) {
    for word in words {
        put_number(rt, b" ", *word as u64);
    }
}

// A line for each of the k commands: where its id starts and ends before the text's end, its kind and its parts.
fn put_commands(rt: &impl Print, commands: &[u16], k: usize)
    requires { (k ≤ max_commands) × (all_words ≤ length commands.now) }
{
    for i in 0..k {
        put(rt, b"command");
        put_words(rt, &commands[2 * i..2 * i + 2]);
        put_words(rt, &commands[ID_WORDS + 7 * i..ID_WORDS + 7 * i + 7]);
        put(rt, b"\n");
    }
}

// A line for each of the n nodes: its kind and two words.
fn put_nodes(rt: &impl Print, nodes: &[u32], n: usize)
    requires { (n ≤ capacity nodes.now) × (capacity nodes.now ≤ max_capacity) }
{
    for i in 0..n {
        put(rt, b"node");
        put_number(rt, b" ", nodes[3 * i] as u64);
        put_number(rt, b" ", nodes[3 * i + 1] as u64);
        put_number(rt, b" ", nodes[3 * i + 2] as u64);
        put(rt, b"\n");
    }
}

// A line for each of the c child words.
fn put_children(rt: &impl Print, nodes: &[u32], c: usize)
    requires { (c ≤ capacity nodes.now) × (capacity nodes.now ≤ max_capacity) }
{
    let base = child_base(nodes);
    for word in &nodes[base..base + c] {
        put(rt, b"child");
        put_number(rt, b" ", *word as u64);
        put(rt, b"\n");
    }
}

// The line of the counts, then those of the commands, the nodes and the child words.
fn put_tables(rt: &impl Print, nodes: &[u32], commands: &[u16], k: usize, n: usize, c: usize)
    requires { (k ≤ max_commands) × (all_words ≤ length commands.now) × (n ≤ capacity nodes.now) × (c ≤ capacity nodes.now) × (capacity nodes.now ≤ max_capacity) }
{
    put_number(rt, b"commands=", k as u64);
    put_number(rt, b" nodes=", n as u64);
    put_number(rt, b" children=", c as u64);
    put(rt, b"\n");
    put_commands(rt, commands, k);
    put_nodes(rt, nodes, n);
    put_children(rt, nodes, c);
}

// The line of a refusal.
fn put_refusal(rt: &impl Print, number: u8, byte: usize) {
    put_number(rt, b"refused=", number as u64);
    put_number(rt, b" byte=", byte as u64);
    put(rt, b"\n");
}

// Reads a text into the lent tables and prints what was read.
fn put_read(rt: &impl Print, text: &[u8], nodes: &mut [u32], commands: &mut [u16]) {
    match read_file(text, nodes, commands) {
        Ok(whole) => put_tables(
            rt,
            nodes,
            commands,
            whole.commands,
            whole.nodes,
            whole.children,
        ),
        Err(Unread::Refused(Fault(reason, byte))) => put_refusal(rt, u8::from(reason), byte),
        Err(Unread::Small) => {}
    }
}

// Reads from an open file until it ends, a read fails or buf is full, and answers how many bytes were read.
fn read_full(file: &mut impl Read, buf: &mut [u8]) -> usize
    ensures { result ≤ length buf.new }
{
    let mut done = 0;
    while done < buf.len() {
        match file.read(&mut buf[done..]) {
            Ok(0) | Err(_) => break,
            Ok(more) => done += more,
        }
    }
    done
}

fn main(rt: HostRuntime) {
    let mut text = [0u8; TEXT_BYTES];
    let mut nodes = [0u32; NODE_WORDS];
    let mut commands = [0u16; COMMAND_WORDS];
    let got = read_full(&mut rt.stdin(), &mut text);
    put_read(&rt, &text[..got], &mut nodes, &mut commands);
}
