// The reader as `reading_c` exports it: a text into lent tables, its answer in a number and three words.
#![tactic(auto)]

ghost use Rattle.reading.specs.Answer.{Answers};

use lexer::Fault;
use reader::{COMMAND_WORDS, NODE_WORDS, Unread, read_file};

// The words of the answer.
const ANSWER_WORDS: usize = 3;

// What is answered where the text is read, and where something lent is too small.
const READ: usize = 0;

const TOO_SMALL: usize = 1;

// Reads a text: 0, and the commands, nodes and child words in use; or the number of its refusal, and its byte; or 1, and nothing
// is written, where one of the tables is too small.
pub fn cutting_planes_read(
    text: &[u8],
    nodes: &mut [u32],
    commands: &mut [u16],
    answer: &mut [usize],
) -> usize
    ensures { Answers text.now nodes.old nodes.new commands.old commands.new answer.old answer.new result }
{
    if nodes.len() < NODE_WORDS {
        return TOO_SMALL;
    }
    if commands.len() < COMMAND_WORDS {
        return TOO_SMALL;
    }
    if answer.len() < ANSWER_WORDS {
        return TOO_SMALL;
    }
    match read_file(text, &mut nodes[0..NODE_WORDS], commands) {
        Ok(whole) => {
            answer[0] = whole.commands;
            answer[1] = whole.nodes;
            answer[2] = whole.children;
            READ
        }
        Err(Unread::Refused(Fault(reason, byte))) => {
            answer[0] = byte;
            u8::from(reason) as usize
        }
        Err(Unread::Small) => TOO_SMALL,
    }
}
