// The reader as C and Rust call it: the function of `reading` under its own name and with its clause.
#![tactic(auto)]

ghost use Rattle.reading.specs.Answer.{Answers};

// Reads a text: `reading::cutting_planes_read`.
#[unsafe(no_mangle)]
pub extern "C" fn cutting_planes_read(
    text: &[u8],
    nodes: &mut [u32],
    commands: &mut [u16],
    answer: &mut [usize],
) -> usize
    ensures { Answers text.now nodes.old nodes.new commands.old commands.new answer.old answer.new result }
{
    reading::cutting_planes_read(text, nodes, commands, answer)
}
