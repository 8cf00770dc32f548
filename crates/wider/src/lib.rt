// A node table in a larger one: its copy, the index of its names made anew, and its last names out of the index again.
#![tactic(auto)]

ghost use Rattle.std.specs.Prelude.{◌+◌, ◌≤◌, length};
ghost use Rattle.nodes.specs.Nodes.{capacity, max_capacity, Table, Named, Firsts, Moved};
ghost use Rattle.terms.specs.Names.{name_words, Names};
ghost use Rattle.wider.specs.Widening.{Copied, AllFirst};

use nodes::{NAME_KIND, child_base, first_of, kind_of, second_of};
use terms::{enter, hash, leave};

// Copies count words, from word `from` of one table on to word `to` of the other on.
fn copy_words(nodes: &[u32], wider: &mut [u32], from: usize, to: usize, count: usize)
    requires { (from + count ≤ length nodes.now) × (to + count ≤ length wider.old) }
    ensures { Copied nodes.now wider.old from to count wider.new }
{
    wider[to..to + count].copy_from_slice(&nodes[from..from + count]);
}

// Copies the n nodes and c child words in use to a larger table.
pub fn widen(nodes: &[u32], wider: &mut [u32], n: usize, c: usize)
    requires { Table nodes.now n c × (capacity nodes.now ≤ capacity wider.old) × (capacity wider.old ≤ max_capacity) }
    ensures { Moved nodes.now wider.new n c }
{
    copy_words(nodes, wider, 0, 0, 3 * n);
    let from = child_base(nodes);
    let to = child_base(wider);
    copy_words(nodes, wider, from, to, c);
}

// The index of the first nodes among n, made anew.
pub fn index_names(text: &[u8], nodes: &[u32], names: &mut [u16], n: usize)
    requires { (capacity nodes.now ≤ max_capacity) × (n ≤ capacity nodes.now) × Firsts nodes.now n × Named text.now nodes.now n × (name_words nodes.now ≤ length names.old) }
    ensures { Names text.now nodes.now names.new n }
{
    for k in 0..n {
        if kind_of(nodes, k) == NAME_KIND + k as u32 {
            let h = hash(text, first_of(nodes, k), second_of(nodes, k));
            enter(names, 0, k, h);
        }
    }
}

// Takes the nodes n to m out of the index again, the last first: each is the first with its name.
pub fn leave_names(text: &[u8], nodes: &[u32], names: &mut [u16], n: usize, m: usize)
    requires { (capacity nodes.now ≤ max_capacity) × (n ≤ m) × (m ≤ capacity nodes.now) × Names text.now nodes.now names.old m × AllFirst nodes.now n m }
    ensures { Names text.now nodes.now names.new n }
{
    for k in (n..m).rev() {
        let h = hash(text, first_of(nodes, k), second_of(nodes, k));
        leave(names, 0, k, h);
    }
}
