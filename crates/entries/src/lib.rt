// Entries as structs, as the Rust has them: one entry is lent to be negated, and so is a whole sum (01, section 4).
#![tactic(auto)]

ghost use Rattle.std.specs.Prelude.{map, ◌≡◌};
ghost use Rattle.entries.specs.Entries.{negated, Turns, AllTurn};

// A coefficient, a variable's number, and whether the literal is negated.
#[derive(Clone, Copy)]
pub struct Entry {
    pub coefficient: i64,
    pub variable: u32,
    pub sign: bool,
}

// Negates one entry's coefficient and changes nothing else.
pub fn negate_ctv(entry: &mut Entry)
    requires { Turns entry.old.coefficient }
    ensures { entry.new ≡ negated entry.old }
{
    entry.coefficient = integer::negate(entry.coefficient);
}

// Negates each entry of a sum and changes nothing else.
pub fn negate_sum(sum: &mut [Entry])
    requires { AllTurn sum.old }
    ensures { sum.new ≡ map negated sum.old }
{
    for entry in sum.iter_mut() {
        negate_ctv(entry);
    }
}

// How many entries are lent at once.
pub const BLOCK: usize = 8;

// The entries of a block, each negated: what stands between a caller with plain values and a sum that is lent.
pub fn negated_block(block: [Entry; BLOCK]) -> [Entry; BLOCK]
    requires { AllTurn block }
    ensures { result ≡ map negated block }
{
    let mut sum = block;
    negate_sum(&mut sum);
    sum
}
