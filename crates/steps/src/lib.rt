// The answer of a step of the reader's tables: its rule over the premises' clauses, the arguments and the conclusion.
#![tactic(auto)]

ghost use Rattle.std.specs.Prelude.{◌≡◌, ◌≤◌, ◌<◌};
ghost use Rattle.matching.specs.Matched.{AllNodes};
ghost use Rattle.links.specs.Steps.{Step};
ghost use Rattle.steps.specs.Answers.{multiplication_number, literal_number, normalize_number, Given, NumberIs, StepIs};
ghost use Rattle.sums.specs.Places.{Rooms};

use links::{ARGUMENTS_WORD, CLAUSE_WORD, KIND_WORD, PREMISES_WORD, part_of, word_of};
use matching::Answer;

// ---- the rules' numbers, as the reader gives them; that of cp_part is the last, 7
pub const ADDITION: usize = 0;

pub const MULTIPLICATION: usize = 1;

pub const DIVISION: usize = 2;

pub const SATURATION: usize = 3;

pub const LITERAL: usize = 4;

pub const NORMALIZE: usize = 5;

pub const TRANSFER: usize = 6;

// The answer by a rule that reads no sum.
fn check_terms(
    nodes: &[u32],
    commands: &[u16],
    rule: usize,
    premises: &[u32],
    args: &[u32],
    conclusion: &[u32],
) -> Answer
    requires literal_number_le_rule { (literal_number ≤ rule) × (rule ≡ normalize_number → ⊥) }
    requires step { Step nodes.now commands.now premises.now args.now }
    requires all_nodes { AllNodes nodes.now conclusion.now }
    ensures { NumberIs rule nodes.now commands.now premises.now args.now conclusion.now result }
{
    if rule == LITERAL {
        return links::cp_literal(nodes, commands, premises, args, conclusion);
    }
    if rule == TRANSFER {
        return links::cp_transfer(nodes, commands, premises, args, conclusion);
    }
    links::cp_part(nodes, commands, premises, args, conclusion)
}

// The answer by a rule that maps the sum of one premise: multiplication, division or saturation.
fn check_map(
    nodes: &[u32],
    commands: &[u16],
    rule: usize,
    premises: &[u32],
    args: &[u32],
    conclusion: &[u32],
    coeffs: &mut [i64],
    keys: &mut [u32],
    slots: &mut [u16],
) -> Answer
    requires multiplication_number_le_rule { (multiplication_number ≤ rule) × (rule < literal_number) }
    requires step { Step nodes.now commands.now premises.now args.now }
    requires all_nodes { AllNodes nodes.now conclusion.now }
    requires rooms { Rooms nodes.now coeffs.old keys.old slots.old }
    ensures { NumberIs rule nodes.now commands.now premises.now args.now conclusion.now result }
{
    if rule == MULTIPLICATION {
        return rules::cp_multiplication(
            nodes, commands, premises, args, conclusion, coeffs, keys, slots,
        );
    }
    if rule == DIVISION {
        return rules::cp_division(
            nodes, commands, premises, args, conclusion, coeffs, keys, slots,
        );
    }
    rules::cp_saturation(
        nodes, commands, premises, args, conclusion, coeffs, keys, slots,
    )
}

// The answer of command k, a step: its rule over the premises' clauses, the arguments and the conclusion.
pub fn check_step(
    nodes: &[u32],
    commands: &[u16],
    k: usize,
    coeffs: &mut [i64],
    keys: &mut [u32],
    slots: &mut [u16],
) -> Answer
    requires given { Given nodes.now commands.now k }
    requires rooms { Rooms nodes.now coeffs.old keys.old slots.old }
    ensures { StepIs nodes.now commands.now k result }
{
    let premises = part_of(nodes, commands, k, PREMISES_WORD);
    let args = part_of(nodes, commands, k, ARGUMENTS_WORD);
    let conclusion = part_of(nodes, commands, k, CLAUSE_WORD);
    let rule = word_of(commands, k, KIND_WORD) - 1;
    if rule == ADDITION {
        return rules::cp_addition(
            nodes, commands, premises, args, conclusion, coeffs, keys, slots,
        );
    }
    if rule == NORMALIZE {
        return rules::cp_normalize(nodes, commands, premises, args, conclusion, coeffs, keys);
    }
    if rule < LITERAL {
        return check_map(
            nodes, commands, rule, premises, args, conclusion, coeffs, keys, slots,
        );
    }
    check_terms(nodes, commands, rule, premises, args, conclusion)
}
