// The rules over sums: addition, multiplication, division, saturation and normalization, over a step in the tables that the reader made.
#![tactic(auto)]

ghost use Rattle.std.specs.Prelude.{◌≡◌, ◌+◌, ◌*◌, ◌≤◌, ◌<◌, pos, length, get_or};
ghost use Rattle.integer.specs.Integers.{Within};
ghost use Rattle.calculus.specs.Normalize.{cp_normalize};
ghost use Rattle.calculus.specs.Rules.{cp_addition, cp_multiplication, cp_division, cp_saturation};
ghost use Rattle.calculus.specs.Sums.{max_summands};
ghost use Rattle.calculus.specs.Terms.{same_integer};
ghost use Rattle.calculus.specs.Words.{max_numeral};
ghost use Rattle.nodes.specs.Nodes.{Node};
ghost use Rattle.matching.specs.Entries.{Literals};
ghost use Rattle.matching.specs.Matched.{variable_of, Variable, AllNodes};
ghost use Rattle.normalize.specs.Lists.{Room as Lines};
ghost use Rattle.matching.specs.Places.{max_entries, max_place, placed};
ghost use Rattle.sums.specs.Lists.{Fine, Bounded, max_total, max_added};
ghost use Rattle.sums.specs.Places.{slotted, left_at, right_at, conclusion_at, Listed, Keyed, Rooms};
ghost use Rattle.rules.specs.Checked.{TwoAt, ThreeAt, CappedCheck, map_of, ByIs, AgreesIs, AllAgree, CheckIs, times_terms, over_terms, Anything, Positive, ScaledIs, CappedIs, Nonnegative, CoefficientIs, EntryIs, FaceIs, CoefficientsAre, ZerosFace, SumsAgree, AddedAt};
ghost use Rattle.links.specs.Steps.{Step, RuleIs};

use links::{clause_of, one_premise, two_premises};
use matching::{Answer, Refusal};
use sums::{CONCLUSION, Inequality, LEFT, RIGHT};

// ---- tests
// Whether two integers are the same.
fn same_integer(a: i64, b: i64) -> bool
    ensures { result ≡ same_integer a b }
{
    integer::equal(a, b)
}

// ---- inequalities
// The inequalities of a premise and of a conclusion.
fn unwrap_two(
    nodes: &[u32],
    clause: u32,
    conclusion: u32,
    coeffs: &mut [i64],
    keys: &mut [u32],
    slots: &mut [u16],
) -> Result<(Inequality, Inequality), Refusal>
    requires node { Node nodes.now clause × Node nodes.now conclusion }
    requires rooms { Rooms nodes.now coeffs.old keys.old slots.old }
    ensures { TwoAt nodes.now clause conclusion coeffs.new keys.new slots.new result }
{
    // Unwrap the premise inequality
    let first = sums::unwrap_pseudoboolean_inequality(nodes, clause, coeffs, keys, slots, LEFT);

    // Unwrap the conclusion inequality
    let second = sums::unwrap_pseudoboolean_inequality(
        nodes, conclusion, coeffs, keys, slots, CONCLUSION,
    );

    // The first that could not be read gives the answer
    let p = first?;
    let c = second?;
    Ok((p, c))
}

// Three inequalities: the sum of the premises' constants, the conclusion's, and the counts of their entries.
#[derive(Clone, Copy)]
pub struct Three {
    pub total: i64,
    pub count: usize,
    pub count2: usize,
    pub constant: i64,
    pub count3: usize,
}

// The inequalities of both premises and of the conclusion.
fn unwrap_three(
    nodes: &[u32],
    left: u32,
    right: u32,
    conclusion: u32,
    coeffs: &mut [i64],
    keys: &mut [u32],
    slots: &mut [u16],
) -> Result<Three, Refusal>
    requires node { Node nodes.now left × Node nodes.now right × Node nodes.now conclusion }
    requires rooms { Rooms nodes.now coeffs.old keys.old slots.old }
    ensures { ThreeAt nodes.now left right conclusion coeffs.new keys.new slots.new result }
{
    // Unwrap the premise inequality
    let first = sums::unwrap_pseudoboolean_inequality(nodes, left, coeffs, keys, slots, LEFT);
    let second = sums::unwrap_pseudoboolean_inequality(nodes, right, coeffs, keys, slots, RIGHT);

    // Unwrap the conclusion inequality
    let third = sums::unwrap_pseudoboolean_inequality(
        nodes, conclusion, coeffs, keys, slots, CONCLUSION,
    );

    // The first that could not be read gives the answer
    let l = first?;
    let r = second?;
    let c = third?;
    let total = integer::add(l.constant, r.constant);
    Ok(Three {
        total,
        count: l.count,
        count2: r.count,
        constant: c.constant,
        count3: c.count,
    })
}

// ---- cp_addition
// The reduced coefficient of a key, 0 where it is none: the keys stand where the first premise's do, the coefficients where the second's stood.
fn coefficient_at(
    nodes: &[u32],
    coeffs: &[i64],
    keys: &[u32],
    slots: &[u16],
    n: usize,
    key: u32,
) -> i64
    requires keyed { Keyed nodes.now left_at keys.now slots.now n × (right_at + n ≤ length coeffs.now) }
    requires variable { Variable nodes.now (variable_of key) }
    ensures { CoefficientIs nodes.now (placed right_at coeffs.now) (placed left_at keys.now) n key result }
{
    let j = sums::find(nodes, keys, slots, LEFT, n, key);
    if j < n { coeffs[RIGHT + j] } else { 0 }
}

// An entry of the conclusion: its coefficient c is 0, or the reduced one of its key.
fn coefficient_is(
    nodes: &[u32],
    coeffs: &[i64],
    keys: &[u32],
    slots: &[u16],
    n: usize,
    c: i64,
    key: u32,
) -> bool
    requires keyed { Keyed nodes.now left_at keys.now slots.now n × (right_at + n ≤ length coeffs.now) }
    requires variable { Variable nodes.now (variable_of key) }
    ensures { EntryIs nodes.now (placed right_at coeffs.now) (placed left_at keys.now) n c key result }
{
    if same_integer(c, 0) {
        return true;
    }
    same_integer(coefficient_at(nodes, coeffs, keys, slots, n, key), c)
}

// Whether every coefficient of the conclusion that is not zero is the reduced one.
fn coefficients_are(
    nodes: &[u32],
    coeffs: &[i64],
    keys: &[u32],
    slots: &[u16],
    n: usize,
    m: usize,
) -> bool
    requires keyed { Keyed nodes.now left_at keys.now slots.now n × (right_at + n ≤ length coeffs.now) }
    requires listed { Listed nodes.now conclusion_at conclusion_at coeffs.now keys.now m }
    ensures { CoefficientsAre nodes.now (placed right_at coeffs.now) (placed left_at keys.now) n (placed conclusion_at coeffs.now) (placed conclusion_at keys.now) m result }
{
    for i in 0..m {
        let c = coeffs[CONCLUSION + i];
        let key = keys[CONCLUSION + i];
        if !coefficient_is(nodes, coeffs, keys, slots, n, c, key) {
            return false;
        }
    }
    true
}

// An entry of the conclusion: its coefficient c is not 0, or the reduced one of its key is 0 too.
fn zero_faces_zero(
    nodes: &[u32],
    coeffs: &[i64],
    keys: &[u32],
    slots: &[u16],
    n: usize,
    c: i64,
    key: u32,
) -> bool
    requires keyed { Keyed nodes.now left_at keys.now slots.now n × (right_at + n ≤ length coeffs.now) }
    requires variable { Variable nodes.now (variable_of key) }
    ensures { FaceIs nodes.now (placed right_at coeffs.now) (placed left_at keys.now) n c key result }
{
    if !same_integer(c, 0) {
        return true;
    }
    same_integer(coefficient_at(nodes, coeffs, keys, slots, n, key), 0)
}

// Whether no zero of the conclusion faces a reduced coefficient that is not zero.
fn zeros_face_zeros(
    nodes: &[u32],
    coeffs: &[i64],
    keys: &[u32],
    slots: &[u16],
    n: usize,
    m: usize,
) -> bool
    requires keyed { Keyed nodes.now left_at keys.now slots.now n × (right_at + n ≤ length coeffs.now) }
    requires listed { Listed nodes.now conclusion_at conclusion_at coeffs.now keys.now m }
    ensures { ZerosFace nodes.now (placed right_at coeffs.now) (placed left_at keys.now) n (placed conclusion_at coeffs.now) (placed conclusion_at keys.now) m result }
{
    for i in 0..m {
        let c = coeffs[CONCLUSION + i];
        let key = keys[CONCLUSION + i];
        if !zero_faces_zero(nodes, coeffs, keys, slots, n, c, key) {
            return false;
        }
    }
    true
}

// The reduced sum, its coefficients where the second premise's stood and its n keys where the first's stand, against the conclusion's: constants 29, keys 30,
// coefficients 31. `names` says whether all variables are names.
fn sums_agree(
    nodes: &[u32],
    three: Three,
    slack: i64,
    coeffs: &[i64],
    keys: &[u32],
    slots: &[u16],
    n: usize,
    names: bool,
) -> Answer
    requires within { Within max_numeral three.constant × Within (max_numeral + max_numeral) three.total × Within (max_entries * max_added) slack }
    requires keyed { Keyed nodes.now left_at keys.now slots.now n × (right_at + n ≤ length coeffs.now) }
    requires keyed_2 { Keyed nodes.now conclusion_at keys.now slots.now three.count3 × (conclusion_at + three.count3 ≤ length coeffs.now) }
    ensures { SumsAgree nodes.now three slack (placed right_at coeffs.now) (placed left_at keys.now) n (placed conclusion_at coeffs.now) (placed conclusion_at keys.now) names result }
{
    let m = three.count3;

    // Verify constants match (with slack)
    if !same_integer(three.total, integer::add(three.constant, slack)) {
        return Err(Refusal::ConstantsDiffer);
    }

    // Verify premise and conclusion share same keys
    if !sums::assert_pbsum_same_keys(nodes, coeffs, keys, slots, RIGHT, LEFT, n, CONCLUSION, m) {
        return Err(Refusal::LiteralMissing);
    }

    // Verify pseudo-boolean sums match
    if !coefficients_are(nodes, coeffs, keys, slots, n, m) {
        return Err(Refusal::CoefficientDiffers);
    }
    Ok(matching::both(names, zeros_face_zeros(nodes, coeffs, keys, slots, n, m)))
}

// Two sums, added and reduced, against the conclusion's: they are added where the first stands, and the reduced coefficients go where the second's stood.
fn added(
    nodes: &[u32],
    three: Three,
    coeffs: &mut [i64],
    keys: &mut [u32],
    slots: &mut [u16],
) -> Answer
    requires rooms { Rooms nodes.now coeffs.old keys.old slots.old }
    requires fine { Fine nodes.now (placed left_at keys.old) (slotted left_at slots.old) three.count × (three.count ≤ max_summands) × Bounded max_total (placed left_at coeffs.old) three.count }
    requires literals { Literals nodes.now (placed right_at keys.old) three.count2 × (three.count2 ≤ max_summands) × Bounded max_total (placed right_at coeffs.old) three.count2 }
    requires fine_2 { Fine nodes.now (placed conclusion_at keys.old) (slotted conclusion_at slots.old) three.count3 × Within max_numeral three.constant }
    requires within { Within (max_numeral + max_numeral) three.total }
    ensures { AddedAt nodes.now three coeffs.old keys.old result }
{
    let n = three.count;
    let m = three.count2;
    let k = three.count3;
    let premises = matching::both(
        matching::all_names(nodes, keys, LEFT, n),
        matching::all_names(nodes, keys, RIGHT, m),
    );
    let names = matching::both(premises, matching::all_names(nodes, keys, CONCLUSION, k));

    // Add both sides regardless of negation
    let both = sums::add_pbsums(nodes, coeffs, keys, slots, LEFT, n, RIGHT, m);

    // Apply reduction to cancel out opposite coefficients
    let slack = sums::reduce_pbsum(nodes, coeffs, keys, slots, LEFT, both, RIGHT);
    sums_agree(nodes, three, slack, coeffs, keys, slots, both, names)
}

// The sum of two inequalities.
pub fn cp_addition(
    nodes: &[u32],
    commands: &[u16],
    premises: &[u32],
    args: &[u32],
    conclusion: &[u32],
    coeffs: &mut [i64],
    keys: &mut [u32],
    slots: &mut [u16],
) -> Answer
    requires step { Step nodes.now commands.now premises.now args.now }
    requires all_nodes { AllNodes nodes.now conclusion.now }
    requires rooms { Rooms nodes.now coeffs.old keys.old slots.old }
    ensures { RuleIs cp_addition nodes.now commands.now premises.now args.now conclusion.now result }
{
    let (left, right, conclusion) = two_premises(nodes, commands, premises, args, conclusion)?;
    let three = unwrap_three(nodes, left, right, conclusion, coeffs, keys, slots)?;
    added(nodes, three, coeffs, keys, slots)
}

// ---- multiplication, division, saturation: one check over a map of numbers
// What a rule does to each number of its premise.
#[derive(Clone, Copy)]
pub enum By {
    Times(i64),
    Over(i64),
    Cap(i64),
}

// What the rule makes of a number of the premise.
pub fn apply(by: By, a: i64) -> i64
    requires by_is { ByIs by }
    requires within { Within max_total a }
    ensures { result ≡ map_of by a }
{
    match by {
        By::Times(scalar) => integer::multiply(scalar, a),
        By::Over(divisor) => integer::divide_up(a, divisor),
        By::Cap(constant) => integer::smaller(constant, a),
    }
}

// Entry i of the premise: where the conclusion has its literal, the coefficient there is what the rule makes of it.
fn coefficient_agrees(
    nodes: &[u32],
    by: By,
    coeffs: &[i64],
    keys: &[u32],
    slots: &[u16],
    i: usize,
    m: usize,
) -> bool
    requires by_is { ByIs by }
    requires i_lt_max_entries { (i < max_entries) × (left_at + i < length coeffs.now) × (left_at + i < length keys.now) × Variable nodes.now (variable_of (get_or (placed left_at keys.now) i 0)) × Within max_total (get_or (placed left_at coeffs.now) i (pos 0)) }
    requires keyed { Keyed nodes.now conclusion_at keys.now slots.now m × (conclusion_at + m ≤ length coeffs.now) }
    ensures { AgreesIs nodes.now (map_of by) (placed left_at coeffs.now) (placed left_at keys.now) i (placed conclusion_at coeffs.now) (placed conclusion_at keys.now) m result }
{
    let j = sums::find(nodes, keys, slots, CONCLUSION, m, keys[LEFT + i]);
    if j >= m {
        return true;
    }
    same_integer(apply(by, coeffs[LEFT + i]), coeffs[CONCLUSION + j])
}

// Whether every coefficient that both have is what the rule makes of the premise's.
fn coefficients_agree(
    nodes: &[u32],
    by: By,
    coeffs: &[i64],
    keys: &[u32],
    slots: &[u16],
    n: usize,
    m: usize,
) -> bool
    requires by_is { ByIs by }
    requires listed { Listed nodes.now left_at left_at coeffs.now keys.now n × Bounded max_total (placed left_at coeffs.now) n }
    requires keyed { Keyed nodes.now conclusion_at keys.now slots.now m × (conclusion_at + m ≤ length coeffs.now) }
    ensures { AllAgree nodes.now (map_of by) (placed left_at coeffs.now) (placed left_at keys.now) n (placed conclusion_at coeffs.now) (placed conclusion_at keys.now) m result }
{
    for i in 0..n {
        if !coefficient_agrees(nodes, by, coeffs, keys, slots, i, m) {
            return false;
        }
    }
    true
}

// The conclusion against the premise: constants 29, keys 30, coefficients 31.
fn by_check(
    nodes: &[u32],
    by: By,
    premise: Inequality,
    conclusion: Inequality,
    coeffs: &[i64],
    keys: &[u32],
    slots: &[u16],
) -> Answer
    requires by_is { ByIs by × Within max_numeral premise.constant × Within max_numeral conclusion.constant }
    requires keyed { Keyed nodes.now left_at keys.now slots.now premise.count × (left_at + premise.count ≤ length coeffs.now) × Bounded max_total (placed left_at coeffs.now) premise.count }
    requires keyed_2 { Keyed nodes.now conclusion_at keys.now slots.now conclusion.count × (conclusion_at + conclusion.count ≤ length coeffs.now) }
    ensures { CheckIs nodes.now (map_of by) premise conclusion (placed left_at coeffs.now) (placed left_at keys.now) (placed conclusion_at coeffs.now) (placed conclusion_at keys.now) result }
{
    let n = premise.count;
    let m = conclusion.count;

    // Verify constants match
    if !same_integer(apply(by, premise.constant), conclusion.constant) {
        return Err(Refusal::ConstantsDiffer);
    }

    // Verify premise and conclusion share same keys
    if !sums::assert_pbsum_same_keys(nodes, coeffs, keys, slots, LEFT, LEFT, n, CONCLUSION, m) {
        return Err(Refusal::LiteralMissing);
    }

    // Verify pseudo-boolean sums match
    if !coefficients_agree(nodes, by, coeffs, keys, slots, n, m) {
        return Err(Refusal::CoefficientDiffers);
    }
    Ok(matching::both(
        matching::all_names(nodes, keys, LEFT, n),
        matching::all_names(nodes, keys, CONCLUSION, m),
    ))
}

// ---- cp_multiplication, cp_division
// The premise's term, the number and the conclusion's term: one premise, one argument that is a number from 0 on, one conclusion.
fn scalar_of(
    nodes: &[u32],
    commands: &[u16],
    premises: &[u32],
    args: &[u32],
    conclusion: &[u32],
) -> Result<(u32, i64, u32), Refusal>
    requires step { Step nodes.now commands.now premises.now args.now }
    requires all_nodes { AllNodes nodes.now conclusion.now }
    ensures { ScaledIs cp_multiplication times_terms Anything nodes.now commands.now premises.now args.now conclusion.now result }
{
    let (clause, arg) = one_premise(nodes, commands, premises, args)?;
    let scalar = matching::as_constant(nodes, arg).ok_or(Refusal::ExpectedAnyInteger)?;

    // Multiplying by a negative scalar would flip the inequality
    if integer::less(scalar, 0) {
        return Err(Refusal::ExpectedNonnegInteger);
    }

    // Check there is exactly one conclusion
    if conclusion.len() != 1 {
        return Err(Refusal::WrongLengthOfClause);
    }
    Ok((clause, scalar, conclusion[0]))
}

// An inequality times a number.
pub fn cp_multiplication(
    nodes: &[u32],
    commands: &[u16],
    premises: &[u32],
    args: &[u32],
    conclusion: &[u32],
    coeffs: &mut [i64],
    keys: &mut [u32],
    slots: &mut [u16],
) -> Answer
    requires step { Step nodes.now commands.now premises.now args.now }
    requires all_nodes { AllNodes nodes.now conclusion.now }
    requires rooms { Rooms nodes.now coeffs.old keys.old slots.old }
    ensures { RuleIs cp_multiplication nodes.now commands.now premises.now args.now conclusion.now result }
{
    let (clause, scalar, conclusion) = scalar_of(nodes, commands, premises, args, conclusion)?;
    let (premise, conclusion) = unwrap_two(nodes, clause, conclusion, coeffs, keys, slots)?;
    by_check(
        nodes,
        By::Times(scalar),
        premise,
        conclusion,
        coeffs,
        keys,
        slots,
    )
}

// The premise's term, the number and the conclusion's term: one premise, one argument that is a number from 1 on, one conclusion.
fn divisor_of(
    nodes: &[u32],
    commands: &[u16],
    premises: &[u32],
    args: &[u32],
    conclusion: &[u32],
) -> Result<(u32, i64, u32), Refusal>
    requires step { Step nodes.now commands.now premises.now args.now }
    requires all_nodes { AllNodes nodes.now conclusion.now }
    ensures { ScaledIs cp_division over_terms Positive nodes.now commands.now premises.now args.now conclusion.now result }
{
    let (clause, arg) = one_premise(nodes, commands, premises, args)?;
    let divisor = matching::as_constant(nodes, arg).ok_or(Refusal::ExpectedAnyInteger)?;

    // Rule only allows for positive integer arguments
    if integer::less(divisor, 0) {
        return Err(Refusal::ExpectedNonnegInteger);
    }
    if integer::is_zero(divisor) {
        return Err(Refusal::DivOrModByZero);
    }

    // Check there is exactly one conclusion
    if conclusion.len() != 1 {
        return Err(Refusal::WrongLengthOfClause);
    }
    Ok((clause, divisor, conclusion[0]))
}

// An inequality divided by a number, rounded up.
pub fn cp_division(
    nodes: &[u32],
    commands: &[u16],
    premises: &[u32],
    args: &[u32],
    conclusion: &[u32],
    coeffs: &mut [i64],
    keys: &mut [u32],
    slots: &mut [u16],
) -> Answer
    requires step { Step nodes.now commands.now premises.now args.now }
    requires all_nodes { AllNodes nodes.now conclusion.now }
    requires rooms { Rooms nodes.now coeffs.old keys.old slots.old }
    ensures { RuleIs cp_division nodes.now commands.now premises.now args.now conclusion.now result }
{
    let (clause, divisor, conclusion) = divisor_of(nodes, commands, premises, args, conclusion)?;
    let (premise, conclusion) = unwrap_two(nodes, clause, conclusion, coeffs, keys, slots)?;
    by_check(
        nodes,
        By::Over(divisor),
        premise,
        conclusion,
        coeffs,
        keys,
        slots,
    )
}

// ---- cp_saturation
// The premise's term and the conclusion's term: one premise, no argument, one conclusion.
fn capped_terms(
    nodes: &[u32],
    commands: &[u16],
    premises: &[u32],
    args: &[u32],
    conclusion: &[u32],
) -> Result<(u32, u32), Refusal>
    requires step { Step nodes.now commands.now premises.now args.now }
    requires all_nodes { AllNodes nodes.now conclusion.now }
    ensures { CappedIs nodes.now commands.now premises.now args.now conclusion.now result }
{
    if premises.len() != 1 {
        return Err(Refusal::WrongNumberOfPremises);
    }
    if args.len() != 0 {
        return Err(Refusal::WrongNumberOfArgs);
    }
    let clause = clause_of(nodes, commands, premises[0]);
    if clause.len() != 1 {
        return Err(Refusal::WrongLengthOfClause);
    }

    // Check there is exactly one conclusion
    if conclusion.len() != 1 {
        return Err(Refusal::WrongLengthOfClause);
    }
    Ok((clause[0], conclusion[0]))
}

// Whether each of the n coefficients at a place is at least 0.
pub fn nonnegative(coeffs: &[i64], at: usize, n: usize) -> bool
    requires { (at ≤ max_place) × (at + n ≤ length coeffs.now) × (n ≤ max_entries) }
    ensures { Nonnegative (placed at coeffs.now) n result }
{
    for c in &coeffs[at..at + n] {
        if integer::less(*c, 0) {
            return false;
        }
    }
    true
}

// Saturation's own checks, 32, then the check with the smaller of coefficient and constant.
fn capped_check(
    nodes: &[u32],
    premise: Inequality,
    conclusion: Inequality,
    coeffs: &[i64],
    keys: &[u32],
    slots: &[u16],
) -> Answer
    requires within { Within max_numeral premise.constant × Within max_numeral conclusion.constant }
    requires keyed { Keyed nodes.now left_at keys.now slots.now premise.count × (left_at + premise.count ≤ length coeffs.now) × Bounded max_total (placed left_at coeffs.now) premise.count }
    requires keyed_2 { Keyed nodes.now conclusion_at keys.now slots.now conclusion.count × (conclusion_at + conclusion.count ≤ length coeffs.now) }
    ensures { CappedCheck nodes.now premise conclusion (placed left_at coeffs.now) (placed left_at keys.now) (placed conclusion_at coeffs.now) (placed conclusion_at keys.now) result }
{
    // Saturation is only sound if the constant and all coefficients are non-negative
    if integer::less(premise.constant, 0) {
        return Err(Refusal::NegativeInSaturation);
    }
    if !nonnegative(coeffs, LEFT, premise.count) {
        return Err(Refusal::NegativeInSaturation);
    }
    by_check(
        nodes,
        By::Cap(premise.constant),
        premise,
        conclusion,
        coeffs,
        keys,
        slots,
    )
}

// An inequality with its coefficients capped by its constant.
pub fn cp_saturation(
    nodes: &[u32],
    commands: &[u16],
    premises: &[u32],
    args: &[u32],
    conclusion: &[u32],
    coeffs: &mut [i64],
    keys: &mut [u32],
    slots: &mut [u16],
) -> Answer
    requires step { Step nodes.now commands.now premises.now args.now }
    requires all_nodes { AllNodes nodes.now conclusion.now }
    requires rooms { Rooms nodes.now coeffs.old keys.old slots.old }
    ensures { RuleIs cp_saturation nodes.now commands.now premises.now args.now conclusion.now result }
{
    let (clause, conclusion) = capped_terms(nodes, commands, premises, args, conclusion)?;
    let (premise, conclusion) = unwrap_two(nodes, clause, conclusion, coeffs, keys, slots)?;
    capped_check(nodes, premise, conclusion, coeffs, keys, slots)
}

// ---- cp_normalize
// A relation and its normalized form are the same.
pub fn cp_normalize(
    nodes: &[u32],
    commands: &[u16],
    premises: &[u32],
    args: &[u32],
    conclusion: &[u32],
    coeffs: &mut [i64],
    keys: &mut [u32],
) -> Answer
    requires all_nodes { AllNodes nodes.now conclusion.now }
    requires lines { Lines coeffs.old keys.old }
    ensures { RuleIs cp_normalize nodes.now commands.now premises.now args.now conclusion.now result }
{
    if conclusion.len() != 1 {
        return Err(Refusal::WrongLengthOfClause);
    }
    normalize::normalized(nodes, conclusion[0], coeffs, keys)
}
