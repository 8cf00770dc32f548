// The checker as C calls it: both functions of `checker`, under the names that bindings/c/cutting_planes.h declares and with every clause.
#![tactic(auto)]

ghost use Rattle.std.specs.Prelude.{◌≡◌, ◌≤◌, length, take, drop};
ghost use Rattle.calculus.specs.Clauses.{Sound, SoundBoth};
ghost use Rattle.calculus.specs.OpbReport.{written_both};
ghost use Rattle.calculus.specs.Report.{min_report, min_table, written};

// Checks a text: `checker::cutting_planes_check`.
#[unsafe(no_mangle)]
pub extern "C" fn cutting_planes_check(text: &[u8], nodes: &mut [u32], report: &mut [u8]) -> usize
    ensures value { result ≡ length (written (length report.old) (length nodes.old) text.now) }
    ensures report_after { take result report.new ≡ written (length report.old) (length nodes.old) text.now }
    ensures report_unchanged { drop result report.new ≡ drop result report.old }
    ensures nodes_unchanged { (min_report ≤ length report.old → min_table ≤ length nodes.old → ⊥) → nodes.new ≡ nodes.old }
    ensures sound { Sound text.now (take result report.new) }
{
    checker::cutting_planes_check(text, nodes, report)
}

// Checks an OPB text and the proof text behind it: `checker::cutting_planes_check_opb`.
#[unsafe(no_mangle)]
pub extern "C" fn cutting_planes_check_opb(
    opb: &[u8],
    text: &[u8],
    nodes: &mut [u32],
    report: &mut [u8],
) -> usize
    ensures value { result ≡ length (written_both (length report.old) (length nodes.old) opb.now text.now) }
    ensures report_after { take result report.new ≡ written_both (length report.old) (length nodes.old) opb.now text.now }
    ensures report_unchanged { drop result report.new ≡ drop result report.old }
    ensures nodes_unchanged { (min_report ≤ length report.old → min_table ≤ length nodes.old → ⊥) → nodes.new ≡ nodes.old }
    ensures sound_both { SoundBoth opb.now text.now (take result report.new) }
{
    checker::cutting_planes_check_opb(opb, text, nodes, report)
}
