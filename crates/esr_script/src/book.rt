//! Writes the lines of the audit of a whole history, in the format of a script's `audit` and `totals` lines.

ghost use Rattle.std.specs.Prelude.{◌≡◌, ◌++◌, OnOk, map, flat_map};
ghost use Rattle.esr_report.specs.Lines.{order_line, totals_line};
ghost use Rattle.esr_audit.specs.Findings.{seen_summary};
ghost use Rattle.esr_script.specs.Audit.{finding_line};

use esr_audit::{Summaries, Summary};
use esr_core::Totals;
use esr_report::{Names, audit_line, name_of_transaction, order_line, totals_line};
use std::alloc::AllocError;

/// Appends the line of a query's summary.
fn push_summary(out: &mut Vec<u8>, names: &Names, summary: &Summary) -> Result<(), AllocError>
    ensures { OnOk result (out.new.items ≡ out.old.items ++ finding_line names.now (seen_summary summary.now)) }
{
    let before = summary.before.to_vec(*out.allocator())?;
    audit_line(
        out,
        names,
        name_of_transaction(names, summary.query),
        summary.distance,
        summary.import,
        &before,
    )
}

/// Appends the lines of the queries' summaries.
#[tactic(auto, using(crate::proofs::Audited::lines_more))]
fn push_summaries(out: &mut Vec<u8>, names: &Names, summaries: &[Summary]) -> Result<(), AllocError>
    ensures { OnOk result (out.new.items ≡ out.old.items
        ++ flat_map (finding_line names.now) (map seen_summary summaries.now)) }
{
    for summary in summaries {
        push_summary(out, names, summary)?;
    }
    Ok(())
}

/// Appends the lines of an audit: the serial order, the finding of each query, and the totals.
pub fn push_audit(
    out: &mut Vec<u8>,
    names: &Names,
    found: &Summaries,
    totals: Totals,
) -> Result<(), AllocError>
    ensures { OnOk result (out.new.items ≡ out.old.items
        ++ order_line names.now (map (λ t. t.0) found.now.order.items)
        ++ flat_map (finding_line names.now) (map seen_summary found.now.summaries.items)
        ++ totals_line totals.import totals.export totals.entries) }
{
    order_line(out, names, &found.order)?;
    push_summaries(out, names, &found.summaries)?;
    totals_line(out, totals.import, totals.export, totals.entries)
}
