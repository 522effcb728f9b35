//! The text of an explanation, in its order: reads, charges, before, after, sums.
ghost use Rattle.std.specs.Prelude.{◌≡◌, ◌++◌, IfOk, OnOk, map};
ghost use Rattle.esr_items.specs.Weights.{weighted};
ghost use Rattle.esr_audit.specs.Findings.{summary, summary_of};
ghost use Rattle.esr_explain.specs.Explain.{explanation, explanation_lines, distance_and_import_line};

use crate::charges::push_charges;
use crate::explained::Explanation;
use crate::reads::push_reads;
use esr_audit::Finding;
use esr_history::{History, NoMemory};
use esr_items::Weighted;
use esr_report::{Names, names_line, push_line};
use std::alloc::{AllocError, Global};

/// Appends the line of the distance and of the import.
fn distance_and_import_line(out: &mut Vec<u8>, distance: u64, import: u64) -> Result<(), AllocError>
    ensures { OnOk result (out.new.items ≡ out.old.items ++ distance_and_import_line distance import) }
{
    let mut distance_digits = itoa::Buffer::new();
    let mut import_digits = itoa::Buffer::new();
    let words = [
        distance_digits.format(distance),
        "import",
        import_digits.format(import),
    ];
    push_line(out, "distance", &words)
}

/// Returns the text of an explanation.
fn text_of(
    alloc: Global,
    items: &Names,
    transactions: &Names,
    explained: &Explanation<'_>,
) -> Result<Vec<u8>, AllocError>
    ensures { IfOk result (λ v. v.items ≡ explanation_lines items.now transactions.now explained.now.reads.items
        explained.now.charges.items (map (λ t. t.0) explained.now.before.now) (map (λ t. t.0) explained.now.after.items)
        explained.now.distance explained.now.import) }
{
    let mut out = Vec::new(alloc);
    push_reads(&mut out, items, &explained.reads)?;
    push_charges(&mut out, items, transactions, &explained.charges)?;
    names_line(&mut out, "before", transactions, explained.before)?;
    names_line(&mut out, "after", transactions, &explained.after)?;
    distance_and_import_line(&mut out, explained.distance, explained.import)?;
    Ok(out)
}

/// Returns the text of the explanation of a query with this finding.
pub fn explanation(
    alloc: Global,
    items: &Names,
    transactions: &Names,
    history: &History<Weighted>,
    finding: &Finding,
) -> Result<Vec<u8>, NoMemory>
    ensures { summary finding.now ≡ summary_of weighted history.now.schedule finding.now.query.0
        → IfOk result
        (λ v. v.items ≡ explanation weighted history.now.schedule items.now transactions.now finding.now.query.0) }
{
    let explained = Explanation::of(alloc, history, finding)?;
    Ok(text_of(alloc, items, transactions, &explained)?)
}
