//! Certifies a query of a script: the whole script is run without its output, and the query's bundle is written.
//!
//! A bundle contains the count of augmentations only on request: the check can bound it and not verify it, so a
//! bundle for another party is better without it. The audit's own certificate has none, so with `--steps` the problem
//! is solved again from the zero flow; its set is the same, since the smallest least set is unique.

ghost use Rattle.std.specs.Prelude.{◌≡◌, ◌++◌, ◌∷◌, [], true, false, IfOk};
ghost use Rattle.esr_bundle.specs.Bundle.{bundle};
ghost use Rattle.esr_cert.specs.Views.{certificate_of};
ghost use Rattle.esr_base.specs.Watch.{failed};
ghost use Rattle.esr_script.specs.Certify.{IsBundleLine, IsCertifiedBy};
ghost use Rattle.esr_script.specs.Replays.{IsLineOf};
ghost use Rattle.esr_script.specs.ReaderToWriter.{ReadsAndWrites};
ghost use Rattle.esr_script.specs.Text.{transaction_called};

use crate::fault::RunFault;
use crate::query_text::render_query;
use esr_audit::{Finding, certify_with_augmentation_count};
use esr_bundle::to_json;
use esr_cert::{Certificate, Problem};
use esr_history::Watched;
use esr_lint::Observer;
use esr_views::{AuditedQuery, QueryView};
use std::alloc::{AllocError, Global};
use std::io::{Read, Write};

/// Returns the bundle of a problem and a certificate, and a line feed.
fn line_of(
    alloc: Global,
    problem: &Problem,
    certificate: &Certificate,
) -> Result<Vec<u8>, AllocError>
    ensures { IfOk result (λ v. v.items ≡ bundle problem.now (certificate_of certificate.now) ++ 10 ∷ []) }
{
    let Ok(mut text) = to_json(alloc, problem, certificate) else {
        return Err(AllocError);
    };
    text.push(b'\n')?;
    Ok(text)
}

/// Returns the bundle of a finding's problem, and a line feed: with its certificate, or, if `steps`, with one that
/// contains the count of augmentations, for which the problem is solved again.
fn bundle_line(alloc: Global, finding: &Finding, steps: bool) -> Result<Vec<u8>, AllocError>
    ensures { IfOk result (λ v. IsLineOf steps finding.now v.items) }
{
    if !steps {
        return line_of(alloc, &finding.problem, &finding.certificate);
    }
    let Ok(certificate) = certify_with_augmentation_count(alloc, &finding.problem) else {
        return Err(AllocError);
    };
    let line = line_of(alloc, &finding.problem, &certificate)?;
    Ok(line)
}

/// The bundle of a query, with the count of augmentations if `steps`, and a line feed.
struct Bundling {
    steps: bool,
}

impl QueryView for Bundling {
    ghost IsTextOf = { λ b s name text. IsBundleLine b.steps s.history (transaction_called s name).0 text };

    fn text_of(&self, alloc: Global, audited: &mut AuditedQuery) -> Result<Vec<u8>, AllocError> {
        bundle_line(alloc, &audited.finding, self.steps)
    }
}

/// Runs a script without writing its output, and writes the bundle of its query of that name, and a line feed.
///
/// `NotACommittedQuery` exactly if the run has no fault and the name does not denote a committed query. After a fault
/// other than `Write` nothing was written, after `Write` a prefix of the bundle and its line feed.
pub fn certify<R: Read, W: Write, O: Observer>(
    alloc: Global,
    reader: &mut Watched<R>,
    writer: &mut Watched<W>,
    name: &str,
    observer: &mut O,
) -> Result<(), RunFault>
    requires reader { failed reader.old ≡ false }
    requires writer { failed writer.old ≡ false }
    ensures { ReadsAndWrites R.remaining W.contents reader.old reader.new writer.old writer.new
        (λ input. IsCertifiedBy false input name.now) result }
{
    render_query(
        alloc,
        reader,
        writer,
        name,
        &Bundling { steps: false },
        observer,
    )
}

/// Writes a bundle like [`certify`], but its certificate contains the count of augmentations.
pub fn certify_steps<R: Read, W: Write, O: Observer>(
    alloc: Global,
    reader: &mut Watched<R>,
    writer: &mut Watched<W>,
    name: &str,
    observer: &mut O,
) -> Result<(), RunFault>
    requires reader { failed reader.old ≡ false }
    requires writer { failed writer.old ≡ false }
    ensures { ReadsAndWrites R.remaining W.contents reader.old reader.new writer.old writer.new
        (λ input. IsCertifiedBy true input name.now) result }
{
    render_query(
        alloc,
        reader,
        writer,
        name,
        &Bundling { steps: true },
        observer,
    )
}
