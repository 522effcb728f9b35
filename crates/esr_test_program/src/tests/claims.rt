//! Bundles with the scripts that they are about. A claim is proved; its line is compared byte for byte, and no clause
//! contains the text of a fault.

use esr_commands::{claim_of, detail_of};
use esr_history::Watched;
use esr_lint::NoObserver;
use esr_script::ask;
use esr_views::AuditedQuery;
use std::alloc::{AllocError, Global};
use std::process::Abort;
use std::str::from_utf8;

/// A report that is 1 away from the state after both updates, and one that read nothing.
const SCRIPT: &str = "item a 0\n\
        item b 0\n\
        begin report query 100\n\
        begin first update 100\n\
        begin second update 100\n\
        begin other query 0\n\
        read report a\n\
        write first a 10\n\
        commit first\n\
        write second a 1\n\
        write second b 8\n\
        commit second\n\
        read report b\n\
        commit other\n\
        commit report\n";

const BUNDLE: &str =
    r#"{"certificate":{"back_flow":[0],"chain_flow":[[0,0,1],[1,0]],"set":[0,1],"worth":1},"problem":{"before":[[0,1]],"chains":[{"costs":[0,10,1],"item":0,"writers":[0,1]},{"costs":[8,0],"item":1,"writers":[1]}],"updates":[2,3]}}"#;

/// The same updates, one of which left another value: the bundle is valid, and of another problem.
const UNLIKE: &str =
    r#"{"certificate":{"back_flow":[0],"chain_flow":[[0,0,1],[1,0]],"set":[0,1],"worth":1},"problem":{"before":[[0,1]],"chains":[{"costs":[0,9,1],"item":0,"writers":[0,1]},{"costs":[8,0],"item":1,"writers":[1]}],"updates":[2,3]}}"#;

const CHANGED: &str =
    r#"{"certificate":{"back_flow":[0],"chain_flow":[[0,0,1],[1,0]],"set":[0,1],"worth":0},"problem":{"before":[[0,1]],"chains":[{"costs":[0,10,1],"item":0,"writers":[0,1]},{"costs":[8,0],"item":1,"writers":[1]}],"updates":[2,3]}}"#;

/// Returns the line of the claim of a bundle about a query.
fn line_of(
    alloc: Global,
    audited: &AuditedQuery,
    name: &str,
    bundle: &str,
) -> Result<Vec<u8>, AllocError> {
    let claim = claim_of(alloc, audited, bundle.as_bytes())?;
    claim.line(alloc, name)
}

/// Returns whether that line is this one.
fn is_line(alloc: Global, audited: &AuditedQuery, name: &str, bundle: &str, wanted: &str) -> bool {
    match line_of(alloc, audited, name, bundle) {
        Ok(line) => from_utf8(&line) == Ok(wanted),
        Err(_) => false,
    }
}

/// Compares the line about a bundle and a query of the script.
fn claims(rt: &impl Abort, alloc: Global, name: &str, bundle: &str, wanted: &str) {
    let mut reader = Watched::new(SCRIPT.as_bytes());
    let Ok(audited) = ask(alloc, &mut reader, name, &mut NoObserver) else {
        panic!(rt; "a committed query");
    };
    assert!(rt;
        is_line(alloc, &audited, name, bundle, wanted),
        "{} is told",
        wanted
    );
}

/// The same problem, another query's, one of as many updates, a fault, and bytes that are not a bundle.
#[test]
fn a_bundle_is_of_one_query(rt: HostRuntime) {
    let alloc = rt.alloc();
    claims(&rt, alloc, "report", BUNDLE, "valid 1 of report\n");
    claims(&rt, alloc, "other", BUNDLE, "valid 1, not of other\n");
    claims(&rt, alloc, "report", UNLIKE, "valid 1, not of report\n");
    claims(&rt, alloc, "report", CHANGED, "invalid 6\n");
    claims(&rt, alloc, "report", "{}", "bad 2\n");
}

/// The texts for people.
#[test]
fn faults_are_described(rt: HostRuntime) {
    let detail = detail_of(rt.alloc(), CHANGED.as_bytes());
    match &detail {
        Ok(Some(text)) => {
            assert!(&rt; text.as_str() == "cost of the set is 1, but worth is 0");
        }
        _ => panic!(&rt; "a detail"),
    }
}
