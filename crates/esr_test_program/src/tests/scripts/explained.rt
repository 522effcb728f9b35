//! Queries explained.

use crate::tests::written::check_written;
use esr_explain::Explaining;
use esr_history::Watched;
use esr_lint::NoObserver;
use esr_script::{RunFault, render_query};
use std::alloc::Global;
use std::process::Abort;

const BANK: &str = "item checking 500\n\
        item savings 1500\n\
        begin transfer update 200\n\
        begin report query 200\n\
        write transfer checking 400\n\
        read report checking\n\
        read report savings\n\
        write transfer savings 1600\n\
        commit transfer\n\
        commit report\n";

const BANK_EXPLAINED: &str = "read checking 400 nearest 500 off 100\n\
        read savings 1500 nearest 1500 off 0\n\
        charge read transfer checking amount 100 step 4 import left 100 of 200 export left 100 of 200\n\
        charge write transfer savings amount 100 step 6 import left 0 of 200 export left 0 of 200\n\
        before -\n\
        after transfer\n\
        distance 100 import 200\n";

const STRICT: &str = "item a 0\n\
        begin u update 9\n\
        write u a 5\n\
        commit u\n\
        begin q query 9 strict\n\
        begin v update 9\n\
        write v a 0\n\
        read q a\n\
        abort v\n\
        commit q\n";

const WEIGHTED: &str = "item a 10 weight 900\n\
        begin u update 5000\n\
        begin q query 2000\n\
        read q b\n\
        write u a 12\n\
        read q a\n\
        commit u\n\
        commit q\n";

const WEIGHTED_EXPLAINED: &str = "read a 12 nearest 12 off 0\n\
        charge read u a amount 1800 step 5 import left 200 of 2000 export left 3200 of 5000\n\
        before u\n\
        after -\n\
        distance 0 import 1800\n";

// in no placement are both reads as they were
const TORN: &str = "item a 10 weight 900\n\
        item b 0 weight 900\n\
        begin u update 5000\n\
        begin q query 5000\n\
        read q a\n\
        write u a 9\n\
        write u b 1\n\
        read q b\n\
        commit u\n\
        commit q\n";

const TORN_EXPLAINED: &str = "read a 10 nearest 10 off 0\n\
        read b 1 nearest 0 off 900\n\
        charge write u a amount 900 step 4 import left 4100 of 5000 export left 4100 of 5000\n\
        charge read u b amount 900 step 6 import left 3200 of 5000 export left 3200 of 5000\n\
        before -\n\
        after u\n\
        distance 900 import 1800\n";

// the values of the nearest placement are those after v and before w; a repeated read is shown twice
const BETWEEN: &str = "item a 1\n\
        item b 7\n\
        begin v update 9\n\
        write v a 2\n\
        write v a 3\n\
        commit v\n\
        begin w update 9\n\
        begin q query 9\n\
        read q a\n\
        read q a\n\
        write w a 4\n\
        write w b 8\n\
        commit w\n\
        read q b\n\
        begin late query 0\n\
        read late b\n\
        commit late\n\
        begin x update 0\n\
        write x b 0\n\
        abort x\n\
        commit q\n";

const BETWEEN_EXPLAINED: &str = "read a 3 nearest 3 off 0\n\
        read a 3 nearest 3 off 0\n\
        read b 8 nearest 7 off 1\n\
        charge write w a amount 2 step 9 import left 7 of 9 export left 7 of 9\n\
        before v\n\
        after w\n\
        distance 1 import 2\n";

fn check_explanation(
    rt: &impl Abort,
    alloc: Global,
    script: &str,
    name: &str,
    ends: Result<(), RunFault>,
    text: &str,
) {
    let mut reader = Watched::new(script.as_bytes());
    let mut writer = Watched::new(Vec::new(alloc));
    let ended = render_query(
        alloc,
        &mut reader,
        &mut writer,
        name,
        &Explaining,
        &mut NoObserver,
    );
    assert!(rt; ended == ends, "{} ends so", name);
    check_written(rt, &writer, text, name);
}

/// A definition specifies the lines: one that shows a charge's step, or the rest of its limit, an event late would be
/// proved.
#[test]
fn charges_of_the_bank_are_explained(rt: HostRuntime) {
    check_explanation(&rt, rt.alloc(), BANK, "report", Ok(()), BANK_EXPLAINED);
}

/// A definition could omit weights: values 2 apart are charged 1800 here; or the updates that a strict report must
/// follow.
#[test]
fn strict_and_weighted_queries_are_explained(rt: HostRuntime) {
    check_explanation(
        &rt,
        rt.alloc(),
        STRICT,
        "q",
        Ok(()),
        "read a 0 nearest 5 off 5\n\
            charge read v a amount 5 step 7 import left 4 of 9 export left 4 of 9\n\
            before u\n\
            after -\n\
            distance 5 import 5\n",
    );
    check_explanation(&rt, rt.alloc(), WEIGHTED, "q", Ok(()), WEIGHTED_EXPLAINED);
}

/// A definition could show current values next to the reads, or show a repeated read once, and would be proved.
#[test]
fn reads_are_described_next_to_the_nearest_placement(rt: HostRuntime) {
    check_explanation(&rt, rt.alloc(), TORN, "q", Ok(()), TORN_EXPLAINED);
    check_explanation(&rt, rt.alloc(), BETWEEN, "q", Ok(()), BETWEEN_EXPLAINED);
}

/// The contract permits out of memory in place of this refusal, also if the query is still active.
#[test]
fn only_committed_queries_are_explained(rt: HostRuntime) {
    let none = Err(RunFault::NotACommittedQuery);
    let open = "item a 0\nbegin q query 9\nread q a\n";
    for name in &["nobody", "transfer", "checking", ""] {
        check_explanation(&rt, rt.alloc(), BANK, name, none, "");
    }
    check_explanation(&rt, rt.alloc(), open, "q", none, "");
}
