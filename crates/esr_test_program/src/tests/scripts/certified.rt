//! Queries certified.

ghost use Rattle.std.specs.Prelude.{◌≡◌, false};
ghost use Rattle.esr_base.specs.Watch.{failed};

use crate::tests::written::{check_narrow, check_written};
use esr_history::Watched;
use esr_lint::NoObserver;
use esr_script::{RunFault, certify, certify_steps};
use esr_test_devices::{Way, cut_after, is_cut, narrow_until};
use std::alloc::Global;
use std::io::{Read, Write};
use std::process::Abort;

const THIRD_ITEM: &str = "item a 0\n\
        item b 0\n\
        item c 0\n\
        begin q query 9\n\
        begin u1 update 9\n\
        begin u2 update 9\n\
        read q a\n\
        write u1 a 6\n\
        write u1 c 1\n\
        commit u1\n\
        read u2 c\n\
        write u2 b 2\n\
        commit u2\n\
        read q b\n\
        commit q\n\
        audit q\n";

const BUNDLE: &str =
    "{\"certificate\":{\"back_flow\":[2],\"chain_flow\":[[0,2],[2,0]],\"set\":[],\"worth\":2},\"problem\":{\"before\":[[0,1]],\"chains\":[{\"costs\":[0,6],\"item\":0,\"writers\":[0]},{\"costs\":[2,0],\"item\":1,\"writers\":[1]}],\"updates\":[2,3]}}\n";

const LITTLE: &str = "item a 7\n\
        begin q query 0\n\
        commit q\n\
        audit q\n\
        begin r query 0\n\
        read r a\n\
        commit r\n\
        audit r\n\
        audit a\n";

/// Two scripts whose queries are not certified, with the fault that ends the run.
static CUT_SHORT: [(&str, RunFault); 2] = [
    // The query is committed, but the line after it is too long.
    (
        "item a 0\n\
            begin q query 9\n\
            commit q\n\
            aaaaaaaaaaaaaaaaaaaaaaaaaaaaaaaaaaaaaaaaaaaaaaaaaaaaaaaaaaaaaaaaaaaaaaaaaaaaaaaaaaaaaaaaaaaaaaaaaaaaaaaaaaaaaaaaaaaaaaaaaaaaaaaaaaaaaaaaaaaaaaaaaaaaaaaaaaaaaaaaaaaaaaaaaaaaaaaaaaaaaaaaaaaaaaaaaaaaaaaaaaaa\n",
        RunFault::LineTooLong,
    ),
    // The script ends while the query is active.
    (
        "item a 0\nbegin q query 9\nread q a\n",
        RunFault::NotACommittedQuery,
    ),
];

/// Certifies the query q, without the count of augmentations.
fn certify_q<R: Read, W: Write>(
    alloc: Global,
    reader: &mut Watched<R>,
    writer: &mut Watched<W>,
) -> Result<(), RunFault>
    requires reader { failed reader.old ≡ false }
    requires writer { failed writer.old ≡ false }
{
    certify(alloc, reader, writer, "q", &mut NoObserver)
}

fn check_bundle(
    rt: &impl Abort,
    alloc: Global,
    script: &str,
    name: &str,
    steps: bool,
    ends: Result<(), RunFault>,
    text: &str,
) {
    let mut reader = Watched::new(script.as_bytes());
    let mut writer = Watched::new(Vec::new(alloc));
    let ended = if steps {
        certify_steps(alloc, &mut reader, &mut writer, name, &mut NoObserver)
    } else {
        certify(alloc, &mut reader, &mut writer, name, &mut NoObserver)
    };
    assert!(rt; ended == ends, "{} ends so", name);
    check_written(rt, &writer, text, name);
}

/// No clause specifies which maximum flow a bundle contains; here there is only one, and it goes back along the pair.
#[test]
fn order_through_a_third_item_is_certified(rt: HostRuntime) {
    check_bundle(&rt, rt.alloc(), THIRD_ITEM, "q", false, Ok(()), BUNDLE);
    check_bundle(
        &rt,
        rt.alloc(),
        THIRD_ITEM,
        "q",
        true,
        Ok(()),
        "{\"certificate\":{\"augmentations\":1,\"back_flow\":[2],\"chain_flow\":[[0,2],[2,0]],\"set\":[],\"worth\":2},\"problem\":{\"before\":[[0,1]],\"chains\":[{\"costs\":[0,6],\"item\":0,\"writers\":[0]},{\"costs\":[2,0],\"item\":1,\"writers\":[1]}],\"updates\":[2,3]}}\n",
    );
}

/// A bundle's text is a definition's: one that leaves out an empty list, or a chain without writers, would be proved.
#[test]
fn queries_that_read_little_are_certified(rt: HostRuntime) {
    check_bundle(
        &rt,
        rt.alloc(),
        LITTLE,
        "q",
        false,
        Ok(()),
        "{\"certificate\":{\"back_flow\":[],\"chain_flow\":[],\"set\":[],\"worth\":0},\"problem\":{\"before\":[],\"chains\":[],\"updates\":[]}}\n",
    );
    check_bundle(
        &rt,
        rt.alloc(),
        LITTLE,
        "r",
        false,
        Ok(()),
        "{\"certificate\":{\"back_flow\":[],\"chain_flow\":[[0]],\"set\":[],\"worth\":0},\"problem\":{\"before\":[],\"chains\":[{\"costs\":[0],\"item\":0,\"writers\":[]}],\"updates\":[]}}\n",
    );
}

/// An update that wrote nothing that was read is in no list of the bundle; the next one has position 0 there.
#[test]
fn an_update_without_a_part_is_left_out(rt: HostRuntime) {
    check_bundle(
        &rt,
        rt.alloc(),
        "item a 0\n\
            item z 0\n\
            begin q query 9\n\
            begin u update 9\n\
            begin w update 9\n\
            write w z 1\n\
            commit w\n\
            read q a\n\
            write u a 4\n\
            commit u\n\
            commit q\n",
        "q",
        false,
        Ok(()),
        "{\"certificate\":{\"back_flow\":[],\"chain_flow\":[[0,0]],\"set\":[],\"worth\":0},\"problem\":{\"before\":[],\"chains\":[{\"costs\":[0,4],\"item\":0,\"writers\":[0]}],\"updates\":[2]}}\n",
    );
}

/// A strict query's bundle contains the required updates of its set, and the flow to them.
#[test]
fn strict_report_is_certified(rt: HostRuntime) {
    check_bundle(
        &rt,
        rt.alloc(),
        "item a 0\n\
            begin u update 0\n\
            write u a 5\n\
            commit u\n\
            begin q query 9 strict\n\
            begin v update 9\n\
            write v a 0\n\
            read q a\n\
            abort v\n\
            commit q\n",
        "q",
        false,
        Ok(()),
        "{\"certificate\":{\"back_flow\":[],\"chain_flow\":[[0,5]],\"must_flow\":[5],\"set\":[0],\"worth\":5},\"problem\":{\"before\":[],\"chains\":[{\"costs\":[0,5],\"item\":0,\"writers\":[0]}],\"must\":[0],\"updates\":[1]}}\n",
    );
}

/// The contract permits out of memory in place of this refusal, whatever else the name denotes.
#[test]
fn what_is_no_committed_query_is_refused(rt: HostRuntime) {
    let refused = Err(RunFault::NotACommittedQuery);
    // The name of an item, a text that is not a name, the name of an update, and a name in an empty script.
    check_bundle(&rt, rt.alloc(), LITTLE, "a", false, refused, "");
    check_bundle(&rt, rt.alloc(), LITTLE, "no name", true, refused, "");
    check_bundle(&rt, rt.alloc(), THIRD_ITEM, "u1", false, refused, "");
    check_bundle(&rt, rt.alloc(), "", "q", false, refused, "");
}

/// The contract permits out of memory in place of each fault: the fault that ended the script must be reported.
#[test]
fn nothing_is_written_after_a_fault(rt: HostRuntime) {
    for (script, fault) in &CUT_SHORT {
        check_bundle(&rt, rt.alloc(), script, "q", false, Err(*fault), "");
        check_bundle(&rt, rt.alloc(), script, "q", true, Err(*fault), "");
    }
}

/// No clause states what is written if the reader does not specify its bytes: it could be a bundle of half a script.
#[test]
fn each_read_fails_in_turn(rt: HostRuntime) {
    let alloc = rt.alloc();
    for left in 0..THIRD_ITEM.len() + 1 {
        let mut reader = cut_after(THIRD_ITEM, 1, left);
        let mut writer = Watched::new(Vec::new(alloc));
        let ended = certify_q(alloc, &mut reader, &mut writer);
        assert!(rt; ended == Err(RunFault::Read));
        assert!(rt; is_cut(&reader, &writer));
    }
}

/// Returns whether the bundle is written by a writer that fails at this call.
fn is_written(rt: &impl Abort, alloc: Global, left: usize, way: Way) -> bool {
    let mut reader = Watched::new(THIRD_ITEM.as_bytes());
    let mut writer = narrow_until(alloc, 3, left, way);
    let ended = certify_q(alloc, &mut reader, &mut writer);
    let written = ended == Ok(());
    assert!(rt; written || ended == Err(RunFault::Write));
    assert!(rt; !reader.failed());
    check_narrow(rt, &writer, written, BUNDLE);
    written
}

/// No clause counts the calls on a device: a bundle that is written byte by byte, or never flushed, would be proved.
#[test]
fn each_write_fails_in_turn(rt: HostRuntime) {
    let alloc = rt.alloc();
    // Three bytes a call, and a flush.
    let calls = BUNDLE.len().div_ceil(3) + 1;
    for left in 0..calls + 2 {
        let written = left >= calls;
        assert!(rt; is_written(&rt, alloc, left, Way::Errs) == written);
        assert!(rt; is_written(&rt, alloc, left, Way::TakesNone) == written);
    }
}
