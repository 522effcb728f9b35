//! Prose, pages, timelines, trace events and small scripts. No clause says what is in them.

use crate::tests::pictures::BANK;
use esr_history::Watched;
use esr_lint::{NoObserver, Notes};
use esr_page::{Page, PageMetadata};
use esr_picture::PictureView;
use esr_prose::{Passage, Prose};
use esr_script::{RunFault, render_script};
use esr_shrink::{Progress, Shrink};
use esr_timeline::{Timeline, TimelinePart};
use esr_trace_events::TraceEvents;
use esr_views::ScriptView;
use std::alloc::Global;
use std::process::Abort;
use std::str::from_utf8;

/// The whole prose about the report of the bank.
static BANK_TOLD: &str = "\
What report read was never a consistent state up to its commit. The nearest
state, before all updates, differs by 100 in one read. No allowed set of updates
is nearer: the certificate of esr certify report proves it.

report is a query that began in line 3 and committed in line 10.

It read 2 values:
  - checking 500, in line 4, as at the start
  - savings 1,600, in line 9, as transfer had left it

In total they are 2,100.

It was charged 100 of its limit of 200:
  - 100 in line 6: transfer changed checking from 500 to 400, and report had
    read it

In the nearest state, the values were:
  - savings 1,500: the values read are off by 100
  - checking 500, as read

In total they were 2,000 there: the sum of the values read is off by 100.

Charges are upper bounds, made before the outcome is known: it was charged 100
and is off by 100.
";

/// Lines that make no entry, a value that was undone, an item with a weight, a strict query, one that aborted and one
/// that is active.
const DAY: &str = "# a day\n\
        item till 0\n\
        item gold 5 weight 3\n\
        begin morning update 0\n\
        wirte morning till 500\n\
        write morning till 500\n\
        commit morning\n\
        begin report query 900 strict\n\
        begin report query 1\n\
        begin evening update 900\n\
        write evening till 90\n\
        write evening gold 7\n\
        read report till\n\
        read report gold\n\
        begin other query 900\n\
        read other gold\n\
        begin active query 900\n\
        read active till\n\
        abort evening\n\
        abort other\n\
        commit report\n";

/// Renders a view of a script, and compares its result and its output.
pub fn script_views<S: ScriptView>(
    rt: &impl Abort,
    alloc: Global,
    script: &str,
    view_of: &S,
    ends: Result<(), RunFault>,
    text: &str,
) {
    let mut reader = Watched::new(script.as_bytes());
    let mut writer = Watched::new(Vec::new(alloc));
    let ended = render_script(alloc, &mut reader, &mut writer, view_of, &mut NoObserver);
    assert!(rt; ended == ends);
    let written = from_utf8(writer.inner().as_slice()).unwrap_or("");
    assert!(rt; written == text, "it is {}", written);
}

/// Renders a view of a script, and searches the output for texts.
fn has<S: ScriptView>(rt: &impl Abort, alloc: Global, script: &str, view_of: &S, texts: &[&str]) {
    let mut reader = Watched::new(script.as_bytes());
    let mut writer = Watched::new(Vec::new(alloc));
    let ended = render_script(alloc, &mut reader, &mut writer, view_of, &mut NoObserver);
    assert!(rt; ended == Ok(()));
    let written = from_utf8(writer.inner().as_slice()).unwrap_or("");
    for text in texts {
        assert!(rt; written.contains(*text), "it has {}", text);
    }
}

/// The lines, the sums and the order of the sentences.
#[test]
fn a_report_of_the_bank_is_described(rt: HostRuntime) {
    let prose = Prose { name: "report" };
    has(&rt, rt.alloc(), BANK, &prose, &[BANK_TOLD]);
}

/// Cases that the README's example lacks: each of these was wrong, or missing, in some draft.
#[test]
fn outcomes_of_values_and_queries_are_described(rt: HostRuntime) {
    let alloc = rt.alloc();
    let report = [
        "What report read was never, up to its commit, a consistent state with all\nupdates that committed before report began. The nearest such state, ",
        "had committed before it began, so states without it\nare excluded.",
        "allowed set of updates is nearer: the certificate of esr certify report proves\nit.\n\n",
        "  - gold 5: the values read are off by 6, because a difference counts 3 times\n",
        "report is a strict query that began in line 8 and committed in line 21.",
        "  - till 90, in line 13, which evening had written but not committed; it aborted\n    later, in line 19\n",
        "; a difference of gold counts 3 times",
        "By item: till 410, gold 6. By update: evening 416.",
    ];
    has(&rt, alloc, DAY, &Prose { name: "report" }, &report);
    let other = [
        "other aborted, so it is not compared with any state.",
        "aborted in line 20.",
    ];
    has(&rt, alloc, DAY, &Prose { name: "other" }, &other);
    let active = ["its error would be at most the 410 that it has been charged."];
    has(&rt, alloc, DAY, &Prose { name: "active" }, &active);
}

/// The contract permits out of memory in place of this refusal.
#[test]
fn only_queries_are_described(rt: HostRuntime) {
    let alloc = rt.alloc();
    let refused = Err(RunFault::NotACommittedQuery);
    for name in ["transfer", "checking", "<"] {
        script_views(&rt, alloc, BANK, &Prose { name }, refused, "");
    }
}

/// Returns a page with the details of `worst` queries.
fn page<'a>(worst: u64, notes: &'a Notes) -> Page<'a, TimelinePart, PictureView, Passage> {
    Page {
        worst,
        timeline: &TimelinePart,
        picture: &PictureView,
        words: &Passage,
        metadata: PageMetadata {
            file: Some("<bank>"),
            date: Some("27 Nov 2026"),
            version: "1.2.3",
            notes,
        },
    }
}

/// A page of any content would keep its contract.
#[test]
fn a_page_has_each_part(rt: HostRuntime) {
    let texts = [
        "<p>1 committed query among 1 committed update.</p>",
        "<dd><a href='#q-report'>report</a>, 100</dd>",
        "<li><span class='bin'>off by 100 to 999</span><span class='bar'><i class='dis' style='width:80%'></i><b>1</b></span></li>",
        "<li><a href='#q-report' title='report: limit 200, charged 100, off by 100'>",
        "<tr id='r-report'><th scope='row'><a href='#q-report'>report</a></th><td class='num'>100</td><td class='num'>100</td><td class='num'>100</td><td class='num'>200</td><td class='num'>100</td><td class='num'>2</td><td>query</td><td>committed</td><td class='num'>1</td></tr>",
        "<tr><th scope='row'>transfer</th><td class='num'>100</td><td class='num'>1</td><td class='num'>200</td><td>committed</td></tr>",
        "aria-label='Timeline of report'",
        "<section id='q-report'><h3>report: off by 100, its sum by 100</h3>",
        "<svg xmlns=",
        "<li>savings 1,600, in line 9, as transfer had left it</li>",
        "<p class='order'>transfer</p>",
    ];
    let alloc = rt.alloc();
    let notes = Notes::new(alloc);
    has(&rt, alloc, BANK, &page(10, &notes), &texts);
    let texts = [
        "<td class='num'>-</td><td class='num'>6</td><td class='num'>-</td><td class='num'>900</td><td class='num'>894</td><td class='num'>1</td><td>query</td><td>aborted</td>",
        "<td>still active</td>",
        "<h2 id='all'>All queries</h2>",
    ];
    has(&rt, alloc, DAY, &page(0, &notes), &texts);
}

/// The name of a file may contain any letter, and a line with an error any printable one.
#[test]
fn a_page_names_its_origin_and_the_lines_with_errors(rt: HostRuntime) {
    let alloc = rt.alloc();
    let notes = Notes::new(alloc);
    let origin = ["<p class='origin'>\u{ff1c}bank>, 27 Nov 2026, esr 1.2.3</p>\n<p>1 committed"];
    has(&rt, alloc, BANK, &page(10, &notes), &origin);
    notes.add(&"line 3: unknown command \"a&b\"");
    let errors = [
        "<div class='errors' role='alert'><p>1 line of the script has an error and is left out here.",
        "<li>line 3: unknown command \"a\u{ff06}b\"</li>\n</ul></div>\n",
    ];
    has(&rt, alloc, BANK, &page(10, &notes), &errors);
}

/// What the timeline of the bank has, of each kind of sign one.
static BANK_TIMELINE: [&str; 15] = [
    "<title id='all-timeline-title'>What happened, step by step</title>\n",
    ">report</text>\n",
    ">limit 200</text>\n",
    ">charged 100</text>\n",
    "<title>step 2, line 4: report read checking: 500 (opening)</title><circle class='mr' ",
    "<title>step 4, line 6: transfer wrote checking: 400</title><rect class='mw' ",
    "<title>step 4, line 6: transfer charged report 100 for checking: 500 to 400</title></path>\n",
    ">+100 for checking</text>\n",
    ">500 to 400</text>\n",
    "<g class='tn' transform='scale(",
    "<title>step 7, line 9: report read savings: 1,600 (of transfer, step 5), which is 1,500 (opening) in the nearest state; transfer wrote 1,600 in step 5</title><circle class='mo' ",
    "<title>step 8, line 10: report committed</title>",
    ">off by 100</text>\n",
    "<rect class='bo' ",
    ">not in the nearest state</text>\n",
];

/// A timeline of any content would keep its contract.
#[test]
fn a_timeline_has_reads_writes_charges_and_ends(rt: HostRuntime) {
    let alloc = rt.alloc();
    let notes = &Notes::new(alloc);
    let view = Timeline { name: None, notes };
    has(&rt, alloc, BANK, &view, &BANK_TIMELINE);
    let view = Timeline {
        name: Some("report"),
        notes,
    };
    let heading = [
        ">report: what happened, step by step</text>\n",
        "url(#report-timeline-tip)",
    ];
    has(&rt, alloc, BANK, &view, &heading);
}

/// An event that is blocked twice by a lock, an aborted update, an active query, and a line with an error.
const BLOCKED: &str = "item a 7\n\
        begin u update 9\n\
        begin v update 9\n\
        begin q query 1\n\
        write u a 9\n\
        read v a\n\
        read v a\n\
        read q a\n\
        abort u\n";

/// Attempts at the same event in a row are drawn as one cross with their number.
#[test]
fn blocked_events_are_drawn(rt: HostRuntime) {
    let alloc = rt.alloc();
    let notes = &Notes::new(alloc);
    notes.add(&"line 99: not a command");
    let view = Timeline { name: None, notes };
    let texts = [
        "<title>step 5, line 6: v was blocked from reading a by the lock of u, 2 times</title><path class='mx' ",
        ">lock of u, 2 times</text>\n",
        ">tried to read</text>\n",
        "<title>step 7, line 8: q was blocked from reading a by the limit of q: the sum would have been 0 + 2 = 2 of 1</title>",
        ">0 + 2 = 2 > 1</text>\n",
        ">aborted</text>\n",
        ">still active</text>\n",
        ">1 line of the script has an error and is not drawn.</text>\n",
    ];
    has(&rt, alloc, BLOCKED, &view, &texts);
}

/// Only a query has its own timeline.
#[test]
fn only_queries_have_a_timeline(rt: HostRuntime) {
    let alloc = rt.alloc();
    let notes = &Notes::new(alloc);
    let refused = Err(RunFault::NotACommittedQuery);
    for name in ["transfer", "checking", "<"] {
        let view = Timeline {
            name: Some(name),
            notes,
        };
        script_views(&rt, alloc, BANK, &view, refused, "");
    }
}

/// The trace events of an update that was charged.
static BANK_EVENTS: [&str; 5] = [
    "{\"displayTimeUnit\":\"ms\",\"traceEvents\":[\n{\"name\":\"process_name\",",
    "{\"name\":\"transfer\",\"cat\":\"transaction\",\"ph\":\"X\",\"pid\":1,\"tid\":2,\"ts\":3000,\"dur\":4000,\"args\":{\"step\":3,\"line\":5,\"kind\":\"update\",\"limit\":200,\"import\":0,\"outcome\":\"committed\"}}",
    "{\"name\":\"write checking\",\"cat\":\"write\",\"ph\":\"X\",\"pid\":1,\"tid\":2,\"ts\":4100,\"dur\":800,\"args\":{\"step\":4,\"line\":6,\"item\":\"checking\",\"value\":400}}",
    "{\"name\":\"charge\",\"cat\":\"charge\",\"ph\":\"s\",\"pid\":1,\"tid\":2,\"ts\":4300,\"id\":1,\"bp\":\"e\",\"args\":{\"item\":\"checking\",\"amount\":100}}",
    "{\"name\":\"charge\",\"cat\":\"charge\",\"ph\":\"f\",\"pid\":1,\"tid\":1,\"ts\":4600,\"id\":1,",
];

/// No clause says what trace events there are.
#[test]
fn trace_events_have_slices_and_flows(rt: HostRuntime) {
    has(&rt, rt.alloc(), BANK, &TraceEvents, &BANK_EVENTS);
    let blocked = [
        "{\"name\":\"blocked: read a\",\"cat\":\"blocked\",\"ph\":\"X\",\"pid\":1,\"tid\":2,\"ts\":5100,\"dur\":800,\"args\":{\"step\":5,\"line\":6,\"item\":\"a\",\"blocked_by\":\"lock\",\"of\":\"u\"}}",
        "\"outcome\":\"aborted\"}}",
        "\"outcome\":\"active\"}}",
    ];
    has(&rt, rt.alloc(), BLOCKED, &TraceEvents, &blocked);
}

/// Progress that is not shown.
struct Unshown;

impl Progress for Unshown {
    fn show(&self, _runs: u64, _events: u64) {}

    fn clear(&self) {}
}

/// A report that is off by 4 and by 3, with updates and items that have no part in either.
const TWO_CAUSES: &str = "item a 0\nitem b 0\nitem c 0\n\
        begin q query 99\n\
        begin u update 99\n\
        begin v update 99\n\
        begin other update 99\n\
        read q c\n\
        write u a 4\n\
        read q a\n\
        write v b 3\n\
        read q b\n\
        abort u\n\
        abort v\n\
        write other c 9\n\
        read other b\n\
        commit other\n\
        commit q\n";

/// Returns the view of a small script in which the query of the name is off by at least this distance.
fn shrink<'a>(name: &'a str, at_least: u64) -> Shrink<'a, Unshown> {
    Shrink {
        name,
        at_least,
        progress: &Unshown,
    }
}

/// Any script keeps the contract, also one in which no query is off.
#[test]
fn a_small_script_is_found(rt: HostRuntime) {
    let alloc = rt.alloc();
    let one =
        "item b 0\nbegin q query 99\nbegin v update 99\nwrite v b 3\nread q b\nabort v\ncommit q\n";
    let one_of_them = shrink("q", 1);
    script_views(&rt, alloc, TWO_CAUSES, &one_of_them, Ok(()), one);
    let both =
        "item a 0\nitem b 0\nbegin q query 99\nbegin u update 99\nbegin v update 99\nwrite u a 4\nread q a\nwrite v b 3\nread q b\nabort u\nabort v\ncommit q\n";
    script_views(&rt, alloc, TWO_CAUSES, &shrink("q", 7), Ok(()), both);
}

/// The contract lets this fault come at any time.
#[test]
fn only_queries_that_are_off_are_shrunk(rt: HostRuntime) {
    let alloc = rt.alloc();
    let refused = Err(RunFault::NotACommittedQuery);
    script_views(&rt, alloc, TWO_CAUSES, &shrink("q", 8), refused, "");
    for name in ["u", "a", "nobody"] {
        script_views(&rt, alloc, TWO_CAUSES, &shrink(name, 1), refused, "");
    }
}
