//! Queries drawn.

ghost use Rattle.std.specs.Prelude.{◌≡◌, false};
ghost use Rattle.esr_base.specs.Watch.{failed};

use esr_history::Watched;
use esr_lint::{NoObserver, Notes};
use esr_picture::{PictureView, PictureWithErrorsView};
use esr_script::{RunFault, render_query};
use esr_test_devices::{Way, cut_after, is_cut, narrow_until};
use std::alloc::{AllocError, Global};
use std::io::{Read, Write};
use std::process::Abort;
use std::str::from_utf8;

/// A report that reads one account before a transfer and the other after it.
pub const BANK: &str = "item checking 500\n\
        item savings 1500\n\
        begin report query 200\n\
        read report checking\n\
        begin transfer update 200\n\
        write transfer checking 400\n\
        write transfer savings 1600\n\
        commit transfer\n\
        read report savings\n\
        commit report\n";

/// The picture of the bank, without the first line, the style and the legend.
static BANK_DRAWN: [&str; 33] = [
    "<title id='report-title'>Audit of report</title>\n",
    "<desc id='report-desc'>Off by 100, charged 100. In order: [report], transfer. savings: read 1,600, off by 100 from its place. checking: read 500, as at its place.</desc>\n",
    "<text class='h' x='20' y='28'>report: off by 100, charged 100</text>\n",
    "<text class='q' x='20' y='50'>What report read was never a consistent state up to its</text>\n",
    "<text class='q' x='20' y='70'>commit.</text>\n",
    "<text class='q' x='20' y='90'>The nearest state, before all updates, differs by 100</text>\n",
    "<text class='q' x='20' y='110'>in one read.</text>\n",
    "<text class='q' x='20' y='130'>Charged 100 of its limit of 200: transfer 100. A charge</text>\n",
    "<text class='q' x='20' y='150'>is |change| x weight x reads: for a change of an item</text>\n",
    "<text class='q' x='20' y='170'>that the query has read, or for an uncommitted value</text>\n",
    "<text class='q' x='20' y='190'>when it reads it. No charge is taken back.</text>\n",
    "<path class='d' d='M290 242V368'/>\n",
    "<g><title>transfer wrote checking 400, savings 1,600; it is after the line</title><rect class='a' x='248' y='214' width='84' height='28' rx='6'/><text class='m' x='290' y='233' text-anchor='middle'>transfer</text></g>\n",
    "<text class='m n' x='20' y='286'>savings</text><text class='m r' x='20' y='304'>read 1,600</text><rect class='j' x='20' y='311' width='96' height='6'></rect><rect class='i' x='20' y='311' width='96' height='6'><title>savings has 100 % of the distance</title></rect><path class='v' d='M140 292H286'><title>savings is 1,500, which was not read</title></path><rect class='p' x='144' y='268' width='44' height='15'/><text class='m o' x='146' y='279'>1,500</text>\n",
    "<path class='t' d='M290 283V301'/><path class='u' d='M294 292H456'><title>savings is 1,600, as read</title></path><rect class='p' x='298' y='268' width='44' height='15'/><text class='m o' x='300' y='279'>1,600</text>\n",
    "<text class='m n' x='20' y='362'>checking</text><text class='m g' x='20' y='380'>read 500</text><path class='u' d='M140 368H286'><title>checking is 500, as read</title></path><rect class='p' x='144' y='344' width='36' height='15'/><text class='m o' x='146' y='355'>500</text>\n",
    "<path class='t' d='M290 359V377'/><path class='v' d='M294 368H456'><title>checking is 400, which was not read</title></path><rect class='p' x='298' y='344' width='36' height='15'/><text class='m o' x='300' y='355'>400</text>\n",
    "<path class='w' marker-end='url(#report-tip)' d='M136 448H460'/><text class='q' x='20' y='452'>serial order</text><text class='q' x='136' y='466'>before all updates</text><text class='q' x='460' y='466' text-anchor='end'>after all of them</text>\n",
    "<path class='l' d='M212 208V416'><title>the nearest placement of report</title></path>\n",
    "<text class='m n' x='212' y='432' text-anchor='middle'>report</text>\n",
    "<circle class='c' cx='212' cy='292' r='5'/><rect class='p' x='220' y='305' width='92' height='15'/><text class='m r o' x='222' y='316'>off by 100</text>\n",
    "<rect class='p' x='220' y='381' width='60' height='15'/><text class='m g o' x='222' y='392'>as read</text>\n",
    "<text class='q' x='20' y='490'>The update after the line committed before report too:</text>\n",
    "<text class='q' x='20' y='510'>with it before the line, report would be off by as much</text>\n",
    "<text class='q' x='20' y='530'>or more.</text>\n",
    "<text class='q' x='20' y='550'>At 1 other place of the line in this order report would</text>\n",
    "<text class='q' x='20' y='570'>be off by as much; the first is drawn.</text>\n",
    "<text class='q' x='20' y='590'>Why transfer is not in the nearest state:</text>\n",
    "<text class='q' x='20' y='610'>if it were, savings would be nearer by 100;</text>\n",
    "<text class='q' x='20' y='630'>but checking farther by 100: as far off.</text>\n",
    "<text class='q' x='20' y='650'>No allowed set of updates is nearer: the</text>\n",
    "<text class='q' x='20' y='670'>certificate of esr certify report proves</text>\n",
    "<text class='q' x='20' y='690'>it.</text>\n",
];

/// An update, and a report that reads nothing.
const NOTHING_READ: &str =
    "item a 7\nbegin q query 0\nbegin u update 0\nwrite u a 8\ncommit u\ncommit q\n";

/// An item that is read twice, before and after an update; a weight of 3.
const TWICE: &str = "item a 7 weight 3\n\
        begin q query 99\n\
        read q a\n\
        begin u update 99\n\
        write u a 9\n\
        commit u\n\
        read q a\n\
        commit q\n";

/// Draws the query of that name.
fn draw<R: Read, W: Write>(
    alloc: Global,
    reader: &mut Watched<R>,
    writer: &mut Watched<W>,
    name: &str,
) -> Result<(), RunFault>
    requires reader { failed reader.old ≡ false }
    requires writer { failed writer.old ≡ false }
{
    render_query(alloc, reader, writer, name, &PictureView, &mut NoObserver)
}

/// Draws the query of that name, and searches the output for texts.
fn has(rt: &impl Abort, alloc: Global, script: &str, name: &str, texts: &[&str]) {
    let mut reader = Watched::new(script.as_bytes());
    let mut writer = Watched::new(Vec::new(alloc));
    let ended = draw(alloc, &mut reader, &mut writer, name);
    assert!(rt; ended == Ok(()));
    let written = from_utf8(writer.inner().as_slice()).unwrap_or("");
    assert!(rt; written.starts_with("<svg ") && written.ends_with("</svg>\n"));
    for text in texts {
        assert!(rt; written.contains(*text), "{} has {}", name, text);
    }
}

/// No clause specifies the content of a picture: with each lane green on the wrong side of the update, it would be
/// proved.
#[test]
fn a_report_of_the_bank_is_drawn(rt: HostRuntime) {
    has(&rt, rt.alloc(), BANK, "report", &BANK_DRAWN);
}

/// Any text from `<svg ` to `</svg>` keeps the contract: it could lack an item's second read, or say nothing at all.
#[test]
fn little_is_drawn(rt: HostRuntime) {
    let texts = [
        "q read no item.</text>",
        "Not drawn: 1 of 1 updates that committed before q.</text>",
    ];
    has(&rt, rt.alloc(), NOTHING_READ, "q", &texts);
    let texts = [
        "q: off by 6, charged 6</text>",
        ">weight 3</text>",
        "read 7</text><text class='m r' x='20' y='320'>and 9</text>",
        ">off by 2 x 3 = 6</text>",
    ];
    has(&rt, rt.alloc(), TWICE, "q", &texts);
}

/// Lines with errors are in a box above the picture, which is drawn as without them.
#[test]
fn lines_with_errors_are_drawn(rt: HostRuntime) {
    let alloc = rt.alloc();
    let notes = Notes::new(alloc);
    for number in 2..8 {
        notes.add(&format_args!("line {number}: \"a<b\""));
    }
    let mut reader = Watched::new(BANK.as_bytes());
    let mut writer = Watched::new(Vec::new(alloc));
    let view = PictureWithErrorsView { notes: &notes };
    let ended = render_query(
        alloc,
        &mut reader,
        &mut writer,
        "report",
        &view,
        &mut NoObserver,
    );
    assert!(&rt; ended == Ok(()));
    let written = from_utf8(writer.inner().as_slice()).unwrap_or("");
    for text in [
        " viewBox='0 -128 ",
        "<rect class='x' x='10' y='-120' ",
        "<text class='r' x='20' y='-104'>6 lines of the script have errors and are not drawn:</text>",
        "<text class='r' x='20' y='-86'>line 2: \"a\u{ff1c}b\"</text>",
        "<text class='r' x='20' y='-14'>line 6: ",
    ] {
        assert!(&rt; written.contains(text), "the picture has {}", text);
    }
    for text in BANK_DRAWN {
        assert!(&rt; written.contains(text), "the picture has {}", text);
    }
}

/// A read value that was undone, one that was read twice, one that its writer overwrote, and one that was undone but
/// is also the item's own value.
#[test]
fn values_that_were_undone_are_described(rt: HostRuntime) {
    let texts = [
        ">read 9 of u,</text>",
        ">which aborted</text>",
        ">read 6 of v,</text>",
        ">which overwrote it</text>",
        ">3, 2 reads</text>",
        ">which aborted; same as the opening value</text>",
    ];
    has(
        &rt,
        rt.alloc(),
        "item a 5\n\
            item b 3\n\
            item c 5\n\
            item d 8\n\
            begin q query 99\n\
            begin w update 99\n\
            write w d 8\n\
            read q d\n\
            abort w\n\
            begin u update 99\n\
            write u a 9\n\
            read q a\n\
            abort u\n\
            begin v update 99\n\
            write v c 6\n\
            read q c\n\
            write v c 7\n\
            commit v\n\
            read q b\n\
            read q b\n\
            commit q\n",
        "q",
        &texts,
    );
}

/// Returns the script of a report that is concurrent with `updates` updates of one item, reads it after the first
/// update, and then reads another item that is not written.
fn beside(alloc: Global, updates: u32) -> Result<String, AllocError> {
    let mut script = String::from_str(alloc, "item a 0\nitem b 0\nitem c 5\nbegin q query 999\n")?;
    for i in 0..updates {
        add_update(&mut script, i)?;
    }
    script.push_str("read q b\nread q c\ncommit q\n")?;
    Ok(script)
}

fn add_update(script: &mut String, i: u32) -> Result<(), AllocError> {
    write!(script, "begin u{i} update 999\nwrite u{i} a {i}\n")?;
    if i == 1 {
        script.push_str("read q a\n")?;
    }
    write!(script, "write u{i} b {i}\ncommit u{i}\n")
}

/// Returns the number of occurrences of a text in the picture.
fn count(alloc: Global, script: &str, text: &str) -> usize {
    let mut reader = Watched::new(script.as_bytes());
    let mut writer = Watched::new(Vec::new(alloc));
    let _ = draw(alloc, &mut reader, &mut writer, "q");
    let written = from_utf8(writer.inner().as_slice()).unwrap_or("");
    written.matches(text).count()
}

/// Few updates are all drawn; of many, those that bound the visible part of the lanes and the three that were charged most: here
/// four, with the lane whose value is as read and keeps the line from the end, where the other one would be exact.
#[test]
fn of_many_updates_the_bounding_ones_are_drawn(rt: HostRuntime) {
    let lanes = ("class='m n' x='20'", 3);
    occurs(
        &rt,
        rt.alloc(),
        8,
        &[("height='28'", 8), lanes, ("Not drawn", 0)],
    );
    let of_many = [
        ("height='28'", 4),
        lanes,
        ("Not drawn: 26 of 30 updates that committed before q.", 1),
        (">off by 28<", 1),
        ("At another place of the line", 0),
    ];
    occurs(&rt, rt.alloc(), 30, &of_many);
}

/// Draws the query that is concurrent with `updates` updates, and counts texts in the picture.
fn occurs(rt: &impl Abort, alloc: Global, updates: u32, wanted: &[(&str, usize)]) {
    let script = beside(alloc, updates).expect(rt, "memory");
    for (text, times) in wanted {
        assert!(rt;
            count(alloc, &script, text) == *times,
            "{} of {}",
            text,
            updates
        );
    }
}

/// The contract permits out of memory in place of this refusal, for the name of an update or an item as for no name.
#[test]
fn only_committed_queries_are_drawn(rt: HostRuntime) {
    let alloc = rt.alloc();
    for name in ["transfer", "checking", "nobody", "<"] {
        let mut reader = Watched::new(BANK.as_bytes());
        let mut writer = Watched::new(Vec::new(alloc));
        let ended = draw(alloc, &mut reader, &mut writer, name);
        assert!(rt; ended == Err(RunFault::NotACommittedQuery));
        assert!(rt; writer.inner().is_empty());
    }
}

/// No clause states what is written if the reader does not specify its bytes: it could be a picture of half a script.
#[test]
fn each_read_fails_in_turn(rt: HostRuntime) {
    let alloc = rt.alloc();
    for left in 0..BANK.len() + 1 {
        let mut reader = cut_after(BANK, 1, left);
        let mut writer = Watched::new(Vec::new(alloc));
        let ended = draw(alloc, &mut reader, &mut writer, "report");
        assert!(rt; ended == Err(RunFault::Read));
        assert!(rt; is_cut(&reader, &writer));
    }
}

/// The contract ties a write fault to a failed call, but does not make one: a drawing could end before it writes.
#[test]
fn writes_fail(rt: HostRuntime) {
    let alloc = rt.alloc();
    let mut reader = Watched::new(BANK.as_bytes());
    let mut whole = Watched::new(Vec::new(alloc));
    let ended = draw(alloc, &mut reader, &mut whole, "report");
    assert!(rt; ended == Ok(()));
    for left in 0..20 {
        fails_after(&rt, alloc, left, whole.inner().as_slice());
    }
}

/// Checks that a writer that fails after `left` calls of three bytes has taken just the beginning of the picture.
fn fails_after(rt: &impl Abort, alloc: Global, left: usize, whole: &[u8]) {
    let mut reader = Watched::new(BANK.as_bytes());
    let mut writer = narrow_until(alloc, 3, left, Way::Errs);
    let ended = draw(alloc, &mut reader, &mut writer, "report");
    assert!(rt; ended == Err(RunFault::Write) && writer.failed() && !reader.failed());
    let taken = writer.inner().taken.as_slice();
    assert!(rt; taken.len() == left.saturating_mul(3) && whole.starts_with(taken));
}
