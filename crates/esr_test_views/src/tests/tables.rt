//! Ledgers, audits and explanations as tables. No clause specifies the content of JSON and of the text in columns,
//! nor the first and the last line of a transaction.

use crate::tests::script_views::script_views;
use esr_history::Watched;
use esr_lint::NoObserver;
use esr_script::{AuditedScript, NoGate, audit_silently, render_query};
use esr_tables::{Data, ExplanationTable, Format, Ledger, audit_table};
use esr_views::{QueryView, ScriptView};
use std::alloc::Global;
use std::process::Abort;
use std::thread::Threads;

/// Each kind, each end, and each way to be blocked; a line that is refused, after the last line of its transaction.
const DAY: &str = "# One day of a shop\n\
        item till 0\n\
        item gold 5 weight 3\n\
        begin morning update 0\n\
        write morning till 500\n\
        commit morning\n\
        begin report query 10 strict\n\
        begin evening update 60\n\
        begin night update 900\n\
        read report till\n\
        write evening till 490\n\
        write night till 1\n\
        read report gold\n\
        write evening gold 6\n\
        commit report\n\
        begin other query 900\n\
        read other gold\n\
        write evening gold 20\n\
        write evening gold 30\n\
        abort night\n\
        commit evening\n\
        write evening till 3\n\
        abort other\n\
        begin late query 7\n";

const HEADS: &str =
    "number,name,kind,limit,charged,left,reads,writes,blocked_by_lock,blocked_by_import,blocked_by_export,end,distance,first_line,last_line\n";

const DAY_CSV: &str = "\
number,name,kind,limit,charged,left,reads,writes,blocked_by_lock,blocked_by_import,blocked_by_export,end,distance,first_line,last_line
1,morning,update,0,0,0,0,1,0,0,0,committed,,4,6
2,report,strict,10,10,0,2,0,0,0,0,committed,0,7,15
3,evening,update,60,55,5,0,2,0,1,1,committed,,8,21
4,night,update,900,0,900,0,0,1,0,0,aborted,,9,20
5,other,query,900,45,855,1,0,0,0,0,aborted,,16,23
6,late,query,7,0,7,0,0,0,0,0,active,,24,24
";

const DAY_JSON: &str =
    r#"{"number":1,"name":"morning","kind":"update","limit":0,"charged":0,"left":0,"reads":0,"writes":1,"blocked_by_lock":0,"blocked_by_import":0,"blocked_by_export":0,"end":"committed","distance":null,"first_line":4,"last_line":6}
{"number":2,"name":"report","kind":"strict","limit":10,"charged":10,"left":0,"reads":2,"writes":0,"blocked_by_lock":0,"blocked_by_import":0,"blocked_by_export":0,"end":"committed","distance":0,"first_line":7,"last_line":15}
{"number":3,"name":"evening","kind":"update","limit":60,"charged":55,"left":5,"reads":0,"writes":2,"blocked_by_lock":0,"blocked_by_import":1,"blocked_by_export":1,"end":"committed","distance":null,"first_line":8,"last_line":21}
{"number":4,"name":"night","kind":"update","limit":900,"charged":0,"left":900,"reads":0,"writes":0,"blocked_by_lock":1,"blocked_by_import":0,"blocked_by_export":0,"end":"aborted","distance":null,"first_line":9,"last_line":20}
{"number":5,"name":"other","kind":"query","limit":900,"charged":45,"left":855,"reads":1,"writes":0,"blocked_by_lock":0,"blocked_by_import":0,"blocked_by_export":0,"end":"aborted","distance":null,"first_line":16,"last_line":23}
{"number":6,"name":"late","kind":"query","limit":7,"charged":0,"left":7,"reads":0,"writes":0,"blocked_by_lock":0,"blocked_by_import":0,"blocked_by_export":0,"end":"active","distance":null,"first_line":24,"last_line":24}
"#;

const DAY_TEXT: &str = "                                                              blocked by
number  name     kind    limit  charged  left  reads  writes  lock  import  export  end        distance  from  to
     1  morning  update      0        0     0      0       1     0       0       0  committed         -     4   6
     2  report   strict     10       10     0      2       0     0       0       0  committed         0     7  15
     3  evening  update     60       55     5      0       2     0       1       1  committed         -     8  21
     4  night    update    900        0   900      0       0     1       0       0  aborted           -     9  20
     5  other    query     900       45   855      1       0     0       0       0  aborted           -    16  23
     6  late     query       7        0     7      0       0     0       0       0  active            -    24  24
";

/// A report that reads an uncommitted write of a transfer.
const BANK: &str = "item checking 500\n\
        item savings 1400\n\
        begin early update 0\n\
        write early savings 1500\n\
        commit early\n\
        begin transfer update 200\n\
        begin report query 200\n\
        write transfer checking 400\n\
        read report checking\n\
        read report savings\n\
        write transfer savings 1600\n\
        commit transfer\n\
        commit report\n";

/// Compares the output of a view of a script.
fn writes<S: ScriptView>(rt: &impl Abort, alloc: Global, script: &str, view_of: &S, text: &str) {
    script_views(rt, alloc, script, view_of, Ok(()), text);
}

/// Compares the view of the bank's report.
fn explains_as<T: QueryView>(rt: &impl Abort, alloc: Global, view: &T, text: &str) {
    let mut reader = Watched::new(BANK.as_bytes());
    let mut writer = Watched::new(Vec::new(alloc));
    let ended = render_query(
        alloc,
        &mut reader,
        &mut writer,
        "report",
        view,
        &mut NoObserver,
    );
    assert!(rt; ended == Ok(()));
    assert!(rt; writer.inner().as_slice() == text.as_bytes());
}

/// Of CSV the lines that transactions go from and to, of the other forms all.
#[test]
fn a_ledger_has_a_row_for_each_begin(rt: HostRuntime) {
    let alloc = rt.alloc();
    for (format, text) in [
        (Format::Csv, DAY_CSV),
        (Format::Json, DAY_JSON),
        (Format::Text, DAY_TEXT),
    ] {
        writes(&rt, alloc, DAY, &Ledger { format }, text);
    }
}

/// No row is below the heads of a script without transactions.
#[test]
fn an_empty_ledger_has_its_heads(rt: HostRuntime) {
    let alloc = rt.alloc();
    let csv = Ledger {
        format: Format::Csv,
    };
    writes(&rt, alloc, "item a 1\n", &csv, HEADS);
    let json = Ledger {
        format: Format::Json,
    };
    writes(&rt, alloc, "item a 1\n", &json, "");
}

/// Asserts that this is the table of the audits of the bank, with each number of threads.
fn audits_are<R: Abort + Threads + Sync>(rt: &R, alloc: Global, data: Data, text: &str) {
    for workers in [1, 3] {
        let mut reader = Watched::new(BANK.as_bytes());
        let audited = audit_silently(rt, alloc, &mut reader, workers, &NoGate, &mut NoObserver);
        let Ok(
            AuditedScript {
                transactions,
                history,
                found,
            },
        ) = audited
        else {
            panic!(rt; "a script is not audited")
        };
        let Ok(table) = audit_table(alloc, data, &transactions, &history, &found) else {
            panic!(rt; "no table is made")
        };
        assert!(rt; table.as_slice() == text.as_bytes());
    }
}

/// A query with an update before its nearest placement, one without, and one of the limit.
#[test]
fn audits_have_a_row_for_each_committed_query(rt: HostRuntime) {
    let alloc = rt.alloc();
    let csv = "number,name,limit,import,distance,before\n3,report,200,200,100,early\n";
    audits_are(&rt, alloc, Data::Csv, csv);
    let json =
        "{\"number\":3,\"name\":\"report\",\"limit\":200,\"import\":200,\"distance\":100,\"before\":[\"early\"]}\n";
    audits_are(&rt, alloc, Data::Json, json);
}

/// Both kinds of charges, and an update on each side of the nearest placement.
#[test]
fn an_explanation_has_its_parts(rt: HostRuntime) {
    let csv = "\
row,item,value,nearest,off,operation,update,amount,step,import_left,import_limit,export_left,export_limit,distance,import,sum_error
read,checking,400,500,100,,,,,,,,,,,
read,savings,1500,1500,0,,,,,,,,,,,
charge,checking,,,,read,transfer,100,7,100,200,100,200,,,
charge,savings,,,,write,transfer,100,9,0,200,0,200,,,
before,,,,,,early,,,,,,,,,
after,,,,,,transfer,,,,,,,,,
sums,,,,,,,,,,,,,100,200,100
";
    explains_as(&rt, rt.alloc(), &ExplanationTable { data: Data::Csv }, csv);
    let json =
        r#"{"name":"report","reads":[{"item":"checking","value":400,"nearest":500,"off":100},{"item":"savings","value":1500,"nearest":1500,"off":0}],"charges":[{"operation":"read","update":"transfer","item":"checking","amount":100,"step":7,"import_left":100,"import_limit":200,"export_left":100,"export_limit":200},{"operation":"write","update":"transfer","item":"savings","amount":100,"step":9,"import_left":0,"import_limit":200,"export_left":0,"export_limit":200}],"before":["early"],"after":["transfer"],"distance":100,"import":200,"sum_error":100}
"#;
    explains_as(
        &rt,
        rt.alloc(),
        &ExplanationTable { data: Data::Json },
        json,
    );
}
