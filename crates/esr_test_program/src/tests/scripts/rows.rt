//! Scripts with their texts.

use esr_script::RunFault;

pub struct Row {
    pub name: &'static str,
    pub script: &'static str,
    pub text: &'static str,
    pub ended: Result<(), RunFault>,
}

pub fn table() -> &'static [Row] {
    &ROWS
}

static ROWS: [Row; 39] = [
    // No input, no output, and no fault.
    Row {
        name: "empty_input",
        script: "",
        text: "",
        ended: Ok(()),
    },
    // An update reads what it wrote itself, before it commits.
    Row {
        name: "own_write_read_back",
        script: "item a 100\nbegin u update 0\nwrite u a 105\nread u a\ncommit u\n",
        text: "item a 100\nbegun u 1\nwrote u a 105\nu a 105\ncommitted u\n",
        ended: Ok(()),
    },
    // A last line without its line feed is a line like any other.
    Row {
        name: "last_line_without_feed",
        script: "item a 100\nbegin u update 0\nwrite u a 105\nread u a\ncommit u",
        text: "item a 100\nbegun u 1\nwrote u a 105\nu a 105\ncommitted u\n",
        ended: Ok(()),
    },
    // Two readers of an item, one of which requests a write: it is blocked until the other has ended.
    Row {
        name: "upgrade_is_blocked_by_a_reader",
        script: "item a 0\n\
            begin u update 0\n\
            begin v update 0\n\
            read u a\n\
            read v a\n\
            write u a 1\n\
            commit v\n\
            write u a 1\n\
            commit u\n",
        text: "item a 0\n\
            begun u 1\n\
            begun v 2\n\
            u a 0\n\
            v a 0\n\
            blocked 9 lock v\n\
            committed v\n\
            wrote u a 1\n\
            committed u\n",
        ended: Ok(()),
    },
    // An abort restores the committed value for later reads.
    Row {
        name: "abort_puts_back",
        script: "item a 1\nbegin u update 0\nwrite u a 5\nabort u\nbegin v update 0\nread v a\n",
        text: "item a 1\nbegun u 1\nwrote u a 5\naborted u\nbegun v 2\nv a 1\n",
        ended: Ok(()),
    },
    // The refused events of an update, each with its own number.
    Row {
        name: "refusals_of_updates",
        script: "item a 0\n\
            begin u update 1000000000000000001\n\
            begin u update 0\n\
            begin u update 0\n\
            read z a\n\
            read u b\n\
            write u a 1000000000001\n\
            write u b 1000000000001\n\
            commit u\n\
            read u b\n",
        text: "item a 0\n\
            refused 6 limit out of range\n\
            begun u 1\n\
            error 3 name in use\n\
            refused 1 no such transaction\n\
            refused 3 no such item\n\
            refused 5 value out of range\n\
            refused 3 no such item\n\
            committed u\n\
            refused 2 already ended\n",
        ended: Ok(()),
    },
    // A transaction that has ended can do nothing more.
    Row {
        name: "ended_transactions",
        script: "item a 1\n\
            begin u update 0\n\
            read u a\n\
            write u a 2\n\
            read u a\n\
            abort u\n\
            abort u\n\
            begin v update 0\n\
            write v a 3\n\
            commit v\n\
            read u a\n",
        text: "item a 1\n\
            begun u 1\n\
            u a 1\n\
            wrote u a 2\n\
            u a 2\n\
            aborted u\n\
            refused 2 already ended\n\
            begun v 2\n\
            wrote v a 3\n\
            committed v\n\
            refused 2 already ended\n",
        ended: Ok(()),
    },
    // Comments and empty lines have no reply, so replies and lines are counted separately.
    Row {
        name: "lines_that_are_skipped",
        script: "# a note\n\nitem a 1\n#\nbegin u update 0\n # no note\n",
        text: "item a 1\nbegun u 1\nerror 1 not a command\n",
        ended: Ok(()),
    },
    // An invalid line closes nothing: items may still be declared.
    Row {
        name: "an_unknown_line_leaves_the_items_open",
        script: "item a 1\nhello\nitem b 2\nbegin u update 0\nitem c 3\n",
        text: "item a 1\nerror 1 not a command\nitem b 2\nbegun u 1\nerror 2 items are closed\n",
        ended: Ok(()),
    },
    // The first command other than `item` closes the items, whatever its reply.
    Row {
        name: "any_other_command_closes_the_items",
        script: "item a 1\ncommit u\nitem b 2\nitem a 2\n",
        text: "item a 1\n\
            refused 1 no such transaction\n\
            error 2 items are closed\n\
            error 2 items are closed\n",
        ended: Ok(()),
    },
    // Each fault of a declaration, and the lowest if several apply.
    Row {
        name: "items_at_fault",
        script: "item a 1000000000000\n\
            item a 1\n\
            item b 1000000000001\n\
            item b -1000000000000\n\
            item a 1000000000001\n",
        text: "item a 1000000000000\n\
            error 3 name in use\n\
            error 4 value out of range\n\
            item b -1000000000000\n\
            error 3 name in use\n",
        ended: Ok(()),
    },
    // Each line has a single form: doubled spaces, tabs and carriage returns are errors.
    Row {
        name: "blanks_and_endings",
        script: "item a 1\r\n\
            item\ta 1\n\
            item  a 1\n item a 1\n\
            item a 1 \n\
            item a\n\
            item\n\
            item a 1 1\n\
            ITEM a 1\n\
            item a 1\0\n",
        text: "error 1 not a command\n\
            error 1 not a command\n\
            error 1 not a command\n\
            error 1 not a command\n\
            error 1 not a command\n\
            error 1 not a command\n\
            error 1 not a command\n\
            error 1 not a command\n\
            error 1 not a command\n\
            error 1 not a command\n",
        ended: Ok(()),
    },
    // Each number has a single form: no leading zero, no plus sign, no minus zero.
    Row {
        name: "numbers_that_are_no_spelling",
        script: "item a -0\n\
            item a +1\n\
            item a 01\n\
            item a -\n\
            item a 1000000000000000000\n\
            item a 0x1\n\
            begin u update -1\n\
            begin u update 10000000000000000000\n\
            begin u update 00\n\
            begin u update 9999999999999999999\n\
            item a -0001\n",
        text: "error 1 not a command\n\
            error 1 not a command\n\
            error 1 not a command\n\
            error 1 not a command\n\
            error 1 not a command\n\
            error 1 not a command\n\
            error 1 not a command\n\
            error 1 not a command\n\
            error 1 not a command\n\
            refused 6 limit out of range\n\
            error 1 not a command\n",
        ended: Ok(()),
    },
    // A name has up to sixteen letters.
    Row {
        name: "names_of_sixteen_and_seventeen",
        script: "item abcdefghijklmno_ 1\n\
            item abcdefghijklmnopq 1\n\
            item A9_ -7\n\
            item 9a 1\n\
            item _a 1\n\
            item a-b 1\n\
            item a\u{e9} 1\n",
        text: "item abcdefghijklmno_ 1\n\
            error 1 not a command\n\
            item A9_ -7\n\
            error 1 not a command\n\
            error 1 not a command\n\
            error 1 not a command\n\
            error 1 not a command\n",
        ended: Ok(()),
    },
    // A read whose charge alone would exceed the import limit is refused, and changes nothing.
    Row {
        name: "import_limit_reached_at_once",
        script: "item a 100\n\
            begin u update 50\n\
            begin q query 6\n\
            write u a 107\n\
            read q a\n\
            read q a\n\
            totals\n",
        text: "item a 100\n\
            begun u 1\n\
            begun q 2\n\
            wrote u a 107\n\
            blocked 10 import q\n\
            blocked 10 import q\n\
            totals import 0 export 0 entries 5\n",
        ended: Ok(()),
    },
    // Charges add up: the second read passes the limit that the first left.
    Row {
        name: "import_limit_reached_by_the_second_read",
        script: "item a 100\n\
            begin u update 50\n\
            begin q query 7\n\
            write u a 107\n\
            read q a\n\
            read q a\n\
            totals\n",
        text: "item a 100\n\
            begun u 1\n\
            begun q 2\n\
            wrote u a 107\n\
            q a 107\n\
            blocked 10 import q\n\
            totals import 7 export 7 entries 5\n",
        ended: Ok(()),
    },
    // An update's limit bounds its exports to all queries together.
    Row {
        name: "export_limit_over_queries",
        script: "item a 0\n\
            begin q query 10\n\
            begin r query 5\n\
            begin u update 14\n\
            begin v update 15\n\
            read q a\n\
            read q a\n\
            read r a\n\
            write u a 5\n\
            write v a 5\n\
            totals\n",
        text: "item a 0\n\
            begun q 1\n\
            begun r 2\n\
            begun u 3\n\
            begun v 4\n\
            q a 0\n\
            q a 0\n\
            r a 0\n\
            blocked 11 export u\n\
            wrote v a 5\n\
            totals import 15 export 15 entries 9\n",
        ended: Ok(()),
    },
    // If several reasons apply, the first in their order is reported.
    Row {
        name: "every_refusal_in_order",
        script: "item a 0\n\
            begin q query 0\n\
            begin u update 0\n\
            begin w update 1000000000000000001\n\
            read z a\n\
            write z b 1\n\
            read q b\n\
            write q b 1\n\
            write q a 1000000000001\n\
            write u a 1000000000001\n\
            commit u\n\
            read u b\n\
            commit w\n",
        text: "item a 0\n\
            begun q 1\n\
            begun u 2\n\
            refused 6 limit out of range\n\
            refused 1 no such transaction\n\
            refused 1 no such transaction\n\
            refused 3 no such item\n\
            refused 3 no such item\n\
            refused 4 a query may not write\n\
            refused 5 value out of range\n\
            committed u\n\
            refused 2 already ended\n\
            refused 1 no such transaction\n",
        ended: Ok(()),
    },
    // Lines with faults, each with its own error, among valid lines.
    Row {
        name: "lines_and_names",
        script: "item a 1\n\
            item a 2\n\
            item b 1000000000001\n\
            begin u update 0\n\
            item c 1\n\
            begin u query 1\n\
            hello\n\
            # note\n\
            commit u\n\
            totals\n",
        text: "item a 1\n\
            error 3 name in use\n\
            error 4 value out of range\n\
            begun u 1\n\
            error 2 items are closed\n\
            error 3 name in use\n\
            error 1 not a command\n\
            committed u\n\
            totals import 0 export 0 entries 2\n",
        ended: Ok(()),
    },
    // A report reads an uncommitted value, and the update commits.
    Row {
        name: "report_beside_a_writer",
        script: "item a 100\n\
            begin u update 50\n\
            begin q query 10\n\
            write u a 107\n\
            read q a\n\
            commit u\n\
            commit q\n\
            audit q\n\
            totals\n",
        text: "item a 100\n\
            begun u 1\n\
            begun q 2\n\
            wrote u a 107\n\
            q a 107\n\
            committed u\n\
            committed q\n\
            audit q distance 0 import 7 before u\n\
            totals import 7 export 7 entries 6\n",
        ended: Ok(()),
    },
    // A report read a value that was then undone: no placement has it.
    Row {
        name: "aborted_write_was_read",
        script: "item a 100\n\
            begin u update 50\n\
            begin q query 10\n\
            write u a 107\n\
            read q a\n\
            abort u\n\
            commit q\n\
            audit q\n\
            totals\n",
        text: "item a 100\n\
            begun u 1\n\
            begun q 2\n\
            wrote u a 107\n\
            q a 107\n\
            aborted u\n\
            committed q\n\
            audit q distance 7 import 7 before -\n\
            totals import 7 export 7 entries 6\n",
        ended: Ok(()),
    },
    // The largest values, and one past them.
    Row {
        name: "values_at_the_edge",
        script: "item a -1000000000000\n\
            begin q query 2000000000000\n\
            begin u update 2000000000000\n\
            read q a\n\
            write u a 1000000000001\n\
            write u a 1000000000000\n\
            commit u\n\
            commit q\n\
            audit q\n\
            totals\n",
        text: "item a -1000000000000\n\
            begun q 1\n\
            begun u 2\n\
            q a -1000000000000\n\
            refused 5 value out of range\n\
            wrote u a 1000000000000\n\
            committed u\n\
            committed q\n\
            audit q distance 0 import 2000000000000 before -\n\
            totals import 2000000000000 export 2000000000000 entries 7\n",
        ended: Ok(()),
    },
    // The largest distance passes a limit that is smaller by one.
    Row {
        name: "values_at_the_edge_of_the_import",
        script: "item a -1000000000000\n\
            begin q query 1999999999999\n\
            begin u update 2000000000000\n\
            read q a\n\
            write u a 1000000000001\n\
            write u a 1000000000000\n\
            commit u\n\
            commit q\n\
            audit q\n\
            totals\n",
        text: "item a -1000000000000\n\
            begun q 1\n\
            begun u 2\n\
            q a -1000000000000\n\
            refused 5 value out of range\n\
            blocked 10 import q\n\
            committed u\n\
            committed q\n\
            audit q distance 0 import 0 before -\n\
            totals import 0 export 0 entries 7\n",
        ended: Ok(()),
    },
    // The export limit at the largest distance of two values.
    Row {
        name: "values_at_the_edge_of_the_export",
        script: "item a -1000000000000\n\
            begin q query 2000000000000\n\
            begin u update 1999999999999\n\
            read q a\n\
            write u a 1000000000001\n\
            write u a 1000000000000\n\
            commit u\n\
            commit q\n\
            audit q\n\
            totals\n",
        text: "item a -1000000000000\n\
            begun q 1\n\
            begun u 2\n\
            q a -1000000000000\n\
            refused 5 value out of range\n\
            blocked 11 export u\n\
            committed u\n\
            committed q\n\
            audit q distance 0 import 0 before -\n\
            totals import 0 export 0 entries 7\n",
        ended: Ok(()),
    },
    // The value read is nearer to the state before an update than to the state after it.
    Row {
        name: "nearer_before_the_update",
        script: "item x 0\n\
            item y 0\n\
            begin q query 5\n\
            begin u update 5\n\
            read q y\n\
            write u x 3\n\
            write u y 5\n\
            commit u\n\
            read q x\n\
            commit q\n\
            audit q\n",
        text: "item x 0\n\
            item y 0\n\
            begun q 1\n\
            begun u 2\n\
            q y 0\n\
            wrote u x 3\n\
            wrote u y 5\n\
            committed u\n\
            q x 3\n\
            committed q\n\
            audit q distance 3 import 5 before -\n",
        ended: Ok(()),
    },
    // Two sets cost the same: the smaller is reported.
    Row {
        name: "smaller_of_two_sets",
        script: "item a 0\n\
            begin q query 9\n\
            begin u update 4\n\
            read q a\n\
            write u a 4\n\
            commit u\n\
            read q a\n\
            commit q\n\
            audit q\n",
        text: "item a 0\n\
            begun q 1\n\
            begun u 2\n\
            q a 0\n\
            wrote u a 4\n\
            committed u\n\
            q a 4\n\
            committed q\n\
            audit q distance 4 import 4 before -\n",
        ended: Ok(()),
    },
    // Two updates over one report: each placement is off somewhere.
    Row {
        name: "two_updates_over_a_report",
        script: "item a 0\n\
            item b 0\n\
            begin q query 100\n\
            begin u1 update 100\n\
            begin u2 update 100\n\
            read q a\n\
            write u1 a 10\n\
            commit u1\n\
            write u2 a 1\n\
            write u2 b 8\n\
            commit u2\n\
            read q b\n\
            commit q\n\
            audit q\n",
        text: "item a 0\n\
            item b 0\n\
            begun q 1\n\
            begun u1 2\n\
            begun u2 3\n\
            q a 0\n\
            wrote u1 a 10\n\
            committed u1\n\
            wrote u2 a 1\n\
            wrote u2 b 8\n\
            committed u2\n\
            q b 8\n\
            committed q\n\
            audit q distance 1 import 19 before u1,u2\n",
        ended: Ok(()),
    },
    // Updates that share no item that was read are ordered by one that was not.
    Row {
        name: "order_through_a_third_item",
        script: "item a 0\n\
            item b 0\n\
            item c 0\n\
            begin q query 9\n\
            begin u1 update 9\n\
            begin u2 update 9\n\
            read q a\n\
            write u1 a 6\n\
            write u1 c 1\n\
            commit u1\n\
            read u2 c\n\
            write u2 b 2\n\
            commit u2\n\
            read q b\n\
            commit q\n\
            audit q\n",
        text: "item a 0\n\
            item b 0\n\
            item c 0\n\
            begun q 1\n\
            begun u1 2\n\
            begun u2 3\n\
            q a 0\n\
            wrote u1 a 6\n\
            wrote u1 c 1\n\
            committed u1\n\
            u2 c 1\n\
            wrote u2 b 2\n\
            committed u2\n\
            q b 2\n\
            committed q\n\
            audit q distance 2 import 6 before -\n",
        ended: Ok(()),
    },
    // A query that read nothing, or nothing that was written, is exact.
    Row {
        name: "queries_that_read_little",
        script: "item a 7\n\
            begin q query 0\n\
            commit q\n\
            audit q\n\
            begin r query 0\n\
            read r a\n\
            commit r\n\
            audit r\n\
            audit a\n",
        text: "item a 7\n\
            begun q 1\n\
            committed q\n\
            audit q distance 0 import 0 before -\n\
            begun r 2\n\
            r a 7\n\
            committed r\n\
            audit r distance 0 import 0 before -\n\
            error 6 not a committed query\n",
        ended: Ok(()),
    },
    // Only a committed query has an audit.
    Row {
        name: "no_audit_before_a_commit",
        script: "item a 0\nbegin q query 0\naudit q\nabort q\naudit q\n",
        text: "item a 0\n\
            begun q 1\n\
            error 6 not a committed query\n\
            aborted q\n\
            error 6 not a committed query\n",
        ended: Ok(()),
    },
    // An audit is a command like any other, and closes the items.
    Row {
        name: "audits_close_the_items",
        script: "item a 0\n\
            audit q\n\
            item b 0\n\
            audit\n\
            audit q r\n\
            begin u update 0\n\
            commit u\n\
            audit u\n",
        text: "item a 0\n\
            error 6 not a committed query\n\
            error 2 items are closed\n\
            error 1 not a command\n\
            error 1 not a command\n\
            begun u 1\n\
            committed u\n\
            error 6 not a committed query\n",
        ended: Ok(()),
    },
    // So are totals.
    Row {
        name: "totals_close_the_items",
        script: "item a 1\ntotals\nitem b 2\ntotals now\nbegin q query 1 strict\nweight a 2\n",
        text: "item a 1\n\
            totals import 0 export 0 entries 0\n\
            error 2 items are closed\n\
            error 1 not a command\n\
            begun q 1\n\
            error 1 not a command\n",
        ended: Ok(()),
    },
    // With weights, charges and distances are multiplied.
    Row {
        name: "weighted_report_beside_a_writer",
        script: "item a 100 weight 3\n\
            begin u update 50\n\
            begin q query 21\n\
            write u a 107\n\
            read q a\n\
            commit u\n\
            commit q\n\
            audit q\n\
            totals\n",
        text: "item a 100 weight 3\n\
            begun u 1\n\
            begun q 2\n\
            wrote u a 107\n\
            q a 107\n\
            committed u\n\
            committed q\n\
            audit q distance 0 import 21 before u\n\
            totals import 21 export 21 entries 6\n",
        ended: Ok(()),
    },
    // A read of a write that is later undone, with a weight.
    Row {
        name: "weighted_aborted_write_was_read",
        script: "item a 100 weight 3\n\
            begin u update 50\n\
            begin q query 21\n\
            write u a 107\n\
            read q a\n\
            abort u\n\
            commit q\n\
            audit q\n\
            totals\n",
        text: "item a 100 weight 3\n\
            begun u 1\n\
            begun q 2\n\
            wrote u a 107\n\
            q a 107\n\
            aborted u\n\
            committed q\n\
            audit q distance 21 import 21 before -\n\
            totals import 21 export 21 entries 6\n",
        ended: Ok(()),
    },
    // Limits are in weighted amounts.
    Row {
        name: "weighted_import_limit",
        script: "item a 100 weight 3\n\
            begin u update 50\n\
            begin q query 20\n\
            write u a 107\n\
            read q a\n",
        text: "item a 100 weight 3\nbegun u 1\nbegun q 2\nwrote u a 107\nblocked 10 import q\n",
        ended: Ok(()),
    },
    // A weight of 0 and one above 1,000 are refused.
    Row {
        name: "weights_at_fault",
        script: "item a 0 weight 0\n\
            item a 0 weight 1001\n\
            item a 1000000000001 weight 0\n\
            item a 0 weight 01\n\
            item a 0 weight 1\n\
            item b 0 weight 1000\n\
            item a 0 weight 0\n\
            item c 0 heavy 2\n\
            item c 0 weight\n\
            item c 0 weight -1\n",
        text: "error 7 weight out of range\n\
            error 7 weight out of range\n\
            error 4 value out of range\n\
            error 1 not a command\n\
            item a 0 weight 1\n\
            item b 0 weight 1000\n\
            error 3 name in use\n\
            error 1 not a command\n\
            error 1 not a command\n\
            error 1 not a command\n",
        ended: Ok(()),
    },
    // A report that is not strict may be placed before updates that committed before its begin.
    Row {
        name: "report_that_is_not_strict",
        script: "item a 0\n\
            begin u update 9\n\
            write u a 5\n\
            commit u\n\
            begin q query 9\n\
            begin v update 9\n\
            write v a 0\n\
            read q a\n\
            abort v\n\
            commit q\n\
            audit q\n",
        text: "item a 0\n\
            begun u 1\n\
            wrote u a 5\n\
            committed u\n\
            begun q 2\n\
            begun v 3\n\
            wrote v a 0\n\
            q a 0\n\
            aborted v\n\
            committed q\n\
            audit q distance 0 import 5 before -\n",
        ended: Ok(()),
    },
    // The same report, strict: it must be placed after them, and is off.
    Row {
        name: "strict_report",
        script: "item a 0\n\
            begin u update 9\n\
            write u a 5\n\
            commit u\n\
            begin q query 9 strict\n\
            begin v update 9\n\
            write v a 0\n\
            read q a\n\
            abort v\n\
            commit q\n\
            audit q\n",
        text: "item a 0\n\
            begun u 1\n\
            wrote u a 5\n\
            committed u\n\
            begun q 2\n\
            begun v 3\n\
            wrote v a 0\n\
            q a 0\n\
            aborted v\n\
            committed q\n\
            audit q distance 5 import 5 before u\n",
        ended: Ok(()),
    },
    // The word follows a query's limit, once.
    Row {
        name: "words_that_are_not_strict",
        script: "item a 0\n\
            begin u update 0 strict\n\
            begin q query 0 Strict\n\
            begin q query 0 strict strict\n\
            begin q query 0 strict\n",
        text: "item a 0\n\
            error 1 not a command\n\
            error 1 not a command\n\
            error 1 not a command\n\
            begun q 1\n",
        ended: Ok(()),
    },
];
