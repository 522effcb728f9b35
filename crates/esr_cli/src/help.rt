//! The text that `--help` prints after the options of each subcommand: input, output, and an example that works.
//!
//! `checks/shell` executes each line that starts with `$` and compares its output with the lines that follow.

/// The lines of a script, for the help of `esr` and of `esr run`.
pub const SCRIPT: &str = "A script is a list of lines. Each line produces one line of output:

  item NAME VALUE             declares an item (before all other lines)
  item NAME VALUE weight W    same, with distances multiplied by W (1 to 1000)
  begin NAME update LIMIT     begins an update that may export at most LIMIT
  begin NAME query LIMIT      begins a query that may import at most LIMIT
  begin NAME query LIMIT strict   same, audited after all earlier commits
  read TRANSACTION ITEM
  write TRANSACTION ITEM VALUE
  commit TRANSACTION
  abort TRANSACTION
  audit QUERY                 distance of a committed query from a serial order
  totals                      total import and export, and number of entries
  # a comment                 ignored, as are empty lines

Words are separated by a single space, and lines end with LF. A NAME is a letter
followed by up to 15 letters, digits or _. Numbers are integers without plus sign
or leading zeros: a VALUE from -1000000000000 to 1000000000000, a LIMIT from 0 to
1000000000000000000. Run esr lint FILE to find errors in a script.

For example:

  item a 100
  begin u update 50
  begin q query 10
  write u a 107
  read q a
  commit u
  commit q
  audit q

See esr(1) and esr(5) for the complete rules.";

pub const CERTIFY: &str =
    "The bundle is JSON: the problem of a query's audit, with a certificate of its
minimum cost. esr check verifies it without the script or the engine.

For example:

  $ printf 'item a 1\\nbegin q query 0\\nread q a\\ncommit q\\n' | esr certify q | esr check
  valid 0";

pub const CHECK: &str = "Prints one line:

  valid W      the certificate proves that W is the minimum cost (status 0)
  invalid K    it does not (status 1): 1 set not ascending, 2 set contains an
               unknown update, 3 set not closed; 4 flow exceeds the capacity of
               an arc, or a list has the wrong length; 5 flow not conserved at
               an update; 6 worth differs from the flow or from the cost of the
               set; 7 too many augmentations
  bad K        not a bundle (status 1): 1 not JSON, 2 wrong key or type, 3 number
               out of range

For example:

  $ printf '{' | esr check
  bad 1

With --script and --query, prints valid W of NAME if the problem of the bundle is
the problem of that query in the script, and valid W, not of NAME (status 1) if
the bundle is valid but its problem is a different one.";

pub const EXPLAIN: &str =
    "Prints each read of a committed query with the value at the nearest placement,
each charge, and the updates before and after that placement.

For example:

  $ printf 'item a 1\\nbegin q query 0\\nread q a\\ncommit q\\n' | esr explain q
  read a 1 nearest 1 off 0
  before -
  after -
  distance 0 import 0";

pub const PICTURE: &str =
    "The picture has a lane for each item that the query read, green wherever the item
has the value that was read, and a line at the placement of minimum distance.

For example:

  $ printf 'item a 1\\nbegin q query 0\\nread q a\\ncommit q\\n' | esr picture q | grep -c '<svg'
  1";

pub const AUDIT: &str =
    "Prints the committed updates in a serial order, one line per committed query, and
the totals. Errors in the script are reported on standard error first.

For example:

  $ printf 'item a 1\\nbegin q query 0\\nread q a\\ncommit q\\n' | esr audit
  order -
  audit q distance 0 import 0 before -
  totals import 0 export 0 entries 3";

pub const DRIVE: &str =
    "A drive file consists of item lines, followed by blocks. A block is a line session
followed by the begin, read, write, commit and abort lines of one thread. Blocked
lines are tried up to 100 times. If a line has an error, no block is executed.

For example:

  $ printf 'item a 1\\nsession\\nbegin u update 0\\nwrite u a 2\\ncommit u\\n' | esr drive
  item a 1
  session 0
  begun u 1
  wrote u a 2
  committed u
  totals import 0 export 0 entries 3";

pub const EXPLORE: &str = "Runs the sessions of a drive file on one thread, line by line, in many
interleavings: random ones, or all. Prints how often the lines of each session
were blocked, and the maximum and median import and distance of each query.

To find the limit that a report needs, set a large one and see the worst import.

For example:

  $ printf 'item a 1\\nsession\\nbegin q query 0\\nread q a\\ncommit q\\n' | esr explore --all
  interleavings 1 of 1
  session 0 blocked max 0 median 0 gave up 0
  query q committed 1 import max 0 median 0 distance max 0 median 0";

pub const LEDGER: &str =
    "Prints one row per transaction, in the order of the begins: number, name, kind,
limit, charges and remaining limit, number of accepted reads and writes, number
of events blocked by locks, import limits and export limits, outcome, first and
last line, and the distance of a committed query.

To find the limit that a report needs, set a large one and see the charges.

For example:

  $ printf 'item a 1\\nbegin q query 0\\nread q a\\ncommit q\\n' | esr ledger --format csv | tail -n 1
  1,q,query,0,0,0,1,0,0,0,0,committed,0,2,4";

pub const WHY: &str = "The operands are a FILE and a NAME, in either order.

Prints, for each blocked line, the request and either the charge, the remaining
limit and the limit that would suffice, or the lock that blocked it and when that
lock was released. A cycle of waiting transactions is reported as a deadlock.

For example:

  $ printf 'item a 1\\nbegin u update 9\\nbegin v update 9\\nwrite u a 2\\nread v a\\ncommit u\\n' | esr why
  line 5: read v a: blocked by the write lock of u; u ended at line 6";

pub const LINT: &str = "Lists invalid lines, lines that produce an error or a refusal 1 to 8, and
transactions that are still active at the end, as FILE:LINE:COLUMN: REASON, for
each FILE in turn. The exit status is 1 if anything was listed.

For example:

  $ printf 'item a 1\\nwirte u a 2\\n' | esr lint
  line 2:1: unknown command \"wirte\"; write?";

pub const PAGE: &str =
    "The page is a single self-contained HTML file: totals, timelines, pictures and
explanations of the queries with the largest distance, charts and a table of all
queries, and the serial order.

For example:

  $ esr page examples/report.esr > page.html";

pub const TIMELINE: &str = "The operands are a FILE and a NAME, in either order.

The picture has a lane for each transaction: circles are reads, squares are writes,
and crosses are blocked lines. A blue arrow is a charge, from the update to the
report, with its amount; it is dashed for a read before commit. Below a report, its
limit fills up. Of a long script, only the query NAME and the transactions that
concern it are drawn; without a NAME, the committed query with the largest distance.

For example:

  $ printf 'item a 1\\nbegin q query 0\\nread q a\\ncommit q\\n' | esr timeline | grep -c '<svg'
  1";

pub const TRACE: &str =
    "The output is JSON in the trace-event format, which Perfetto (ui.perfetto.dev) and
chrome://tracing open: a track for each transaction, a slice for each event, and a
flow arrow for each charge, from the update to the report. A step takes 1 ms.

For example:

  $ printf 'item a 1\\nbegin q query 0\\nread q a\\ncommit q\\n' | esr trace | grep -c traceEvents
  1";

pub const SHRINK: &str =
    "Leaves out transactions, reads, writes and items as long as the query NAME still
commits with a distance of at least D. The result is the smallest script that was
found, and is run once more before it is printed. The search is deterministic.

For example:

  $ printf 'item a 1\\nbegin u update 5\\nbegin q query 5\\nwrite u a 3\\nread q a\\nabort u\\ncommit q\\n' | esr shrink q | esr audit | grep 'audit q'
  audit q distance 2 import 2 before -";
