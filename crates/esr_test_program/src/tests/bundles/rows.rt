//! Worked bundles, each with a change and the verdict.

/// Two updates over a report: the set holds both.
pub const TWO_UPDATES: &str =
    r#"{"certificate":{"back_flow":[0],"chain_flow":[[0,0,1],[1,0]],"set":[0,1],"worth":1},"problem":{"before":[[0,1]],"chains":[{"costs":[0,10,1],"item":0,"writers":[0,1]},{"costs":[8,0],"item":1,"writers":[1]}],"updates":[2,3]}}"#;

/// Two updates ordered through a third item: the flow takes the back arc.
pub const BACK_FLOW: &str =
    r#"{"certificate":{"back_flow":[2],"chain_flow":[[0,2],[2,0]],"set":[],"worth":2},"problem":{"before":[[0,1]],"chains":[{"costs":[0,6],"item":0,"writers":[0]},{"costs":[2,0],"item":1,"writers":[1]}],"updates":[2,3]}}"#;

/// A query that read nothing.
pub const EMPTY: &str =
    r#"{"certificate":{"back_flow":[],"chain_flow":[],"set":[],"worth":0},"problem":{"before":[],"chains":[],"updates":[]}}"#;

/// A strict report: the set has to hold the one update.
pub const STRICT: &str =
    r#"{"certificate":{"back_flow":[],"chain_flow":[[0,5]],"must_flow":[5],"set":[0],"worth":5},"problem":{"before":[],"chains":[{"costs":[0,5],"item":0,"writers":[0]}],"must":[0],"updates":[1]}}"#;

/// A bundle with its first `old` replaced by `new`, and what `judge` writes of it.
pub struct Row {
    pub bundle: &'static str,
    pub old: &'static str,
    pub new: &'static str,
    pub line: &'static str,
}

pub fn table() -> &'static [Row] {
    &ROWS
}

static ROWS: [Row; 44] = [
    // As it was written.
    Row {
        bundle: TWO_UPDATES,
        old: "",
        new: "",
        line: "valid 1\n",
    },
    // The set does not ascend.
    Row {
        bundle: TWO_UPDATES,
        old: r#""set":[0,1]"#,
        new: r#""set":[1,0]"#,
        line: "invalid 1\n",
    },
    // The set has a position without an update.
    Row {
        bundle: TWO_UPDATES,
        old: r#""set":[0,1]"#,
        new: r#""set":[0,2]"#,
        line: "invalid 2\n",
    },
    // The set lacks a predecessor of one of its updates.
    Row {
        bundle: TWO_UPDATES,
        old: r#""set":[0,1]"#,
        new: r#""set":[1]"#,
        line: "invalid 3\n",
    },
    // An amount is above its arc's capacity.
    Row {
        bundle: TWO_UPDATES,
        old: "[0,0,1],[1,0]",
        new: "[0,0,2],[1,0]",
        line: "invalid 4\n",
    },
    // A list of amounts is too short.
    Row {
        bundle: TWO_UPDATES,
        old: r#""back_flow":[0]"#,
        new: r#""back_flow":[]"#,
        line: "invalid 4\n",
    },
    // The flow into an update exceeds the flow out of it.
    Row {
        bundle: TWO_UPDATES,
        old: "[0,0,1],[1,0]",
        new: "[0,0,0],[1,0]",
        line: "invalid 5\n",
    },
    // The worth is not the flow's.
    Row {
        bundle: TWO_UPDATES,
        old: r#""worth":1"#,
        new: r#""worth":0"#,
        line: "invalid 6\n",
    },
    // The flow shows the worth, and the set costs more.
    Row {
        bundle: TWO_UPDATES,
        old: r#""set":[0,1]"#,
        new: r#""set":[]"#,
        line: "invalid 6\n",
    },
    // It is not JSON.
    Row {
        bundle: TWO_UPDATES,
        old: "[2,3]}}",
        new: "[2,3]}",
        line: "bad 1\n",
    },
    // Neighbours of a chain do not form a pair.
    Row {
        bundle: TWO_UPDATES,
        old: r#""before":[[0,1]]"#,
        new: r#""before":[]"#,
        line: "bad 2\n",
    },
    // A negative number is not permitted.
    Row {
        bundle: TWO_UPDATES,
        old: r#""worth":1"#,
        new: r#""worth":-1"#,
        line: "bad 2\n",
    },
    // 0 is not a transaction.
    Row {
        bundle: TWO_UPDATES,
        old: "[2,3]}}",
        new: "[2,0]}}",
        line: "bad 3\n",
    },
    // A cost is above what reads can cost.
    Row {
        bundle: TWO_UPDATES,
        old: "[8,0]",
        new: "[2000000000000000001,0]",
        line: "bad 3\n",
    },
    // Pairs occur twice: the shape.
    Row {
        bundle: TWO_UPDATES,
        old: r#""before":[[0,1]]"#,
        new: r#""before":[[0,1],[0,1]]"#,
        line: "bad 2\n",
    },
    // A position of 64 bits is out of range, and of the right shape.
    Row {
        bundle: TWO_UPDATES,
        old: r#""before":[[0,1]]"#,
        new: r#""before":[[0,1],[1,18446744073709551615]]"#,
        line: "bad 3\n",
    },
    // A number of more than 64 bits is not permitted in a bundle.
    Row {
        bundle: TWO_UPDATES,
        old: r#""before":[[0,1]]"#,
        new: r#""before":[[0,1],[1,18446744073709551616]]"#,
        line: "bad 2\n",
    },
    // A pair has two positions.
    Row {
        bundle: TWO_UPDATES,
        old: r#""before":[[0,1]]"#,
        new: r#""before":[[0,1,1]]"#,
        line: "bad 2\n",
    },
    // A pair goes forward.
    Row {
        bundle: TWO_UPDATES,
        old: r#""before":[[0,1]]"#,
        new: r#""before":[[1,0]]"#,
        line: "bad 2\n",
    },
    // A position of 33 bits is out of range.
    Row {
        bundle: TWO_UPDATES,
        old: r#""set":[0,1]"#,
        new: r#""set":[4294967296]"#,
        line: "bad 3\n",
    },
    // One of 32 bits is known to no problem.
    Row {
        bundle: TWO_UPDATES,
        old: r#""set":[0,1]"#,
        new: r#""set":[4294967295]"#,
        line: "invalid 2\n",
    },
    // An unknown field is not ignored.
    Row {
        bundle: TWO_UPDATES,
        old: r#""updates":[2,3]"#,
        new: r#""updates":[2,3],"x":0"#,
        line: "bad 2\n",
    },
    // No update is there twice.
    Row {
        bundle: TWO_UPDATES,
        old: r#""updates":[2,3]"#,
        new: r#""updates":[2,2]"#,
        line: "bad 2\n",
    },
    // There are at most 65,535 transactions.
    Row {
        bundle: TWO_UPDATES,
        old: r#""updates":[2,3]"#,
        new: r#""updates":[65536,3]"#,
        line: "bad 3\n",
    },
    // There are at most 4,096 items.
    Row {
        bundle: TWO_UPDATES,
        old: r#""item":1"#,
        new: r#""item":4096"#,
        line: "bad 3\n",
    },
    // A number has no point.
    Row {
        bundle: TWO_UPDATES,
        old: r#""item":1"#,
        new: r#""item":1.0"#,
        line: "bad 2\n",
    },
    // Items ascend.
    Row {
        bundle: TWO_UPDATES,
        old: r#""item":1"#,
        new: r#""item":0"#,
        line: "bad 2\n",
    },
    // A writer is one of the updates.
    Row {
        bundle: TWO_UPDATES,
        old: r#""writers":[1]"#,
        new: r#""writers":[2]"#,
        line: "bad 3\n",
    },
    // A list that must be there is missing.
    Row {
        bundle: TWO_UPDATES,
        old: r#""set":[0,1],"#,
        new: "",
        line: "bad 2\n",
    },
    // As it was written, with an amount on the arc of a pair.
    Row {
        bundle: BACK_FLOW,
        old: "",
        new: "",
        line: "valid 2\n",
    },
    // A count of augmentations that may be.
    Row {
        bundle: BACK_FLOW,
        old: r#""back_flow""#,
        new: r#""augmentations":1,"back_flow""#,
        line: "valid 2\n",
    },
    // The largest that may be: nodes times arcs.
    Row {
        bundle: BACK_FLOW,
        old: r#""back_flow""#,
        new: r#""augmentations":20,"back_flow""#,
        line: "valid 2\n",
    },
    // One more.
    Row {
        bundle: BACK_FLOW,
        old: r#""back_flow""#,
        new: r#""augmentations":21,"back_flow""#,
        line: "invalid 7\n",
    },
    // A count is a number.
    Row {
        bundle: BACK_FLOW,
        old: r#""back_flow""#,
        new: r#""augmentations":"1","back_flow""#,
        line: "bad 2\n",
    },
    // A problem of nothing costs nothing.
    Row {
        bundle: EMPTY,
        old: "",
        new: "",
        line: "valid 0\n",
    },
    // A count of 0 augmentations is valid.
    Row {
        bundle: EMPTY,
        old: r#""back_flow""#,
        new: r#""augmentations":0,"back_flow""#,
        line: "valid 0\n",
    },
    // Without an arc, the count of augmentations must be 0.
    Row {
        bundle: EMPTY,
        old: r#""back_flow""#,
        new: r#""augmentations":1,"back_flow""#,
        line: "invalid 7\n",
    },
    // An empty list is permitted all the same.
    Row {
        bundle: EMPTY,
        old: r#""set""#,
        new: r#""must_flow":[],"set""#,
        line: "valid 0\n",
    },
    // The bundle as written, with the required updates of a set.
    Row {
        bundle: STRICT,
        old: "",
        new: "",
        line: "valid 5\n",
    },
    // The set lacks it.
    Row {
        bundle: STRICT,
        old: r#""set":[0]"#,
        new: r#""set":[]"#,
        line: "invalid 3\n",
    },
    // Its amount is missing.
    Row {
        bundle: STRICT,
        old: r#""must_flow":[5]"#,
        new: r#""must_flow":[]"#,
        line: "invalid 4\n",
    },
    // Its amount differs from the flow out of the update.
    Row {
        bundle: STRICT,
        old: r#""must_flow":[5]"#,
        new: r#""must_flow":[4]"#,
        line: "invalid 5\n",
    },
    // The worth is not the flow's.
    Row {
        bundle: STRICT,
        old: r#""worth":5"#,
        new: r#""worth":4"#,
        line: "invalid 6\n",
    },
    // A required update is one of the updates.
    Row {
        bundle: STRICT,
        old: r#""must":[0]"#,
        new: r#""must":[1]"#,
        line: "bad 3\n",
    },
];
