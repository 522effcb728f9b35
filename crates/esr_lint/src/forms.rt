//! The forms of a script's lines, as a table: the required words of each.

/// The form of one word of a line.
#[derive(Clone, Copy)]
pub enum Slot {
    Name,
    Value,
    Limit,
    /// `update` or `query`
    Kind,
    /// `weight`, which may be omitted together with the number after it.
    Weight,
    /// `strict`, which may be left out.
    Strict,
}

/// A command's first word, its other words, and its syntax as text.
#[derive(Clone, Copy)]
pub struct CommandSyntax {
    pub word: &'static str,
    pub slots: &'static [Slot],
    pub text: &'static str,
}

static FORMS: [CommandSyntax; 8] = [
    CommandSyntax {
        word: "item",
        slots: &[Slot::Name, Slot::Value, Slot::Weight, Slot::Limit],
        text: "item NAME VALUE [weight W]",
    },
    CommandSyntax {
        word: "begin",
        slots: &[Slot::Name, Slot::Kind, Slot::Limit, Slot::Strict],
        text: "begin NAME update LIMIT, or begin NAME query LIMIT [strict]",
    },
    CommandSyntax {
        word: "read",
        slots: &[Slot::Name, Slot::Name],
        text: "read TRANSACTION ITEM",
    },
    CommandSyntax {
        word: "write",
        slots: &[Slot::Name, Slot::Name, Slot::Value],
        text: "write TRANSACTION ITEM VALUE",
    },
    CommandSyntax {
        word: "commit",
        slots: &[Slot::Name],
        text: "commit TRANSACTION",
    },
    CommandSyntax {
        word: "abort",
        slots: &[Slot::Name],
        text: "abort TRANSACTION",
    },
    CommandSyntax {
        word: "audit",
        slots: &[Slot::Name],
        text: "audit QUERY",
    },
    CommandSyntax {
        word: "totals",
        slots: &[],
        text: "totals",
    },
];

static WORDS: [&str; 8] = [
    "item", "begin", "read", "write", "commit", "abort", "audit", "totals",
];

/// Returns the form of the command that begins with the word.
pub fn form_of(word: &[u8]) -> Option<CommandSyntax> {
    for form in &FORMS {
        if form.word.as_bytes() == word {
            return Some(*form);
        }
    }
    None
}

/// Returns the first words of all commands.
pub fn first_words() -> &'static [&'static str] {
    &WORDS
}
