//! Parsing of the words, which are the program's command-line arguments.

ghost use Rattle.std.specs.Prelude.{◌≡◌, map, string_bytes};
ghost use Rattle.csl_cli.specs.Command.{parse_words, named_format, named_kind, command_view};
ghost use Rattle.csl_cli.specs.Command.{parse_title, parse_label, parse_kind, kind_verdict_of, leaf_verdict};
ghost use Rattle.csl_cli.specs.Command.{parse_cite, cite_verdict_of, cite_verdict_in};

use csl_samples::{BuiltIn, BuiltInStyle};
use csl_style::Kind;
use csl_tree::BufWriteFormat;

/// A parsed command.
#[derive(Clone, Copy)]
pub enum Command<'a> {
    /// A title, written in a format.
    Title {
        title: &'a str,
        format: BufWriteFormat,
    },
    /// A cite of an entry by a style, written in a format.
    Cite {
        entry: BuiltIn,
        style: BuiltInStyle,
        format: BufWriteFormat,
    },
    /// The label of an entry.
    Label(BuiltIn),
    /// Whether an entry is of a kind.
    Kind {
        entry: BuiltIn,
        kind: Kind,
    },
    /// The leaf text of HTML.
    Leaf(&'a str),
}

/// The reason why the words are not a command.
#[derive(Clone, Copy)]
pub enum WordsError<'a> {
    /// The words end where another one is expected.
    Missing,
    /// This word is not expected at its place.
    Unknown(&'a str),
}

/// Parses the words from the left. No words at all mean the title `Nature` in HTML.
pub fn command_of(words: &[String]) -> Result<Command<'_>, WordsError<'_>>
    ensures { command_view result ≡ parse_words words.now }
{
    match words {
        [] => Ok(Command::Title {
            title: "Nature",
            format: BufWriteFormat::Html,
        }),
        [name, words @ ..] => match name.as_str() {
            "title" => title_command(words),
            "cite" => cite_command(words),
            "label" => label_command(words),
            "kind" => kind_command(words),
            "leaf" => leaf_command(words),
            _ => Err(WordsError::Unknown(name.as_str())),
        },
    }
}

/// Parses the words after `title`.
fn title_command(words: &[String]) -> Result<Command<'_>, WordsError<'_>>
    ensures { command_view result ≡ parse_title (map string_bytes words.now) }
{
    let [title, name, more @ ..] = words else {
        return Err(WordsError::Missing);
    };
    let Some(format) = format_of_name(name.as_str()) else {
        return Err(WordsError::Unknown(name.as_str()));
    };
    match more {
        [] => Ok(Command::Title {
            title: title.as_str(),
            format,
        }),
        [word, ..] => Err(WordsError::Unknown(word.as_str())),
    }
}

/// The format with this name, if there is one.
fn format_of_name(name: &str) -> Option<BufWriteFormat>
    ensures { result ≡ named_format name.now }
{
    match name {
        "plain" => Some(BufWriteFormat::Plain),
        "html" => Some(BufWriteFormat::Html),
        _ => None,
    }
}

/// Parses the words after `cite`.
fn cite_command(words: &[String]) -> Result<Command<'_>, WordsError<'_>>
    ensures { command_view result ≡ parse_cite (map string_bytes words.now) }
{
    let [key, more @ ..] = words else {
        return Err(WordsError::Missing);
    };
    match BuiltIn::of_key(key.as_str()) {
        Some(entry) => cite_command_of(entry, more),
        None => Err(WordsError::Unknown(key.as_str())),
    }
}

/// Parses the words after `cite` and an entry.
fn cite_command_of(entry: BuiltIn, words: &[String]) -> Result<Command<'_>, WordsError<'_>>
    ensures { command_view result ≡ cite_verdict_of entry (map string_bytes words.now) }
{
    let [name, more @ ..] = words else {
        return Err(WordsError::Missing);
    };
    match BuiltInStyle::of_name(name.as_str()) {
        Some(style) => cite_command_in(entry, style, more),
        None => Err(WordsError::Unknown(name.as_str())),
    }
}

/// Parses the words after `cite`, an entry and a style.
fn cite_command_in(
    entry: BuiltIn,
    style: BuiltInStyle,
    words: &[String],
) -> Result<Command<'_>, WordsError<'_>>
    ensures { command_view result ≡ cite_verdict_in entry style (map string_bytes words.now) }
{
    let [name, more @ ..] = words else {
        return Err(WordsError::Missing);
    };
    let Some(format) = format_of_name(name.as_str()) else {
        return Err(WordsError::Unknown(name.as_str()));
    };
    match more {
        [] => Ok(Command::Cite {
            entry,
            style,
            format,
        }),
        [word, ..] => Err(WordsError::Unknown(word.as_str())),
    }
}

/// Parses the words after `label`.
fn label_command(words: &[String]) -> Result<Command<'_>, WordsError<'_>>
    ensures { command_view result ≡ parse_label (map string_bytes words.now) }
{
    let [key, more @ ..] = words else {
        return Err(WordsError::Missing);
    };
    let Some(entry) = BuiltIn::of_key(key.as_str()) else {
        return Err(WordsError::Unknown(key.as_str()));
    };
    match more {
        [] => Ok(Command::Label(entry)),
        [word, ..] => Err(WordsError::Unknown(word.as_str())),
    }
}

/// Parses the words after `kind`.
fn kind_command(words: &[String]) -> Result<Command<'_>, WordsError<'_>>
    ensures { command_view result ≡ parse_kind (map string_bytes words.now) }
{
    let [key, more @ ..] = words else {
        return Err(WordsError::Missing);
    };
    match BuiltIn::of_key(key.as_str()) {
        Some(entry) => kind_command_of(entry, more),
        None => Err(WordsError::Unknown(key.as_str())),
    }
}

/// Parses the words after `kind` and an entry.
fn kind_command_of(entry: BuiltIn, words: &[String]) -> Result<Command<'_>, WordsError<'_>>
    ensures { command_view result ≡ kind_verdict_of entry (map string_bytes words.now) }
{
    let [name, more @ ..] = words else {
        return Err(WordsError::Missing);
    };
    let Some(kind) = kind_of_name(name.as_str()) else {
        return Err(WordsError::Unknown(name.as_str()));
    };
    match more {
        [] => Ok(Command::Kind { entry, kind }),
        [word, ..] => Err(WordsError::Unknown(word.as_str())),
    }
}

/// The kind with this name, if there is one.
fn kind_of_name(name: &str) -> Option<Kind>
    ensures { result ≡ named_kind name.now }
{
    Kind::from_name(name)
}

/// Parses the words after `leaf`.
fn leaf_command(words: &[String]) -> Result<Command<'_>, WordsError<'_>>
    ensures { command_view result ≡ leaf_verdict (map string_bytes words.now) }
{
    let [html, more @ ..] = words else {
        return Err(WordsError::Missing);
    };
    match more {
        [] => Ok(Command::Leaf(html.as_str())),
        [word, ..] => Err(WordsError::Unknown(word.as_str())),
    }
}
