//! Worked examples of configurations. Each line of the input is a text in which `\xHH` is a byte, `\sN.` is N spaces and `\\`
//! is a backslash. Each line of the output has the fault, or what the configuration has other than the default one, and of
//! cache groups, where they aren't the two default ones, all, each with what it has other than a group that says nothing.
#![tactic(auto)]

use fault_place::Spot;
use graph_types::{CacheGroup, Condition, Config, EntrySpec, Part, Select, Template};
use pack_config::{ConfigEnd, ConfigKind, read_config};
use pack_util::Text;
use std::alloc::{AllocError, Global};
use std::io;

fn kind_name(kind: ConfigKind) -> &'static str {
    match kind {
        ConfigKind::TooLong => "TooLong",
        ConfigKind::Json => "Json",
        ConfigKind::UnknownKey => "UnknownKey",
        ConfigKind::WrongType => "WrongType",
        ConfigKind::OutOfRange => "OutOfRange",
        ConfigKind::Repeated => "Repeated",
    }
}

fn hex_value(digit: u8) -> u8 {
    match digit {
        b'0'..=b'9' => digit - b'0',
        b'A'..=b'F' => digit - b'A' + 10,
        _ => 0,
    }
}

fn push_spaces(text: &mut Vec<u8>, count: u32) -> Result<(), AllocError> {
    for _ in 0..count {
        text.push(b' ')?;
    }
    Ok(())
}

/// The bytes that an escaped text stands for.
fn unescaped(alloc: Global, escaped: &str) -> Result<Vec<u8>, AllocError> {
    let mut text = Vec::new(alloc);
    let mut first = true;
    for part in escaped.split('\\') {
        if first {
            text.extend_from_slice(part.as_bytes())?;
        } else {
            push_part(&mut text, part)?;
        }
        first = false;
    }
    Ok(text)
}

/// What stands between one backslash and the next.
fn push_part(text: &mut Vec<u8>, part: &str) -> Result<(), AllocError> {
    match part.as_bytes() {
        [b'x', high, low, rest @ ..] => {
            text.push((hex_value(*high) % 16) << 4 | hex_value(*low) % 16)?;
            text.extend_from_slice(rest)
        }
        [b's', ..] => match part.split_once('.') {
            Some((count, rest)) => {
                let count = count.trim_start_matches('s').parse::<u32>().unwrap_or(0);
                push_spaces(text, count)?;
                text.extend_from_slice(rest.as_bytes())
            }
            None => Ok(()),
        },
        rest => {
            text.push(b'\\')?;
            text.extend_from_slice(rest)
        }
    }
}

fn show_text(line: &mut String, text: &Text) -> Result<(), AllocError> {
    line.push_str(text.get())
}

fn show_texts(line: &mut String, texts: &[Text]) -> Result<(), AllocError> {
    for text in texts {
        line.push_str(" ")?;
        show_text(line, text)?;
    }
    Ok(())
}

fn show_spot(line: &mut String, spot: &Spot) -> Result<(), AllocError> {
    let (offset, row, column) = (spot.offset, spot.line, spot.column);
    write!(line, "@{offset}:{row}:{column}")
}

fn show_entries(line: &mut String, entries: &[EntrySpec]) -> Result<(), AllocError> {
    line.push_str(" entry")?;
    for entry in entries {
        line.push_str(" ")?;
        show_text(line, &entry.name)?;
        line.push_str("(")?;
        for file in entry.files.as_slice() {
            line.push_str(" ")?;
            show_text(line, &file.request)?;
            show_spot(line, &file.at)?;
        }
        line.push_str(" )")?;
    }
    Ok(())
}

fn is_default(entries: &[EntrySpec]) -> bool {
    match entries {
        [entry] => match entry.files.as_slice() {
            [file] => entry.name.get() == "main"
                && file.request.get() == "./src/index.js"
                && file.at.offset == 0,
            _ => false,
        },
        _ => false,
    }
}

fn show_part(line: &mut String, part: &Part) -> Result<(), AllocError> {
    match part {
        Part::Fixed(text) => show_text(line, text),
        Part::Name => line.push_str("<name>"),
        Part::Id => line.push_str("<id>"),
        Part::Hash(digits) => {
            let digits = *digits;
            write!(line, "<{digits}>")
        }
    }
}

fn template_text(alloc: Global, template: &Template) -> Result<String, AllocError> {
    let mut text = String::new(alloc);
    for part in template.parts.as_slice() {
        show_part(&mut text, part)?;
    }
    Ok(text)
}

fn show_template(
    line: &mut String,
    name: &str,
    text: &str,
    default: &str,
) -> Result<(), AllocError> {
    if text == default {
        return Ok(());
    }
    line.push_str(" ")?;
    line.push_str(name)?;
    line.push_str(" ")?;
    line.push_str(text)
}

fn show_list(
    line: &mut String,
    name: &str,
    texts: &[Text],
    default: &[&str],
) -> Result<(), AllocError> {
    if are_same(texts, default) {
        return Ok(());
    }
    line.push_str(" ")?;
    line.push_str(name)?;
    line.push_str("(")?;
    show_texts(line, texts)?;
    line.push_str(" )")
}

fn are_same(texts: &[Text], words: &[&str]) -> bool {
    texts.len() == words.len()
        && texts
            .iter()
            .zip(words)
            .all(|(text, word)| text.get() == *word)
}

#[cycle(show)]
fn show_condition(line: &mut String, condition: &Condition) -> Result<(), AllocError> {
    match condition {
        Condition::Prefix(text) => show_pattern(line, "prefix", text),
        Condition::Contains(text) => show_pattern(line, "contains", text),
        Condition::EndsWith(text) => show_pattern(line, "endsWith", text),
        Condition::InDir(text) => show_pattern(line, "inDir", text),
        Condition::And(members) => show_conditions(line, "and", members.as_slice()),
        Condition::Or(members) => show_conditions(line, "or", members.as_slice()),
        Condition::Not(member) => {
            line.push_str("not ")?;
            show_condition(line, member.get())
        }
    }
}

fn show_pattern(line: &mut String, name: &str, text: &Text) -> Result<(), AllocError> {
    line.push_str(name)?;
    line.push_str("'")?;
    show_text(line, text)?;
    line.push_str("'")
}

#[cycle(show)]
fn show_conditions(
    line: &mut String,
    name: &str,
    conditions: &[Condition],
) -> Result<(), AllocError> {
    line.push_str(name)?;
    line.push_str("(")?;
    for condition in conditions {
        line.push_str(" ")?;
        show_condition(line, condition)?;
    }
    line.push_str(" )")
}

fn is_true(condition: &Condition) -> bool {
    match condition {
        Condition::And(members) => members.as_slice().is_empty(),
        _ => false,
    }
}

fn show_name(line: &mut String, group: &CacheGroup) -> Result<(), AllocError> {
    if let Some(name) = &group.name {
        line.push_str(" name ")?;
        show_text(line, name)?;
        show_spot(line, &group.name_at)?;
    }
    Ok(())
}

fn show_select(line: &mut String, select: Select) -> Result<(), AllocError> {
    match select {
        Select::Async => Ok(()),
        Select::Initial => line.push_str(" initial"),
        Select::All => line.push_str(" all"),
    }
}

fn show_number(
    line: &mut String,
    name: &str,
    number: Option<u64>,
    default: u64,
) -> Result<(), AllocError> {
    match number {
        Some(number) if number == default => Ok(()),
        Some(number) => write!(line, " {name} {number}"),
        None => write!(line, " {name} none"),
    }
}

fn show_group(line: &mut String, group: &CacheGroup) -> Result<(), AllocError> {
    line.push_str(" ")?;
    show_text(line, &group.key)?;
    line.push_str("{")?;
    show_name(line, group)?;
    if !is_true(&group.test) {
        line.push_str(" ")?;
        show_condition(line, &group.test)?;
    }
    show_select(line, group.select)?;
    show_number(line, "minSize", Some(group.min_size), 20_000)?;
    show_number(line, "minChunks", Some(u64::from(group.min_chunks)), 1)?;
    show_number(line, "maxAsync", group.max_async.map(u64::from), 30)?;
    show_number(line, "maxInitial", group.max_initial.map(u64::from), 30)?;
    show_number(line, "threshold", group.threshold, 50_000)?;
    if group.priority != 0 {
        let priority = group.priority;
        write!(line, " priority {priority}")?;
    }
    if group.reuse {
        line.push_str(" reuse")?;
    }
    line.push_str(" }")
}

/// The two groups that are there where nothing is said of them.
const DEFAULT_GROUPS: &str =
    " default{ minChunks 2 priority -20 reuse } defaultVendors{ inDir'node_modules' priority -10 reuse }";

fn groups_text(alloc: Global, groups: &[CacheGroup]) -> Result<String, AllocError> {
    let mut text = String::new(alloc);
    for group in groups {
        show_group(&mut text, group)?;
    }
    Ok(text)
}

fn show_alias(line: &mut String, alias: &[(Text, Text)]) -> Result<(), AllocError> {
    for (key, target) in alias {
        line.push_str(" alias ")?;
        show_text(line, key)?;
        line.push_str("=>")?;
        show_text(line, target)?;
    }
    Ok(())
}

fn show_flags(line: &mut String, config: &Config) -> Result<(), AllocError> {
    if config.named_ids {
        line.push_str(" named")?;
    }
    if !config.merge_equal {
        line.push_str(" unmerged")?;
    }
    if !config.drop_empty {
        line.push_str(" empty")?;
    }
    Ok(())
}

fn show_names(alloc: Global, line: &mut String, config: &Config) -> Result<(), AllocError> {
    let filename = template_text(alloc, &config.filename)?;
    show_template(line, "filename", filename.as_str(), "<name>.js")?;
    let chunk_filename = template_text(alloc, &config.chunk_filename)?;
    show_template(line, "chunkFilename", chunk_filename.as_str(), "<id>.js")?;
    if !config.public_path.get().is_empty() {
        line.push_str(" publicPath ")?;
        show_text(line, &config.public_path)?;
    }
    Ok(())
}

fn show_groups(alloc: Global, line: &mut String, config: &Config) -> Result<(), AllocError> {
    let groups = groups_text(alloc, config.cache_groups.as_slice())?;
    if groups.as_str() == DEFAULT_GROUPS {
        return Ok(());
    }
    line.push_str(" groups")?;
    line.push_str(groups.as_str())
}

fn show_config(alloc: Global, line: &mut String, config: &Config) -> Result<(), AllocError> {
    line.push_str("ok")?;
    if !is_default(config.entries.as_slice()) {
        show_entries(line, config.entries.as_slice())?;
    }
    show_names(alloc, line, config)?;
    show_alias(line, config.alias.as_slice())?;
    show_list(
        line,
        "extensions",
        config.extensions.as_slice(),
        &[".js", ".json"],
    )?;
    show_list(
        line,
        "mainFields",
        config.main_fields.as_slice(),
        &["browser", "module", "main"],
    )?;
    show_list(line, "mainFiles", config.main_files.as_slice(), &["index"])?;
    show_list(
        line,
        "conditionNames",
        config.conditions.as_slice(),
        &["webpack", "browser", "module"],
    )?;
    show_flags(line, config)?;
    show_groups(alloc, line, config)
}

fn answer(alloc: Global, text: &[u8]) -> Result<String, AllocError> {
    let mut line = String::new(alloc);
    match read_config(alloc, text) {
        Ok(config) => show_config(alloc, &mut line, &config)?,
        Err(ConfigEnd::Fault(fault)) => {
            let kind = kind_name(fault.kind);
            let offset = fault.offset;
            write!(line, "{kind} at {offset}")?;
        }
        Err(ConfigEnd::NoMemory) => return Err(AllocError),
    }
    Ok(line)
}

fn main(rt: HostRuntime) -> io::Result<()> {
    let alloc = rt.alloc();
    for line in rt.lines(alloc) {
        let line = line?;
        let text = unescaped(alloc, line.as_str())?;
        let answer = answer(alloc, &text)?;
        println!(rt; "{answer}")?;
    }
    Ok(())
}
