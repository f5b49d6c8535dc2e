// The rules, as a table or as lines of JSON.
use crate::json::quoted;
use crate::report::Form;
use anyhow::Result;
use lsp_watch::{Rule, rules};
use std::alloc::Global;
use std::io::Write;

/// Tells each rule. In `data` of `lsp_check` there are a log that keeps it and one that breaks it.
pub fn tell_rules<W: Write>(alloc: Global, form: Form, out: &mut W) -> Result<()> {
    for rule in rules(alloc)?.iter() {
        match form {
            Form::Json => put(alloc, *rule, out)?,
            _ => print(alloc, *rule, out)?,
        }
    }
    Ok(())
}

fn print<W: Write>(alloc: Global, rule: Rule, out: &mut W) -> Result<()> {
    let level = format!(in alloc; "{}", rule.level())?;
    let side = format!(in alloc; "{}", rule.side())?;
    let (level, side) = (level.as_str(), side.as_str());
    Ok(writeln!(out, "{:<18} {level:<8} {side:<9} {rule}", rule.name())?)
}

fn put<W: Write>(alloc: Global, rule: Rule, out: &mut W) -> Result<()> {
    let (name, group, level, side) = (rule.name(), rule.group(), rule.level(), rule.side());
    let sentence = quoted(alloc, rule.sentence())?;
    let section = quoted(alloc, rule.section())?;
    Ok(writeln!(
        out,
        "{{\"kind\":\"rule\",\"rule\":\"{name}\",\"group\":\"{group}\",\"level\":\"{level}\",\"side\":\"{side}\",\"sentence\":{sentence},\"section\":{section},\"keeps\":\"{name}_kept.lsp\",\"breaks\":\"{name}_broken.lsp\"}}"
    )?)
}
