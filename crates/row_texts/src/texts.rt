use crate::members::{array, items, number, string};
use crate::trouble::Trouble;
use serde_json::Value as Json;
use std::alloc::Global;

/// Texts by their names.
#[derive(Drop)]
pub struct Texts {
    named: Vec<(String, String)>,
}

impl Texts {
    pub fn new(alloc: Global) -> Texts {
        Texts {
            named: Vec::new(alloc),
        }
    }

    /// Takes the texts that a file names.
    pub fn learn(&mut self, alloc: Global, file: &Json) -> Result<(), Trouble> {
        let Some(members) = file.get("texts") else {
            return Ok(());
        };
        let Some(members) = members.as_object() else {
            return Err(Trouble::Misshapen("texts"));
        };
        for (name, member) in members.iter() {
            let text = self.text(alloc, member)?;
            let name = String::from_str(alloc, name.as_str())?;
            self.named.push((name, text))?;
        }
        Ok(())
    }

    fn named(&self, name: &str) -> Result<&str, Trouble> {
        for entry in self.named.iter() {
            if entry.0.as_str() == name {
                return Ok(entry.1.as_str());
            }
        }
        Err(Trouble::NoText)
    }

    /// The text that a member spells: pieces that are joined, or one piece.
    pub fn text(&self, alloc: Global, json: &Json) -> Result<String, Trouble> {
        let Some(pieces) = json.get("join") else {
            return self.piece(alloc, json);
        };
        let mut out = String::new(alloc);
        for piece in array(pieces) {
            let piece = self.piece(alloc, piece)?;
            out.push_str(piece.as_str())?;
        }
        Ok(out)
    }

    /// A string, lines, a piece many times, a piece for each number, a named text for each number or
    /// with changes, or the text of a value of JSON.
    fn piece(&self, alloc: Global, json: &Json) -> Result<String, Trouble> {
        if let Some(text) = json.as_str() {
            let text = String::from_str(alloc, text)?;
            return Ok(text);
        }
        if let Some(piece) = json.get("repeat") {
            return times(alloc, string(piece, "repeat")?, json);
        }
        if let Some(piece) = json.get("each") {
            return for_each(alloc, string(piece, "each")?, json);
        }
        self.named_piece(alloc, json)
    }

    /// A named text for each number or with changes, the text of a value of JSON, or lines.
    fn named_piece(&self, alloc: Global, json: &Json) -> Result<String, Trouble> {
        if let Some(name) = json.get("numbered") {
            return numbered(alloc, self.named(string(name, "numbered")?)?, json);
        }
        if let Some(name) = json.get("named") {
            return changed(alloc, self.named(string(name, "named")?)?, json);
        }
        if let Some(value) = json.get("json") {
            let text = value.to_string(alloc)?;
            return Ok(text);
        }
        lines(alloc, json)
    }

    /// The bytes that a member spells: those of its text, or one for each letter of a text in Latin 1.
    pub fn bytes(&self, alloc: Global, json: &Json) -> Result<Vec<u8>, Trouble> {
        match json.get("latin") {
            Some(text) => latin(alloc, string(text, "latin")?),
            None => {
                let text = self.text(alloc, json)?;
                let bytes = Vec::from_slice(alloc, text.as_bytes())?;
                Ok(bytes)
            }
        }
    }
}

/// The text that a member of a table spells.
pub fn text_of(
    alloc: Global,
    table: &Json,
    name: &'static str,
    texts: &Texts,
) -> Result<String, Trouble> {
    match table.get(name) {
        Some(json) => texts.text(alloc, json),
        None => Err(Trouble::Misshapen(name)),
    }
}

fn latin(alloc: Global, text: &str) -> Result<Vec<u8>, Trouble> {
    let mut bytes = Vec::new(alloc);
    for letter in text.chars() {
        match u8::try_from(letter as u32) {
            Ok(byte) => bytes.push(byte)?,
            Err(_) => return Err(Trouble::Misshapen("latin")),
        }
    }
    Ok(bytes)
}

fn lines(alloc: Global, json: &Json) -> Result<String, Trouble> {
    let Some(lines) = json.as_array() else {
        return Err(Trouble::Misshapen("a text"));
    };
    let mut out = String::new(alloc);
    for line in lines.iter() {
        out.push_str(string(line, "a line")?)?;
        out.push_str("\n")?;
    }
    Ok(out)
}

/// How often a piece stands.
fn count(json: &Json) -> Result<u64, Trouble> {
    match json.get("times") {
        Some(n) => number(n, "times"),
        None => Err(Trouble::Misshapen("times")),
    }
}

/// How many pieces are joined before a long text is made of them.
const BLOCK: u64 = 4096;

fn times(alloc: Global, piece: &str, json: &Json) -> Result<String, Trouble> {
    let count = count(json)?;
    let block = copies(alloc, piece, count.min(BLOCK))?;
    let mut out = copies(alloc, block.as_str(), count / BLOCK)?;
    if BLOCK <= count {
        let rest = copies(alloc, piece, count % BLOCK)?;
        out.push_str(rest.as_str())?;
        return Ok(out);
    }
    Ok(block)
}

fn copies(alloc: Global, piece: &str, count: u64) -> Result<String, Trouble> {
    let mut out = String::new(alloc);
    for _ in 0..count {
        out.push_str(piece)?;
    }
    Ok(out)
}

/// The piece for each number from 1 on, with the number in place of its first `#`.
fn for_each(alloc: Global, piece: &str, json: &Json) -> Result<String, Trouble> {
    let Some((before, behind)) = piece.split_once('#') else {
        return Err(Trouble::Misshapen("each"));
    };
    let mut out = String::new(alloc);
    for i in 0..count(json)? {
        let n = i.saturating_add(1);
        let one = format!(in alloc; "{before}{n}{behind}")?;
        out.push_str(one.as_str())?;
    }
    Ok(out)
}

/// The text for each number `from` one `to` another, with the number in place of each `#`, and the
/// number before it in place of each `#-`.
fn numbered(alloc: Global, text: &str, json: &Json) -> Result<String, Trouble> {
    let from = bound(json, "from")?;
    let to = bound(json, "to")?;
    let mut out = String::new(alloc);
    for n in from..to.saturating_add(1) {
        let before = n.saturating_sub(1).to_string(alloc)?;
        let own = n.to_string(alloc)?;
        let one = text.replace(alloc, "#-", before.as_str())?;
        let one = one.as_str().replace(alloc, "#", own.as_str())?;
        out.push_str(one.as_str())?;
    }
    Ok(out)
}

fn bound(json: &Json, name: &'static str) -> Result<u64, Trouble> {
    match json.get(name) {
        Some(n) => number(n, name),
        None => Err(Trouble::Misshapen(name)),
    }
}

/// The text with other pieces in place of pieces that it has.
fn changed(alloc: Global, text: &str, json: &Json) -> Result<String, Trouble> {
    let mut out = String::from_str(alloc, text)?;
    for change in items(json, "with") {
        let [old, new] = array(change) else {
            return Err(Trouble::Misshapen("with"));
        };
        out = replaced(
            alloc,
            out.as_str(),
            string(old, "with")?,
            string(new, "with")?,
        )?;
    }
    Ok(out)
}

fn replaced(alloc: Global, text: &str, old: &str, new: &str) -> Result<String, Trouble> {
    let Some((before, behind)) = text.split_once(old) else {
        return Err(Trouble::NoText);
    };
    let out = format!(in alloc; "{before}{new}{behind}")?;
    Ok(out)
}
