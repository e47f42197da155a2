use crate::trouble::Trouble;
use std::alloc::Global;
use std::str;

/// How many bytes of an answer are shown at the most.
const SHOWN: usize = 400;

/// How many rows came out as they say, and what the others came to.
#[derive(Drop)]
pub struct Report {
    pub right: u64,
    pub wrong: u64,
    pub lines: String,
    alloc: Global,
}

impl Report {
    pub fn new(alloc: Global) -> Report {
        Report {
            right: 0,
            wrong: 0,
            lines: String::new(alloc),
            alloc,
        }
    }

    /// Counts a row, and writes it down where it came out otherwise.
    pub fn row(
        &mut self,
        table: &str,
        row: &str,
        wanted: &[u8],
        came: &[u8],
    ) -> Result<(), Trouble> {
        if wanted == came {
            self.right = self.right.saturating_add(1);
            return Ok(());
        }
        self.wrong = self.wrong.saturating_add(1);
        self.tell(table, row, shown(wanted), shown(came))
    }

    fn tell(&mut self, table: &str, row: &str, wanted: &str, came: &str) -> Result<(), Trouble> {
        let line = format!(in self.alloc; "{table}: {row}: wanted {wanted:?}, came {came:?}\n")?;
        self.lines.push_str(line.as_str())?;
        Ok(())
    }
}

/// The beginning of a text.
fn shown(text: &[u8]) -> &str {
    let (begin, _) = text.split_at(text.len().min(SHOWN));
    str::from_utf8(begin).unwrap_or("no text in UTF-8")
}
