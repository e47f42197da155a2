ghost use Rattle.std.specs.Prelude.{◌≡◌, option_map};
ghost use Rattle.prairie_words.specs.Reading as reading;
ghost use Rattle.prairie_words.specs.Seen.{seen_files};

use pr_outside::Name;

/// File words. No command has more than four.
#[derive(Clone, Copy)]
pub enum Files<'a> {
    None,
    One(&'a Name),
    Two(&'a Name, &'a Name),
    Three(&'a Name, &'a Name, &'a Name),
    Four(&'a Name, &'a Name, &'a Name, &'a Name),
}

impl<'a> Files<'a> {
    /// These and one more.
    pub fn with(self, word: &'a Name) -> Option<Files<'a>>
        ensures { option_map seen_files result
            ≡ reading.with_file (seen_files self.entry) word.now }
    {
        match self {
            Files::None => Some(Files::One(word)),
            Files::One(a) => Some(Files::Two(a, word)),
            Files::Two(a, b) => Some(Files::Three(a, b, word)),
            Files::Three(a, b, c) => Some(Files::Four(a, b, c, word)),
            Files::Four(..) => None,
        }
    }
}
