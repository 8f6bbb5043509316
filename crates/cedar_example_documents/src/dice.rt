//! Numbers that look like chance, and are the same in each run.

/// A linear generator.
#[derive(Drop)]
pub struct Dice {
    seed: u32,
}

impl Dice {
    /// The generator that begins with this number.
    pub fn new(seed: u32) -> Dice {
        Dice { seed }
    }

    /// A number below `sides`, which is at most 65536; 0, if that is 0.
    pub fn roll(&mut self, sides: u32) -> u32 {
        self.seed = self.seed.wrapping_mul(1664525).wrapping_add(1013904223);
        let high = self.seed / 65536;
        high.checked_rem(sides).unwrap_or(0)
    }

    /// The same, as a Long.
    pub fn long(&mut self, sides: u32) -> i64 {
        i64::from(self.roll(sides))
    }

    /// A Long, or none in one of four cases.
    pub fn long_or_none(&mut self, sides: u32) -> Option<i64> {
        let number = self.long(sides);
        if self.roll(4) == 0 {
            None
        } else {
            Some(number)
        }
    }

    /// True or false, or none in one of four cases.
    pub fn truth_or_none(&mut self) -> Option<bool> {
        let holds = self.roll(2) == 0;
        if self.roll(4) == 0 { None } else { Some(holds) }
    }

    /// One of the texts; none, if there are none.
    pub fn text(&mut self, texts: &[&'static str]) -> Option<&'static str> {
        let at = self.roll(16) as usize;
        match at.checked_rem(texts.len()) {
            Some(at) => texts.get(at).copied(),
            None => None,
        }
    }

    /// One of the texts, or none in one of four cases.
    pub fn text_or_none(&mut self, texts: &[&'static str]) -> Option<&'static str> {
        let text = self.text(texts);
        if self.roll(4) == 0 { None } else { text }
    }
}
