// Random texts by rules.
use sheet_values::NoMemory;
use std::alloc::Global;
use test_state::Random;

/// How often the letters of a text are replaced; the last time by the first rule of each.
const ROUNDS: u32 = 12;

/// What a letter may stand for.
#[derive(Debug, Drop)]
struct Rule {
    letter: u8,
    text: Vec<u8>,
}

/// What letters may stand for.
#[derive(Debug, Drop)]
pub struct Rules {
    list: Vec<Rule>,
}

/// The rules of a text: a letter, a blank, and what it may stand for, in each line. The first rule of a letter has no `@`.
pub fn read_rules(alloc: Global, text: &[u8]) -> Result<Rules, NoMemory> {
    let mut list = Vec::new(alloc);
    for line in text.split(|byte| *byte == b'\n') {
        push_rule(alloc, &mut list, line)?;
    }
    Ok(Rules { list })
}

// Adds the rule of a line, where it has one.
fn push_rule(alloc: Global, list: &mut Vec<Rule>, line: &[u8]) -> Result<(), NoMemory> {
    if let [letter, b' ', written @ ..] = line {
        let mut text = Vec::new(alloc);
        text.extend_from_slice(written)?;
        list.push(Rule {
            letter: *letter,
            text,
        })?;
    }
    Ok(())
}

impl Rules {
    // How many rules a letter has.
    fn count(&self, letter: u8) -> u64 {
        let mut count: u64 = 0;
        for rule in &self.list {
            if rule.letter == letter {
                count = count.saturating_add(1);
            }
        }
        count
    }

    // The rule of a letter with a number, from 0.
    fn at(&self, letter: u8, number: u64) -> &[u8] {
        let mut before: u64 = 0;
        for rule in &self.list {
            if rule.letter == letter {
                if before == number {
                    return rule.text.as_slice();
                }
                before = before.saturating_add(1);
            }
        }
        &[]
    }

    // A random rule of a letter.
    fn any(&self, letter: u8, random: &mut Random) -> &[u8] {
        let count = self.count(letter);
        if count == 0 {
            return &[];
        }
        self.at(letter, random.below(count))
    }

    // What stands for the letter that a part begins with, and the part behind it.
    fn append(
        &self,
        out: &mut Vec<u8>,
        part: &[u8],
        is_last: bool,
        random: &mut Random,
    ) -> Result<(), NoMemory> {
        if let [letter, rest @ ..] = part {
            let text = if is_last {
                self.at(*letter, 0)
            } else {
                self.any(*letter, random)
            };
            out.extend_from_slice(text)?;
            out.extend_from_slice(rest)?;
        }
        Ok(())
    }

    // A text whose letters are replaced once.
    fn replaced(
        &self,
        alloc: Global,
        text: &[u8],
        is_last: bool,
        random: &mut Random,
    ) -> Result<Vec<u8>, NoMemory> {
        let mut out = Vec::new(alloc);
        let mut parts = text.split(|byte| *byte == b'@');
        if let Some(front) = parts.next() {
            out.extend_from_slice(front)?;
        }
        for part in parts {
            self.append(&mut out, part, is_last, random)?;
        }
        Ok(out)
    }

    /// A text whose letters are replaced until there is none.
    pub fn written(
        &self,
        alloc: Global,
        template: &[u8],
        random: &mut Random,
    ) -> Result<Vec<u8>, NoMemory> {
        let mut text = self.replaced(alloc, template, false, random)?;
        for round in 0..ROUNDS {
            text = self.replaced(alloc, text.as_slice(), round + 1 == ROUNDS, random)?;
        }
        Ok(text)
    }
}
