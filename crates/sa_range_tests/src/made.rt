//! Conditions over a and b, made from a number.

use crate::line::cell;
use sa_value::OutOfMemory;
use std::alloc::Global;

/// Numbers that look like chance, the same in each run.
#[derive(Clone, Copy)]
pub(crate) struct Dice {
    state: u64,
}

impl Dice {
    ghost use Rattle.std.specs.Prelude.{◌<◌};

    /// The numbers that follow from this one.
    pub(crate) fn new(state: u64) -> Dice {
        Dice { state }
    }

    /// The next number below this one.
    pub(crate) fn roll(&mut self, sides: u64) -> u64
        requires { 0 < sides }
        ensures { result < sides }
    {
        self.state = self
            .state
            .wrapping_mul(6364136223846793005)
            .wrapping_add(1442695040888963407);
        (self.state >> 33) % sides
    }

    /// One of so many words with bars between them.
    fn pick<'a>(&mut self, words: &'a str, count: u64) -> &'a str
        requires { 0 < count }
    {
        cell(words, self.roll(count) as usize)
    }
}

/// Atoms: x and z are columns, y and w constants, s is a comparison.
const FORMS: &str = "\
x s y | x s y | x s y | x s y | x s y | x s y | x IS NULL | x IS NOT NULL | x BETWEEN y AND w | \
x IN (y, w) | x NOT IN (y, w) | NOT x <=> y | y s x | x = z | n > y | x s NULL | FALSE | NULL";

/// A condition: up to three groups of up to three atoms.
pub(crate) fn made(alloc: Global, dice: &mut Dice) -> Result<String, OutOfMemory> {
    let (within, between) = if dice.roll(2) == 0 {
        (" AND ", " OR ")
    } else {
        (" OR ", " AND ")
    };
    let mut text = String::new(alloc);
    for number in 0..dice.roll(3) + 1 {
        if number > 0 {
            text.push_str(between)?;
        }
        put_group(dice, within, &mut text)?;
    }
    Ok(text)
}

/// Up to three atoms with a word between them, in brackets, and now and then under NOT.
fn put_group(dice: &mut Dice, within: &str, text: &mut String) -> Result<(), OutOfMemory> {
    text.push_str(if dice.roll(8) == 0 { "NOT (" } else { "(" })?;
    for number in 0..dice.roll(3) + 1 {
        if number > 0 {
            text.push_str(within)?;
        }
        put_atom(dice, text)?;
    }
    text.push_str(")")?;
    Ok(())
}

fn put_atom(dice: &mut Dice, text: &mut String) -> Result<(), OutOfMemory> {
    let form = dice.pick(FORMS, 18);
    for letter in form.chars() {
        match letter {
            'x' | 'z' => text.push_str(dice.pick("a | b", 2))?,
            'y' | 'w' => text.push_str(dice.pick("10 | 20 | 30", 3))?,
            's' => text.push_str(dice.pick("= | <=> | <> | < | <= | > | >=", 7))?,
            _ => text.push(letter)?,
        }
    }
    Ok(())
}
