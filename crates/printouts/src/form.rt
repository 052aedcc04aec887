ghost use Rattle.std.specs.Prelude.{◌≡◌, ℕ, ◌≤◌, ◌∷◌, MatchOption, MatchResult};
ghost use Rattle.printouts.specs.Faults.{line_fault_number, line_fault_detail};
ghost use Rattle.printouts.specs.Form.{Takes, Says, Misread, OneReading};
ghost use Rattle.printouts.specs.Lines.{line_numbers};
ghost use Rattle.printouts.specs.Numerals.{Bounds};

use crate::fault::{LineFault, NumberFault};
use crate::line::Line;
use crate::number::read_number;
use rows::Row;

// Reads a line, without the byte that ends it.
pub fn read_line(text: &[u8]) -> Result<Line, LineFault>
    ensures { MatchResult result (λ l. Says text.now l.letter (line_numbers l)) (λ f. Misread text.now (line_fault_number f) (line_fault_detail f)) }
{
    let [first, rest @ ..] = text else {
        return Err(LineFault::Form(1));
    };
    let letter = char::from(*first);
    let Some((least, most)) = counts(letter) else {
        return Err(LineFault::Form(1));
    };
    read_numbers(letter, least, most, rest)
}

// At least and at most how many numbers follow a letter.
fn counts(letter: char) -> Option<(usize, usize)>
    ensures { MatchOption result ((n : ℕ) → Takes letter n → ⊥) (λ x. Bounds letter x.0 x.1 × (x.1 ≤ 9)) }
{
    match letter {
        'p' => Some((1, 9)),
        's' | 'd' | 'm' => Some((2, 2)),
        _ => None,
    }
}

// Reads what follows the letter. A number that is too wide is held back until the form is settled.
fn read_numbers(letter: char, least: usize, most: usize, text: &[u8]) -> Result<Line, LineFault>
    requires { Bounds letter least most × (most ≤ 9) }
    ensures { MatchResult result (λ l. (l.letter ≡ letter) × Says (letter ∷ text.now) letter (line_numbers l)) (λ f. Misread (letter ∷ text.now) (line_fault_number f) (line_fault_detail f)) }
{
    let mut numbers = Row::none();
    let mut fits: Result<(), NumberFault> = Ok(());
    let mut rest = text;
    while numbers.len() < most
        && let [b' ', more @ ..] = rest
    {
        let place = text.len() - more.len() + 2;
        let Some((value, next)) = read_number(more) else {
            return Err(LineFault::Number(NumberFault::Shape(place)));
        };
        let number = match u16::try_from(value) {
            Ok(number) => number,
            Err(_) => {
                fits = fits.and(Err(NumberFault::Wide(place)));
                0
            }
        };
        let Ok(()) = numbers.push(number) else {
            unreachable!()
        };
        rest = next;
    }
    if !rest.is_empty() || numbers.len() < least {
        return Err(LineFault::Form(text.len() - rest.len() + 2));
    }
    fits?;
    Ok(Line { letter, numbers })
}

// A line has one meaning, or one refusal with one detail, and never both.
pub fn a_line_has_one_reading()
    ensures { OneReading }
{}
