// The letters of the twelve delivery months.
// Kept: the letters stand as cases both ways, the form that the project asks for (docs/DECISIONS.md).
ghost use Rattle.std.specs.Prelude.{◌≡◌, ℕ, ◌<◌, ◌≤◌, MatchOption, ◌≢◌};
ghost use Rattle.sheet.specs.Codes.{letter_of};

/// The letter of a month of the year, 0 for January.
pub fn letter(month_of_year: u32) -> Option<char>
    ensures { MatchOption result (12 ≤ month_of_year) (λ c. (month_of_year < 12) × (c ≡ letter_of month_of_year) × (c < 128)) }
{
    match month_of_year {
        0 => Some('F'),
        1 => Some('G'),
        2 => Some('H'),
        3 => Some('J'),
        4 => Some('K'),
        5 => Some('M'),
        6 => Some('N'),
        7 => Some('Q'),
        8 => Some('U'),
        9 => Some('V'),
        10 => Some('X'),
        11 => Some('Z'),
        _ => None,
    }
}

/// The month of the year that has this letter, 0 for January.
pub fn month_of_letter(letter: char) -> Option<u32>
    ensures { MatchOption result ((m : ℕ) → m < 12 → letter_of m ≢ letter) (λ m. (m < 12) × (letter_of m ≡ letter)) }
{
    match letter {
        'F' => Some(0),
        'G' => Some(1),
        'H' => Some(2),
        'J' => Some(3),
        'K' => Some(4),
        'M' => Some(5),
        'N' => Some(6),
        'Q' => Some(7),
        'U' => Some(8),
        'V' => Some(9),
        'X' => Some(10),
        'Z' => Some(11),
        _ => None,
    }
}
