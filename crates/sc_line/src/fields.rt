//! Lines, their fields, and the numbers in them.

ghost use Rattle.std.specs.Prelude.{◌≡◌, ◌≢◌, ℤ, pos, ◌≤ℤ◌, ◌≤◌, ◌<◌, ◌==◌, ◌∷◌, [], false, length, position, IfSome, IfNone, IfOk, IfErr, OnOk};
ghost use Rattle.std.specs.List.{slice_split};
ghost use Rattle.sc_line.specs.declared.fault.Kind.TheVariants as kinds;
ghost use Rattle.sc_line.specs.Lines.{fields, first_number, TakesNumber, TellsNumber, IsNarrowed, numbers_line};
ghost use Rattle.sc_line.specs.Lines as lines;
ghost use Rattle.sc_line.specs.Forms.{Tells, count_kind};
ghost use Rattle.sc_line.specs.Faults.{is_named, from_to, between, literal_fault, numbers_line_fault};
ghost use Rattle.sc_whole.specs.Spelling.{spelling};

use crate::fault::Kind;
use sc_whole::{is_decimal, read_decimal};
use std::marker::Model;

// The place of the first byte `mark`.
fn place_of(bytes: &[u8], mark: u8) -> Option<usize>
    ensures { result ≡ position (λ b. b == mark) bytes.now }
{
    bytes.iter().position(|b| *b == mark)
}

/// What stands before the first byte `mark`, and what stands after it. `None` where there is no such byte.
pub fn cut(bytes: &[u8], mark: u8) -> Option<(&[u8], &[u8])>
    ensures found { IfSome result (λ ends. slice_split (λ b. b == mark) bytes.now ≡ ends.0.now ∷ slice_split (λ b. b == mark) ends.1.now) }
    ensures shorter { IfSome result (λ ends. length ends.1.now < length bytes.now) }
    ensures none { IfNone result (slice_split (λ b. b == mark) bytes.now ≡ bytes.now ∷ []) }
{
    match place_of(bytes, mark) {
        None => None,
        Some(place) => Some((&bytes[..place], &bytes[place + 1..])),
    }
}

/// The fields of a line, one after the other: what stands between its spaces.
#[derive(Drop)]
pub struct Fields<'a> {
    rest: Option<&'a [u8]>,
}

impl<'a> Model for Fields<'a> {
    ghost use Rattle.std.specs.Prelude.{ℕ, List};
    ghost use Rattle.std.specs.Option.{option_copied};
    ghost use Rattle.sc_line.specs.Lines.{fields_left};

    ghost Value = { List (List ℕ) };

    ghost view = { λ f. fields_left (option_copied f.rest) };
}

impl<'a> Fields<'a> {
    /// The fields of a line.
    pub fn of(line: &'a [u8]) -> Fields<'a>
        ensures { result ≡ fields line.now }
    {
        Fields { rest: Some(line) }
    }

    /// The next field, where there is one.
    pub fn next(&mut self) -> Option<&'a [u8]>
        ensures some { IfSome result (λ field. self.old ≡ field.now ∷ self.new) }
        ensures none { IfNone result (self.old ≡ []) }
    {
        let rest = self.rest?;
        match cut(rest, b' ') {
            None => {
                self.rest = None;
                Some(rest)
            }
            Some((field, after)) => {
                self.rest = Some(after);
                Some(field)
            }
        }
    }

    /// Passes the field that has to stand next.
    pub fn name(&mut self, name: &[u8]) -> Result<(), Kind>
        ensures ok { OnOk result (self.old ≡ name.now ∷ self.new) }
        ensures err { IfErr result (λ kind. (kind ≡ kinds.Form) × (is_named name.now self.old ≡ false)) }
    {
        match self.next() {
            Some(field) if field == name => Ok(()),
            _ => Err(Kind::Form),
        }
    }

    /// The number that the next field spells. `None` stands for one past 128 bits.
    pub fn number(&mut self) -> Result<Option<i128>, Kind>
        ensures ok { IfOk result (TakesNumber self.old self.new) }
        ensures err { IfErr result (λ kind. (kind ≡ kinds.Form) × (first_number self.old ≡ None)) }
    {
        let Some(field) = self.next() else {
            return Err(Kind::Form);
        };
        number_of(field)
    }

    /// Passes the number that has to stand next.
    pub fn known(&mut self, number: u32) -> Result<(), Kind>
        ensures ok { OnOk result (self.old ≡ spelling (pos number) ∷ self.new) }
        ensures err { IfErr result (λ kind. (kind ≡ kinds.Form) × (is_named (spelling (pos number)) self.old ≡ false)) }
    {
        match self.number()? {
            Some(next) if next == i128::from(number) => Ok(()),
            _ => Err(Kind::Form),
        }
    }

    /// Whether no field is left.
    pub fn end(&self) -> Result<(), Kind>
        ensures ok { OnOk result (self.now ≡ []) }
        ensures err { IfErr result (λ kind. (kind ≡ kinds.Form) × (self.now ≢ [])) }
    {
        match self.rest {
            None => Ok(()),
            Some(_) => Err(Kind::Form),
        }
    }
}

/// The number that a field spells. `None` stands for one past 128 bits.
pub fn number_of(field: &[u8]) -> Result<Option<i128>, Kind>
    ensures ok { IfOk result (TellsNumber field.now) }
    ensures err { IfErr result (λ kind. (kind ≡ kinds.Form) × (lines.number_of field.now ≡ None)) }
{
    match read_decimal(field) {
        Some(number) => Ok(Some(number)),
        None if is_decimal(field) => Ok(None),
        None => Err(Kind::Form),
    }
}

/// A number of a text, where it is in its range.
pub fn within(number: Option<i128>, low: i128, high: i128) -> Result<i128, Kind>
    ensures ok { IfOk result (λ z. (number ≡ Some z) × (low ≤ℤ z) × (z ≤ℤ high)) }
    ensures err { IfErr result (λ kind. (kind ≡ kinds.Range) × ((z : ℤ) → IsNarrowed z number → from_to low high z ≡ false)) }
{
    match number {
        Some(number) if number >= low && number <= high => Ok(number),
        _ => Err(Kind::Range),
    }
}

/// A natural number of a text, where it is in its range.
pub fn in_range(number: Option<i128>, low: u32, high: u32) -> Result<u32, Kind>
    ensures ok { IfOk result (λ n. (number ≡ Some (pos n)) × (low ≤ n) × (n ≤ high)) }
    ensures err { IfErr result (λ kind. (kind ≡ kinds.Range) × ((z : ℤ) → IsNarrowed z number → between low high z ≡ false)) }
{
    Ok(within(number, i128::from(low), i128::from(high))? as u32)
}

/// A line that is due word by word.
pub fn literal_line(line: &[u8], text: &[u8]) -> Result<(), Kind>
    ensures ok { OnOk result (line.now ≡ text.now) }
    ensures err { IfErr result (λ kind. literal_fault text.now line.now ≡ Some kind) }
{
    if line == text {
        Ok(())
    } else {
        Err(Kind::Form)
    }
}

/// The number of a line `NAME NUMBER`.
pub fn number_line(line: &[u8], name: &[u8], low: i128, high: i128) -> Result<i128, Kind>
    ensures ok { IfOk result (λ z. (line.now ≡ numbers_line name.now (z ∷ [])) × (low ≤ℤ z) × (z ≤ℤ high)) }
    ensures fields { IfOk result (λ z. fields line.now ≡ name.now ∷ spelling z ∷ []) }
    ensures err { IfErr result (λ kind. numbers_line_fault name.now (from_to low high ∷ []) line.now ≡ Some kind) }
{
    let mut fields = Fields::of(line);
    fields.name(name)?;
    let number = fields.number()?;
    fields.end()?;
    within(number, low, high)
}

/// The natural number of a line `NAME NUMBER`.
pub fn count_line(line: &[u8], name: &[u8], low: u32, high: u32) -> Result<u32, Kind>
    ensures ok { IfOk result (λ n. (line.now ≡ lines.count_line name.now n) × (low ≤ n) × (n ≤ high)) }
    ensures tells { IfOk result (Tells (count_kind name.now low high) line.now) }
    ensures err { IfErr result (λ kind. numbers_line_fault name.now (between low high ∷ []) line.now ≡ Some kind) }
{
    Ok(number_line(line, name, i128::from(low), i128::from(high))? as u32)
}
