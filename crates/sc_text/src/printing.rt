//! The printers: each appends exactly its text. Where memory runs out, a front of the text was appended.

ghost use Rattle.std.specs.Prelude.{◌≡◌, ◌<◌, ◌++◌, ◌∷◌, [], map, pos, codes, All, OnOk, OnErr};
ghost use Rattle.std.specs.List.{flat_map};
ghost use Rattle.sc_whole.specs.Spelling.{spelling};
ghost use Rattle.sc_words.specs.declared.limits.TheConstants.{GENERATORS};
ghost use Rattle.sc_words.specs.Spelling as letter_spelling;
ghost use Rattle.sc_line.specs.Lines.{ended, text_of, spaced, count_line};
ghost use Rattle.sc_line.specs.Printing.{AppendsPart};
ghost use Rattle.sc_text.specs.Printing.{fields_of, AreSpellable};
ghost use Rattle.sc_text.specs.inside.Printing.{numbers_bytes, entries_bytes, field_bytes};
ghost use Rattle.sc_text.specs.TableLines.{entry_field};
ghost use Rattle.sc_text.specs.Words as words;
ghost use Rattle.sc_text.specs.Sides as side_lines;
ghost use Rattle.sc_text.specs.Surfaces as surfaces;
ghost use Rattle.sc_text.specs.Printing as printed;

use sc_chain::{Letter, Word};
use sc_fraction::Frac;
use sc_theory::Side;
use sc_whole::print_decimal;
use std::alloc::AllocError;

/// What stands in a line behind its name: a field, or a run of fields.
#[derive(Clone, Copy, Debug)]
pub enum Field<'a> {
    /// Bytes as they are.
    Text(&'a [u8]),
    /// A number in its one spelling.
    Number(i128),
    /// The letters of a word.
    Letters(&'a [Letter]),
    /// A fraction as `NUM/DEN`.
    Fraction(&'a Frac),
    /// Numbers, a field each.
    Numbers(&'a [u32]),
    /// The entries of a distance table, a field each: a number, or `-` for none.
    Entries(&'a [Option<i128>]),
}

fn letter_byte(letter: Letter) -> u8
    requires { letter.number < GENERATORS }
    ensures { result ≡ letter_spelling.letter_byte letter }
{
    let first = if letter.inverse { b'A' } else { b'a' };
    first + letter.number
}

fn print_letters(letters: &[Letter], out: &mut Vec<u8>) -> Result<(), AllocError>
    requires { All (λ x. x.number < GENERATORS) letters.now }
    ensures ok { OnOk result (out.new.items ≡ out.old.items ++ words.spelled letters.now) }
    ensures err { OnErr result (AppendsPart out.old.items out.new.items (words.spelled letters.now)) }
{
    for letter in letters {
        out.push(letter_byte(*letter))?;
    }
    Ok(())
}

fn print_number(number: i128, out: &mut Vec<u8>) -> Result<(), AllocError>
    ensures ok { OnOk result (out.new.items ≡ out.old.items ++ (32 ∷ spelling number)) }
    ensures err { OnErr result (AppendsPart out.old.items out.new.items (32 ∷ spelling number)) }
{
    out.push(b' ')?;
    print_decimal(number, out)
}

fn print_numbers(numbers: &[u32], out: &mut Vec<u8>) -> Result<(), AllocError>
    ensures ok { OnOk result (out.new.items ≡ out.old.items ++ numbers_bytes numbers.now) }
    ensures err { OnErr result (AppendsPart out.old.items out.new.items (numbers_bytes numbers.now)) }
{
    for number in numbers {
        print_number(i128::from(*number), out)?;
    }
    Ok(())
}

fn print_entry(entry: Option<i128>, out: &mut Vec<u8>) -> Result<(), AllocError>
    ensures ok { OnOk result (out.new.items ≡ out.old.items ++ (32 ∷ entry_field entry)) }
    ensures err { OnErr result (AppendsPart out.old.items out.new.items (32 ∷ entry_field entry)) }
{
    match entry {
        Some(number) => print_number(number, out),
        None => out.extend_from_slice(b" -"),
    }
}

fn print_entries(entries: &[Option<i128>], out: &mut Vec<u8>) -> Result<(), AllocError>
    ensures ok { OnOk result (out.new.items ≡ out.old.items ++ entries_bytes entries.now) }
    ensures err { OnErr result (AppendsPart out.old.items out.new.items (entries_bytes entries.now)) }
{
    for entry in entries {
        print_entry(*entry, out)?;
    }
    Ok(())
}

/// Appends the fields, each behind a space.
fn print_field(field: Field, out: &mut Vec<u8>) -> Result<(), AllocError>
    requires { AreSpellable field }
    ensures ok { OnOk result (out.new.items ≡ out.old.items ++ field_bytes field.entry) }
    ensures err { OnErr result (AppendsPart out.old.items out.new.items (field_bytes field.entry)) }
{
    match field {
        Field::Text(text) => {
            out.push(b' ')?;
            out.extend_from_slice(text)
        }
        Field::Number(number) => print_number(number, out),
        Field::Letters(letters) => {
            out.push(b' ')?;
            print_letters(letters, out)
        }
        Field::Fraction(fraction) => {
            out.push(b' ')?;
            fraction.print(out)
        }
        Field::Numbers(numbers) => print_numbers(numbers, out),
        Field::Entries(entries) => print_entries(entries, out),
    }
}

/// Appends a line of a name and fields.
pub fn print_line(name: &[u8], fields: &[Field], out: &mut Vec<u8>) -> Result<(), AllocError>
    requires { All AreSpellable fields.now }
    ensures ok { OnOk result (out.new.items ≡ out.old.items ++ ended (spaced (name.now ∷ flat_map fields_of fields.now))) }
    ensures err { OnErr result (AppendsPart out.old.items out.new.items (ended (spaced (name.now ∷ flat_map fields_of fields.now)))) }
{
    out.extend_from_slice(name)?;
    for field in fields {
        print_field(*field, out)?;
    }
    out.push(b'\n')?;
    Ok(())
}

/// Appends a line of a name and a count.
pub fn print_count_line(name: &[u8], count: u64, out: &mut Vec<u8>) -> Result<(), AllocError>
    ensures ok { OnOk result (out.new.items ≡ out.old.items ++ ended (count_line name.now count)) }
    ensures err { OnErr result (AppendsPart out.old.items out.new.items (ended (count_line name.now count))) }
{
    print_line(name, &[Field::Number(i128::from(count))], out)
}

/// Appends the line of a word with its weight.
pub fn print_word_line(weight: u32, word: &Word, out: &mut Vec<u8>) -> Result<(), AllocError>
    requires { All (λ x. x.number < GENERATORS) word.now }
    ensures ok { OnOk result (out.new.items ≡ out.old.items ++ ended (words.word_line (weight, word.now))) }
    ensures err { OnErr result (AppendsPart out.old.items out.new.items (ended (words.word_line (weight, word.now)))) }
{
    let fields = [
        Field::Number(i128::from(weight)),
        Field::Letters(word.as_slice()),
    ];
    print_line(b"word", &fields, out)
}

/// Appends the line of a side.
pub fn print_side_line(side: &Side, out: &mut Vec<u8>) -> Result<(), AllocError>
    ensures ok { OnOk result (out.new.items ≡ out.old.items ++ ended (side_lines.side_line side.now)) }
    ensures err { OnErr result (AppendsPart out.old.items out.new.items (ended (side_lines.side_line side.now))) }
{
    let fields = [
        Field::Number(i128::from(side.label)),
        Field::Number(i128::from(side.mate)),
        Field::Number(i128::from(side.next)),
    ];
    print_line(b"side", &fields, out)
}

fn print_word_lines(entries: &[(u32, Word)], out: &mut Vec<u8>) -> Result<(), AllocError>
    requires { All (λ w. All (λ x. x.number < GENERATORS) w.1) entries.now }
    ensures ok { OnOk result (out.new.items ≡ out.old.items ++ text_of (map words.word_line entries.now)) }
    ensures err { OnErr result (AppendsPart out.old.items out.new.items (text_of (map words.word_line entries.now))) }
{
    for entry in entries {
        print_word_line(entry.0, &entry.1, out)?;
    }
    Ok(())
}

fn print_side_lines(sides: &[Side], out: &mut Vec<u8>) -> Result<(), AllocError>
    ensures ok { OnOk result (out.new.items ≡ out.old.items ++ text_of (map side_lines.side_line sides.now)) }
    ensures err { OnErr result (AppendsPart out.old.items out.new.items (text_of (map side_lines.side_line sides.now))) }
{
    for side in sides {
        print_side_line(side, out)?;
    }
    Ok(())
}

/// Appends the lines of a chain: how many words there are, and the words.
pub fn print_words(entries: &[(u32, Word)], out: &mut Vec<u8>) -> Result<(), AllocError>
    requires { All (λ w. All (λ x. x.number < GENERATORS) w.1) entries.now }
    ensures ok { OnOk result (out.new.items ≡ out.old.items ++ text_of (printed.words_lines entries.now)) }
    ensures err { OnErr result (AppendsPart out.old.items out.new.items (text_of (printed.words_lines entries.now))) }
{
    print_count_line(b"words", entries.len() as u64, out)?;
    print_word_lines(entries, out)
}

/// Appends the lines of the sides: how many there are, and the sides.
pub fn print_sides(sides: &[Side], out: &mut Vec<u8>) -> Result<(), AllocError>
    ensures ok { OnOk result (out.new.items ≡ out.old.items ++ text_of (printed.sides_lines sides.now)) }
    ensures err { OnErr result (AppendsPart out.old.items out.new.items (text_of (printed.sides_lines sides.now))) }
{
    print_count_line(b"sides", sides.len() as u64, out)?;
    print_side_lines(sides, out)
}

/// Appends the text of a surface.
pub fn print_surface_text(
    entries: &[(u32, Word)],
    copies: u32,
    sides: &[Side],
    out: &mut Vec<u8>,
) -> Result<(), AllocError>
    requires { All (λ w. All (λ x. x.number < GENERATORS) w.1) entries.now }
    ensures ok { OnOk result (out.new.items ≡ out.old.items ++ surfaces.surface_text entries.now copies sides.now) }
    ensures err { OnErr result (AppendsPart out.old.items out.new.items (surfaces.surface_text entries.now copies sides.now)) }
{
    print_line(b"scallop surface 1", &[], out)?;
    print_words(entries, out)?;
    print_count_line(b"copies", copies as u64, out)?;
    print_sides(sides, out)?;
    print_line(b"end", &[], out)
}
